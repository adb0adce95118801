// The cursor: a place in the bytes, and the pieces of the notation that it reads and passes.

ghost use Rattle.std.specs.Prelude.{◌≡◌, ◌+◌, ◌-◌, ◌^◌, ◌<◌, ◌≤◌, min, length, take, drop, IfOk, IfSome, Ok, slice_get, codes};
ghost use Rattle.terms.specs.Words.{same_word};
ghost use Rattle.jcode.specs.Bytes.{in_class, run_at, text_run, text_at, slice};
ghost use Rattle.jcode.specs.Pieces.{Reads, told, value_after, proper, white, starts_with, short, read_mark, read_white, read_gap, read_end, read_may_gap, read_word, read_name, read_keyword, read_decimal, read_number, read_label, read_inner, read_text};

use super::class::Class;
use super::piece::{NAME_LIMIT, TEXT_LIMIT};
use super::refusal::{ReadFault, Refusal};
use super::span::Span;
use super::statement::LABEL_LIMIT;
use terms::number;
use terms::part::part;
use terms::word::same_word;

#[derive(Clone, Copy, Debug, PartialEq, Eq)]
pub struct Cursor<'a> {
    pub(super) bytes: &'a [u8],
    pub(super) at: usize,
}

const GREATEST: u32 = number::GREATEST as u32;

// Whether `/)` stands at a place. Apart from `in_text`, which asks it at a slash alone.
#[inline(never)]
fn closes(bytes: &[u8], at: usize) -> bool
    ensures { result ≡ same_word (take 2 (drop at bytes.now)) (codes "/)") }
{
    same_word(part(bytes, at, 2), b"/)")
}

// Whether a text goes on at a place: a byte of a text stands there, and no `/)`.
fn in_text(bytes: &[u8], at: usize) -> bool
    ensures { result ≡ text_at bytes.now at }
{
    Class::Text.stands(bytes, at) && (bytes[at] != b'/' || !closes(bytes, at))
}

// How many bytes of a text stand from `start` on.
pub(super) fn text_run(bytes: &[u8], start: usize) -> usize
    ensures value { result ≡ (text_run bytes.now start).length }
    ensures within { 0 < result → start + result ≤ length bytes.now }
{
    (start..bytes.len())
        .take_while(|&at| in_text(bytes, at))
        .count()
}

// The number that digits write, or the greatest of 64 bits where it is larger.
fn value_of(digits: &[u8]) -> u64
    ensures { result ≡ min (value_after 0 digits.now) (2 ^ 64 - 1) }
{
    digits.iter().fold(0u64, |value, digit| {
        let next = digit.saturating_sub(b'0');
        value.saturating_mul(10).saturating_add(u64::from(next))
    })
}

// The number that digits write, if it lies from `low` to `high` and no zero stands in front.
fn proper(digits: &[u8], low: u32, high: u32) -> Option<u32>
    ensures { result ≡ proper digits.now low high }
{
    let value = u32::try_from(value_of(digits)).ok()?;
    let padded = digits.len() > 1 && digits.first() == Some(&b'0');
    // Two comparisons, since with a range's `contains` the search for the proof comes to its limits.
    (!padded && low <= value && value <= high).then_some(value)
}

impl Cursor<'_> {
    // The byte at the cursor.
    pub(super) fn peek(&self) -> Option<u8>
        ensures { result ≡ slice_get self.now.bytes.now self.now.at }
    {
        self.bytes.get(self.at).copied()
    }

    // Whether these bytes stand at the cursor.
    pub(super) fn starts_with(&self, wanted: &[u8]) -> bool
        ensures { result ≡ starts_with wanted.now self.now.bytes.now self.now.at }
    {
        same_word(part(self.bytes, self.at, wanted.len()), wanted)
    }

    // Bytes that are one piece.
    pub(super) fn mark(&mut self, wanted: &[u8]) -> Result<(), ReadFault>
        ensures { Reads (read_mark wanted.now) self.old result self.new }
    {
        if !self.starts_with(wanted) {
            return Err(Refusal::Missing.at(self.at));
        }
        self.at += wanted.len();
        Ok(())
    }

    // The longest run of bytes of a class at the cursor.
    fn run(&self, class: Class) -> Span
        ensures value { result ≡ run_at (in_class class) self.now.bytes.now self.now.at }
        ensures within { 0 < result.length → self.now.at + result.length ≤ length self.now.bytes.now }
    {
        Span {
            start: self.at,
            length: class.run(self.bytes, self.at),
        }
    }

    // How many separators stand here, if the last of them is `last`.
    fn white(&self, last: u8) -> Option<usize>
        ensures value { result ≡ white last self.now.bytes.now self.now.at }
        ensures within { IfSome result (λ n. self.now.at + n ≤ length self.now.bytes.now) }
    {
        let run = self.run(Class::Separator);
        let ends = run.of(self.bytes).last().copied() == Some(last);
        ends.then_some(run.length)
    }

    // A longest run of separators that ends in `last`.
    fn pass_white(&mut self, last: u8) -> Result<(), ReadFault>
        ensures { Reads (read_white last) self.old result self.new }
    {
        let run = self.white(last).ok_or(Refusal::Missing.at(self.at))?;
        self.at += run;
        Ok(())
    }

    pub(super) fn gap(&mut self) -> Result<(), ReadFault>
        ensures { Reads read_gap self.old result self.new }
    {
        self.pass_white(b' ')
    }

    pub(super) fn end(&mut self) -> Result<(), ReadFault>
        ensures { Reads read_end self.old result self.new }
    {
        self.pass_white(b'\n')
    }

    // A gap if one stands here.
    pub(super) fn may_gap(&mut self)
        ensures { Reads read_may_gap self.old (Ok result) self.new }
    {
        if let Some(run) = self.white(b' ') {
            self.at += run;
        }
    }

    // A letter and all that may follow it in a name.
    pub(super) fn word(&mut self) -> Result<Span, ReadFault>
        ensures { Reads read_word self.old result self.new }
    {
        if !Class::Letter.stands(self.bytes, self.at) {
            return Err(Refusal::Missing.at(self.at));
        }
        let word = self.run(Class::Name);
        self.at += word.length;
        Ok(word)
    }

    // The word that was read, if it is short enough for a name.
    pub(super) fn short(&self, word: Span) -> Result<Span, ReadFault>
        ensures { told result self.now.at ≡ short word self.now.at }
    {
        if word.length > NAME_LIMIT {
            return Err(Refusal::Limit.at(word.start));
        }
        Ok(word)
    }

    pub(super) fn name(&mut self) -> Result<Span, ReadFault>
        ensures { Reads read_name self.old result self.new }
    {
        let word = self.word()?;
        self.short(word)
    }

    pub(super) fn keyword(&mut self, wanted: &[u8]) -> Result<(), ReadFault>
        ensures { Reads (read_keyword wanted.now) self.old result self.new }
    {
        let word = self.word()?;
        if !same_word(word.of(self.bytes), wanted) {
            return Err(Refusal::Missing.at(word.start));
        }
        Ok(())
    }

    // A number from `low` to `high` in decimal digits; a fault is laid at `place`.
    fn decimal(&mut self, place: usize, low: u32, high: u32) -> Result<u32, ReadFault>
        ensures value { Reads (read_decimal place low high) self.old result self.new }
        ensures bound { IfOk result (λ n. n ≤ high) }
    {
        let digits = self.run(Class::Digit);
        if digits.length == 0 {
            return Err(Refusal::Missing.at(place));
        }
        let value = proper(digits.of(self.bytes), low, high).ok_or(Refusal::Number.at(place))?;
        self.at += digits.length;
        Ok(value)
    }

    pub(super) fn number(&mut self) -> Result<i64, ReadFault>
        ensures { Reads read_number self.old result self.new }
    {
        let place = self.at;
        if self.peek() == Some(b'-') {
            self.at += 1;
            let value = self.decimal(place, 1, GREATEST)?;
            return Ok(-i64::from(value));
        }
        let value = self.decimal(place, 0, GREATEST)?;
        Ok(i64::from(value))
    }

    pub(super) fn label(&mut self) -> Result<u16, ReadFault>
        ensures { Reads read_label self.old result self.new }
    {
        let label = self.decimal(self.at, 1, u32::from(LABEL_LIMIT))?;
        Ok(label as u16)
    }

    fn inner_text(&mut self) -> Result<Span, ReadFault>
        ensures { Reads read_inner self.old result self.new }
    {
        let text = Span {
            start: self.at,
            length: text_run(self.bytes, self.at),
        };
        if text.length > TEXT_LIMIT {
            return Err(Refusal::Limit.at(self.at));
        }
        self.at += text.length;
        Ok(text)
    }

    pub(super) fn text(&mut self) -> Result<Span, ReadFault>
        ensures { Reads read_text self.old result self.new }
    {
        self.mark(b"(/")?;
        let text = self.inner_text()?;
        self.mark(b"/)")?;
        Ok(text)
    }
}
