// Reports: the line that tells a verdict.

ghost use Rattle.std.specs.Prelude.{◌≡◌, ◌+◌, ◌≤◌, ◌++◌, length, decimal};
ghost use Rattle.arrayvec.specs.ArrayString.{array_string_len};
ghost use Rattle.checking.specs.CheckedUnits.{said};
ghost use Rattle.examiner.specs.Reports.{judgement_text, tail_of, line_of, Reported};

use super::verdict::{Judgement, Verdict};
use arrayvec::ArrayString;
use checking::unit::CheckedUnit;
use itoa::Buffer;
use jcode::refusal::Refusal;
use sheets::fault::SheetFault;

// Room for what stands after the name: at most five numbers of 20 digits each, and words.
type Tail = ArrayString<160>;

fn push_number(text: &mut Tail, label: &str, number: usize)
    requires { array_string_len text.old + length label.now + 20 ≤ 160 }
    ensures bytes { text.new.bytes ≡ text.old.bytes ++ (label.now ++ decimal number) }
    ensures short { array_string_len text.new ≤ array_string_len text.old + length label.now + 20 }
{
    let mut digits = Buffer::new();
    text.push_str(label);
    text.push_str(digits.format(number));
}

fn push_judgement(text: &mut Tail, judgement: Judgement)
    requires { array_string_len text.old + 27 ≤ 160 }
    ensures bytes { text.new.bytes ≡ text.old.bytes ++ judgement_text judgement }
    ensures short { array_string_len text.new ≤ array_string_len text.old + 27 }
{
    match judgement {
        Judgement::Failed(number) => push_number(text, "failed ", number),
        Judgement::Unfinished => text.push_str("unfinished"),
        Judgement::Open => text.push_str("open"),
        Judgement::Cleared => text.push_str("cleared"),
    }
}

fn tail(paths: usize, verdict: Verdict) -> Tail
    ensures bytes { result.bytes ≡ tail_of paths verdict }
    ensures short { array_string_len result ≤ 160 }
{
    let mut text = Tail::new();
    push_number(&mut text, " ", paths);
    push_number(&mut text, " passed ", verdict.passed);
    push_number(&mut text, " failed ", verdict.failed);
    push_number(&mut text, " open ", verdict.open);
    text.push_str(" verdict ");
    push_judgement(&mut text, verdict.judgement);
    text.push_str("\n");
    text
}

impl Verdict {
    // Writes `NAME PATHS passed P failed F open O verdict V` and a newline, and tells how many bytes these are.
    pub fn report(self, unit: &CheckedUnit<'_>, line: &mut [u8]) -> Result<usize, SheetFault>
        ensures { Reported (line_of (said unit.now) self) line.old result line.new }
    {
        let name = unit.name();
        let tail = tail(unit.paths(), self);
        let end = name.len() + tail.len();
        if line.len() < end {
            return Err(Refusal::Buffer.into());
        }
        line[..name.len()].copy_from_slice(name);
        line[name.len()..end].copy_from_slice(tail.as_str().as_bytes());
        Ok(end)
    }
}
