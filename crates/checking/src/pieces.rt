// Pieces of a unit's tables: which keep the rules of reading.

ghost use Rattle.std.specs.Prelude.{◌≡◌, ◌&&◌, nat_eq, nat_le, nat_lt};
ghost use Rattle.std.specs.List.{list_all};
ghost use Rattle.checking.specs.Tests.{apart};
ghost use Rattle.checking.specs.Pieces.{fits as fits_in, is_name, is_text, is_label, is_domain, is_declaration, row_known, is_list};

use super::apart::are_apart;
use jcode::mention::{Stage, UnitRow};
use jcode::piece;
use jcode::piece::{NAME_LIMIT, TEXT_LIMIT, is_word};
use jcode::span::Span;
use jcode::statement::{LABEL_LIMIT, LIST_LIMIT};
use jcode::variable::{Domain, Variable};
use terms::number::spans;
use terms::row::Row;

// Whether the span lies within the bytes and is no longer than the limit.
fn fits(bytes: &[u8], span: Span, limit: usize) -> bool
    ensures { result ≡ (fits_in bytes.now span && nat_le span.length limit) }
{
    let end = span.start.checked_add(span.length);
    end.is_some_and(|end| end <= bytes.len()) && span.length <= limit
}

pub(super) fn is_name(bytes: &[u8], span: Span) -> bool
    ensures { result ≡ is_name bytes.now span }
{
    fits(bytes, span, NAME_LIMIT) && is_word(span.of(bytes))
}

pub(super) fn is_text(bytes: &[u8], span: Span) -> bool
    ensures { result ≡ is_text bytes.now span }
{
    fits(bytes, span, TEXT_LIMIT) && piece::is_text(span.of(bytes))
}

pub(super) fn is_label(label: u16) -> bool
    ensures { result ≡ is_label label }
{
    (1..=LABEL_LIMIT).contains(&label)
}

fn is_domain(domain: Domain) -> bool
    ensures { result ≡ is_domain domain }
{
    match domain {
        Domain::Subrange { low, high } => spans(low) && spans(high) && low <= high,
        Domain::Integer | Domain::Boolean => true,
    }
}

pub(super) fn is_declaration(bytes: &[u8], variable: Variable) -> bool
    ensures { result ≡ is_declaration bytes.now variable }
{
    is_name(bytes, variable.name) && is_domain(variable.domain)
}

// Whether a term can have this row, with so many variables, where NEW lists these.
fn is_known(count: usize, listed: &[usize], row: UnitRow) -> bool
    ensures { result ≡ row_known count listed.now row }
{
    match row {
        Row::Constant(number) => spans(number),
        Row::Mention(mention) => {
            mention.variable < count
                && (mention.stage == Stage::Current || listed.contains(&mention.variable))
        }
        Row::Operator(_) => true,
    }
}

// Whether a term can have these rows.
pub(super) fn are_known(count: usize, listed: &[usize], rows: &[UnitRow]) -> bool
    ensures { result ≡ list_all (row_known count listed.now) rows.now }
{
    rows.iter().all(|&row| is_known(count, listed, row))
}

fn are_below(count: usize, numbers: &[usize]) -> bool
    ensures { result ≡ list_all (λ n. nat_lt n count) numbers.now }
{
    numbers.iter().all(|&n| n < count)
}

fn are_distinct(numbers: &[usize]) -> bool
    ensures { result ≡ apart nat_eq numbers.now }
{
    are_apart(numbers, |m, n| m == n)
}

// Whether NEW can list these, with so many variables.
pub(super) fn is_list(count: usize, listed: &[usize]) -> bool
    ensures { result ≡ is_list count listed.now }
{
    listed.len() <= LIST_LIMIT && are_below(count, listed) && are_distinct(listed)
}
