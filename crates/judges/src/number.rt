// Numbers of terms: rows read as whole numbers, where no row leaves the span.

ghost use Rattle.std.specs.Prelude.{◌≡◌, ◌<◌, ◌≤◌, length, true, pos, slice_index_or};
ghost use Rattle.terms.specs.Numbers.{in_span};
ghost use Rattle.terms.specs.Terms.{value};
ghost use Rattle.reckoning.specs.Exactness.{Spans};
ghost use Rattle.sheets.specs.Valuations.{cell_in};
ghost use Rattle.judges.specs.Numbering.{lows, newest as newest_of, takes, Read};

use reckoning::mark::Mark;
use sheets::cell::CellRow;
use terms::row::Row;

// The number at a place of a stack of marks, which are the room that a judge is lent; 0 past its end.
fn number_at(stack: &[Mark], place: usize) -> i64
    ensures { result ≡ slice_index_or (lows stack.now) place (pos 0) }
{
    stack.get(place).map_or(0, |mark| mark.low)
}

// What a row comes to, by the numbers on the stack.
fn newest(valuation: &[i64], row: CellRow, stack: &[Mark]) -> i64
    ensures { in_span (newest_of (cell_in valuation.now) row stack.now) ≡ true → result ≡ newest_of (cell_in valuation.now) row stack.now }
{
    match row {
        Row::Constant(number) => number,
        Row::Mention(cell) => valuation.get(cell).copied().unwrap_or(0),
        Row::Operator(operator) => {
            let first = number_at(stack, 0);
            let second = number_at(stack, 1);
            let third = number_at(stack, 2);
            operator.compute(first, second, third).unwrap_or(0)
        }
    }
}

// How many numbers a row takes from the stack, if there are so many.
fn taken(row: CellRow) -> usize
    ensures { result ≡ takes row }
{
    match row {
        Row::Operator(operator) => operator.arity(),
        _ => 0,
    }
}

// Reads a row onto the stack that stands from `top` on, and tells where it stands then. Not by `terms::fold`, which asks for the room of each row: a try reads many rows.
fn read(valuation: &[i64], row: CellRow, stack: &mut [Mark], top: usize) -> usize
    requires some { 0 < top }
    requires inside { top ≤ length stack.old }
    ensures { Read (cell_in valuation.now) row stack.old top result stack.new }
{
    let numbers = &stack[top..];
    let place = top + taken(row).min(numbers.len()) - 1;
    stack[place].low = newest(valuation, row, numbers);
    place
}

// The number of a term, by those of the cells.
pub(super) fn number_of(valuation: &[i64], rows: &[CellRow], stack: &mut [Mark]) -> i64
    requires spans { Spans (cell_in valuation.now) rows.now }
    requires room { length rows.now ≤ length stack.old }
    ensures { result ≡ value (cell_in valuation.now) rows.now }
{
    let mut top = stack.len();
    for i in (0..rows.len()).rev() {
        top = read(valuation, rows[i], stack, top);
    }
    number_at(&stack[top..], 0)
}
