// Tries: the valuations that the trier goes through, each from the one before it.

ghost use Rattle.std.specs.Prelude.{◌≡◌, ◌<◌, ◌≤◌, [], true, false, length, map, slice_index_or, Some, None};
ghost use Rattle.std.specs.Bool.{OnTrue, OnFalse};
ghost use Rattle.sheets.specs.Sheets.{set_by};
ghost use Rattle.sheets.specs.Places.{cells_in, rows_in, says};
ghost use Rattle.sheets.specs.Valuations.{Within};
ghost use Rattle.judges.specs.Tries.{first, is_refuted as is_refuted_of, ranges as ranges_of, tries_from};
ghost use Rattle.judges.specs.Ranging.{no_cell};
ghost use Rattle.judges.specs.Walks.{begun, is_open, stepped, turning, Turned, Followed};

use super::number::number_of;
use reckoning::mark::Mark;
use sheets::cell::Cell;
use sheets::setting::setting_term;
use sheets::sheet::Sheet;

// Each cell at its low.
pub(super) fn start(cells: &[Cell], valuation: &mut [i64])
    requires { length valuation.old ≡ length cells.now }
    ensures { valuation.new ≡ map (λ c. c.low) cells.now }
{
    for (i, cell) in cells.iter().enumerate() {
        valuation[i] = cell.low;
    }
}

// The number that a cell begins with, `None` where a part sets it to one out of its bounds.
fn begin(sheet: &Sheet<'_>, cell: usize, valuation: &[i64], stack: &mut [Mark]) -> Option<i64>
    requires cell { cell < length (cells_in sheet.now) }
    requires within { Within (cells_in sheet.now) valuation.now }
    requires room { length (rows_in sheet.now) ≤ length stack.old }
    ensures { result ≡ begun (says sheet.now) (set_by (cells_in sheet.now) cell) (slice_index_or (cells_in sheet.now) cell no_cell) valuation.now }
{
    let cell = sheet.cells()[cell];
    let Some(place) = cell.set_by else {
        return Some(cell.low);
    };
    let number = number_of(valuation, setting_term(sheet.part(place)), stack);
    cell.allows(number).then_some(number)
}

// Gives the cells from a place on the numbers that they begin with, and tells the place of the one that has none, or how many cells there are.
fn follow(sheet: &Sheet<'_>, from: usize, valuation: &mut [i64], stack: &mut [Mark]) -> usize
    requires within { Within (cells_in sheet.now) valuation.old }
    requires room { length (rows_in sheet.now) ≤ length stack.old }
    requires from { from ≤ length (cells_in sheet.now) }
    ensures within { Within (cells_in sheet.now) valuation.new }
    ensures followed { Followed (says sheet.now) from valuation.old result valuation.new }
{
    let cells = sheet.cells().len();
    for i in from..cells {
        let Some(number) = begin(sheet, i, valuation, stack) else {
            return i;
        };
        valuation[i] = number;
    }
    cells
}

// Whether every part but the last is true, and the last false.
fn is_refuted(sheet: &Sheet<'_>, valuation: &[i64], stack: &mut [Mark]) -> bool
    requires within { Within (cells_in sheet.now) valuation.now }
    requires room { length (rows_in sheet.now) ≤ length stack.old }
    ensures { result ≡ is_refuted_of valuation.now (says sheet.now).parts }
{
    let goal = sheet.parts().len().saturating_sub(1);
    for (place, part) in sheet.parts().iter().enumerate() {
        let number = number_of(valuation, part.of(sheet.rows()), stack);
        if place == goal {
            return number == 0;
        }
        if number != 1 {
            return false;
        }
    }
    false
}

// Turns a cell to the next number of its range, and tells whether there is one.
fn step(ranges: &[Mark], cell: usize, valuation: &mut [i64]) -> bool
    requires range { cell < length ranges.now }
    requires number { cell < length valuation.old }
    ensures told { result ≡ is_open ranges.now valuation.old cell }
    ensures stepped { OnTrue result (valuation.new ≡ stepped valuation.old cell) }
    ensures kept { OnFalse result (valuation.new ≡ valuation.old) }
{
    let is_open = valuation[cell] < ranges[cell].high;
    if is_open {
        valuation[cell] += 1;
    }
    is_open
}

// Turns the highest cell below a place that is not at the end of its range, and tells the place after it.
fn turn(ranges: &[Mark], ended: usize, valuation: &mut [i64]) -> Option<usize>
    requires ended { ended ≤ length valuation.old }
    requires ranges { length ranges.now ≡ length valuation.old }
    ensures { Turned (turning ranges.now valuation.old ended) valuation.old result valuation.new }
{
    for i in (0..ended).rev() {
        if step(ranges, i, valuation) {
            return Some(i + 1);
        }
    }
    None
}

// Makes the tries in their order from the first on, until one falsifies. That one is left in the valuation.
pub(super) fn find(
    sheet: &Sheet<'_>,
    ranges: &[Mark],
    valuation: &mut [i64],
    stack: &mut [Mark],
) -> bool
    requires within { Within (cells_in sheet.now) valuation.old }
    requires room { length (rows_in sheet.now) ≤ length stack.old }
    requires ranges { ranges.now ≡ ranges_of (says sheet.now).parts 0 (cells_in sheet.now) }
    ensures found { result ≡ true → first (says sheet.now) (tries_from (says sheet.now) (cells_in sheet.now) []) ≡ Some valuation.new }
    ensures none { result ≡ false → first (says sheet.now) (tries_from (says sheet.now) (cells_in sheet.now) []) ≡ None }
{
    let mut next = Some(0);
    while let Some(from) = next {
        let ended = follow(sheet, from, valuation, stack);
        if ended == sheet.cells().len() && is_refuted(sheet, valuation, stack) {
            return true;
        }
        next = turn(ranges, ended, valuation);
    }
    false
}
