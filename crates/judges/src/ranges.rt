// Ranges: from where to where each cell is tried.

ghost use Rattle.std.specs.Prelude.{◌≡◌, ◌+◌, ◌-◌, ◌^◌, length, map, min, false, nat_le};
ghost use Rattle.sheets.specs.Places.{cells_in, says};
ghost use Rattle.judges.specs.Tries.{gap, range_of, ranges as ranges_of, ways};
ghost use Rattle.judges.specs.Ranging.{opened};

use reckoning::mark::Mark;
use sheets::cell::{Cell, CellRow};
use sheets::sheet::Sheet;
use terms::row::Row;

// With more tries than this, none is made.
const LIMIT: u64 = 65_536;

fn width(range: Mark) -> u64
    ensures { result ≡ min (gap range.low range.high + 1) (2 ^ 64 - 1) }
{
    range.high.abs_diff(range.low).saturating_add(1)
}

// Whether there are few enough ways to choose a number of each range.
pub(super) fn are_few(ranges: &[Mark]) -> bool
    ensures { result ≡ nat_le (ways ranges.now) 65536 }
{
    let mut total: u64 = 1;
    for range in ranges {
        total = total.saturating_mul(width(*range));
        if total > LIMIT {
            return false;
        }
    }
    true
}

fn range(occurs: bool, cell: Cell) -> Mark
    ensures { result ≡ range_of occurs cell }
{
    let high = match cell.set_by {
        None if occurs => cell.high,
        _ => cell.low,
    };
    Mark {
        low: cell.low,
        high,
    }
}

// The cell that a row mentions occurs.
fn open(cells: &[Cell], row: CellRow, ranges: &mut [Mark])
    requires { length ranges.old ≡ length cells.now }
    ensures { ranges.new ≡ opened cells.now row ranges.old }
{
    if let Row::Mention(i) = row
        && i < cells.len()
    {
        ranges[i] = range(true, cells[i]);
    }
}

fn start(cells: &[Cell], ranges: &mut [Mark])
    requires { length ranges.old ≡ length cells.now }
    ensures { ranges.new ≡ map (range_of false) cells.now }
{
    for (i, cell) in cells.iter().enumerate() {
        ranges[i] = range(false, *cell);
    }
}

pub(super) fn set_ranges(sheet: &Sheet<'_>, ranges: &mut [Mark])
    requires { length ranges.old ≡ length (cells_in sheet.now) }
    ensures { ranges.new ≡ ranges_of (says sheet.now).parts 0 (cells_in sheet.now) }
{
    start(sheet.cells(), ranges);
    for row in sheet.rows() {
        open(sheet.cells(), *row, ranges);
    }
}
