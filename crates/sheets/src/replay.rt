// Replays: whether a valuation falsifies a sheet.

ghost use Rattle.std.specs.Prelude.{◌≡◌, ◌+◌, ◌<◌, ◌≤◌, ◌↔◌, IsTrue, OnErr, true, Some, length, map, take};
ghost use Rattle.std.specs.List.{list_all, zip};
ghost use Rattle.terms.specs.Terms.{value};
ghost use Rattle.reckoning.specs.Points.{is_point};
ghost use Rattle.reckoning.specs.Ranges.{between};
ghost use Rattle.sheets.specs.Places.{rows_in, parts_in, cells_in, says};
ghost use Rattle.sheets.specs.Sheets.{part};
ghost use Rattle.sheets.specs.Valuations.{allows, cell_in, is_within, GoalAloneFalse};
ghost use Rattle.sheets.specs.Replays.{Replayed, numbers_in};

use super::cell::Cell;
use super::fault::SheetFault;
use super::sheet::Sheet;
use jcode::refusal::Refusal;
use reckoning::mark::Mark;
use reckoning::mentions::Cells;
use reckoning::points::number_of;

// A sheet at a valuation within its bounds, of which each number stands as its point.
#[derive(Clone, Copy)]
struct Valued<'a> {
    sheet: Sheet<'a>,
    points: &'a [Mark],
    ghost exact: { list_all is_point points.now ≡ true },
    ghost within: { is_within (cells_in sheet) (numbers_in points.now) ≡ true },
}

impl Valued<'_> {
    // The number of a part, which its points tell exactly.
    fn number(&self, place: usize, stack: &mut [Mark]) -> Option<i64>
        requires there { place < length (parts_in self.now.sheet) }
        requires room { length (rows_in self.now.sheet) ≤ length stack.old }
        ensures { result ≡ Some (value (cell_in (numbers_in self.now.points.now)) (part (says self.now.sheet) place)) }
    {
        let cells = Cells { marks: self.points };
        number_of(&cells, self.sheet.part(place), stack)
    }

    // Whether every part but the goal is true, and the goal is false.
    fn is_falsified(&self, stack: &mut [Mark]) -> bool
        requires { length (rows_in self.now.sheet) ≤ length stack.old }
        ensures { IsTrue result ↔ GoalAloneFalse (numbers_in self.now.points.now) (says self.now.sheet).parts }
    {
        let goal = self.sheet.parts().len().saturating_sub(1);
        // A `for`: a chain whose closure changes the stack would leave a proof nothing of its answers.
        for place in 0..goal {
            if self.number(place, stack) != Some(1) {
                return false;
            }
        }
        self.number(goal, stack) == Some(0)
    }
}

// Whether each cell allows the number beside it.
fn all_allow(cells: &[Cell], numbers: &[i64]) -> bool
    ensures { result ≡ list_all (λ p. allows p.0 p.1) (zip cells.now numbers.now) }
{
    cells
        .iter()
        .zip(numbers)
        .all(|(cell, number)| cell.allows(*number))
}

// Whether a valuation has a number for each cell, within its bounds.
fn are_within(cells: &[Cell], valuation: &[i64]) -> bool
    ensures { result ≡ is_within cells.now (take (length cells.now) valuation.now) }
{
    cells.len() <= valuation.len() && all_allow(cells, valuation)
}

// Makes each mark the point of the number beside it.
fn place_points(marks: &mut [Mark], numbers: &[i64])
    requires { length marks.old ≤ length numbers.now }
    ensures { marks.new ≡ map (λ n. between n n) (take (length marks.old) numbers.now) }
{
    // By places: of two slices that are walked at once and one of them written, a proof would have nothing of what was written.
    for place in 0..marks.len() {
        let number = numbers[place];
        marks[place] = Mark {
            low: number,
            high: number,
        };
    }
}

// Whether the first numbers of a valuation, one for each cell, falsify a sheet. What the working marks hold then is free; a refusal leaves them as they were.
pub fn replay(
    sheet: &Sheet<'_>,
    valuation: &[i64],
    working: &mut [Mark],
) -> Result<bool, SheetFault>
    ensures replayed { Replayed sheet.now valuation.now (length working.old) result }
    ensures refused { OnErr result (working.new ≡ working.old) }
{
    if working.len() < sheet.marks() {
        return Err(Refusal::Buffer.into());
    }
    if !are_within(sheet.cells(), valuation) {
        return Err(Refusal::Valuation.into());
    }
    let (points, stack) = working.split_at_mut(sheet.cells().len());
    place_points(points, valuation);
    let valued = Valued {
        sheet: *sheet,
        points,
    };
    Ok(valued.is_falsified(stack))
}
