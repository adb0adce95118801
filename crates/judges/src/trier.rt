// Triers: judges that try all numbers of the cells that no part sets.

ghost use Rattle.std.specs.Prelude.{◌≡◌, ◌≤◌, length};
ghost use Rattle.sheets.specs.Judges.{Told};
ghost use Rattle.sheets.specs.Places.{cells_in, marks_for, says};
ghost use Rattle.judges.specs.Tries.{Settles, trier};
ghost use Rattle.judges.specs.Trying.{trier_sound};

use super::ranges::{are_few, set_ranges};
use super::tries::{find, start};
use reckoning::mark::Mark;
use sheets::judge::{Answer, Judge, has_room};
use sheets::sheet::Sheet;

// It proposes the first valuation that falsifies a sheet, the lowest cell slowest, and passes a sheet if there is none. Of more than 65,536 it makes none, and is unsure.
#[derive(Clone, Copy, Debug, Default, PartialEq, Eq)]
pub struct Trier;

// Leaves a proposal in the valuation, else 0 for each cell.
fn settle(sheet: &Sheet<'_>, valuation: &mut [i64], working: &mut [Mark]) -> Answer
    requires numbers { length valuation.old ≡ length (cells_in sheet.now) }
    requires marks { marks_for sheet.now ≤ length working.old }
    ensures { Told (length (cells_in sheet.now)) (trier (says sheet.now)) result valuation.new }
{
    let (ranges, stack) = working.split_at_mut(sheet.cells().len());
    set_ranges(sheet, ranges);
    if !are_few(ranges) {
        valuation.fill(0);
        return Answer::Unsure;
    }
    start(sheet.cells(), valuation);
    if find(sheet, ranges, valuation, stack) {
        return Answer::Fail;
    }
    valuation.fill(0);
    Answer::Pass
}

impl Judge for Trier {
    ghost meaning = { λ _ c. trier c };

    ghost sound = { λ _. trier_sound };

    fn ask(&mut self, sheet: &Sheet<'_>, valuation: &mut [i64], working: &mut [Mark]) -> Answer {
        if !has_room(sheet, valuation, working) {
            return Answer::Unsure;
        }
        settle(sheet, &mut valuation[..sheet.cells().len()], working)
    }
}

// What any trier means. It is sure exactly if the cells that no part sets and some row mentions have no more than 65,536 choices of a number for each; and then the list of its tries is no longer than that, in which a try that a set cell ends counts, too. Then it passes exactly the sheets that no valuation falsifies, and of those that falsify it proposes the one that comes soonest (docs/JUDGES.md).
pub fn trier_stands(trier: &Trier)
    ensures { Settles (⟦<Trier as Judge>⟧.meaning trier.now) }
{}
