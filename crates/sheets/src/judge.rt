// Judges: who settles conditions, each a decision procedure that is relied on by one law alone.

ghost use Rattle.std.specs.Prelude.{◌≡◌, min, length, take, drop, replicate, pos};
ghost use Rattle.sheets.specs.Judges.{Opinion, Sound, Replied, has_room};
ghost use Rattle.sheets.specs.Places.{cells_in, says, marks_for};
ghost use Rattle.sheets.specs.Sheets.{Condition};

use super::sheet::Sheet;
use reckoning::mark::Mark;

// What a judge answers; where it fails a sheet, the valuation that it proposes stands in the buffer that it was lent.
#[derive(Clone, Copy, Debug, PartialEq, Eq)]
pub enum Answer {
    Pass,
    Fail,
    Unsure,
}

pub trait Judge {
    // What it answers to each sheet, the same however often it is asked.
    ghost meaning: { Self → Condition → Opinion };

    // After `Fail` the valuation begins with the proposal, else with 0 for each cell. With fewer numbers than cells, or fewer working marks than cells and rows, the answer is `Unsure` and neither is touched.
    fn ask(&mut self, sheet: &Sheet<'_>, valuation: &mut [i64], working: &mut [Mark]) -> Answer
        ensures same { meaning self.new ≡ meaning self.old }
        ensures replied { Replied (meaning self.old (says sheet.now)) (length (cells_in sheet.now)) (marks_for sheet.now) valuation.old working.old result valuation.new working.new };

    // All that a new judge owes: it passes only what no valuation falsifies.
    ghost sound: { (s : Self) → Sound (meaning s) };
}

// Whether buffers have room for a judge to work with a sheet.
pub fn has_room(sheet: &Sheet<'_>, valuation: &[i64], working: &[Mark]) -> bool
    ensures { result ≡ has_room (length (cells_in sheet.now)) (marks_for sheet.now) valuation.now working.now }
{
    sheet.cells().len() <= valuation.len() && sheet.marks() <= working.len()
}

// Begins a valuation with so many zeros, as far as it goes.
pub fn clear(valuation: &mut [i64], cells: usize)
    ensures cleared { take cells valuation.new ≡ replicate (min cells (length valuation.old)) (pos 0) }
    ensures rest { drop cells valuation.new ≡ drop cells valuation.old }
{
    for place in 0..cells.min(valuation.len()) {
        valuation[place] = 0;
    }
}
