// Passes: what a reckoning finds of a sheet, part by part.

ghost use Rattle.std.specs.Prelude.{◌≡◌, ◌<◌, ◌≤◌, length, map, Some};
ghost use Rattle.sheets.specs.Places.{cells_in, rows_in, says};
ghost use Rattle.judges.specs.Passes.{bounds_mark, marked, after_part, Left, by_goal, answer_of, pass as passes, pass_from, PartByPart};
ghost use Rattle.judges.specs.Passing.{pass_sound};

use reckoning::decision::Decision;
use reckoning::evaluation::evaluate;
use reckoning::mark::Mark;
use reckoning::mentions::Cells;
use reckoning::reckoning::Reckoning;
use sheets::cell::{Cell, CellRow};
use sheets::judge::{Answer, Judge, clear, has_room};
use sheets::setting::setting_term;
use sheets::sheet::Sheet;

// It goes once over the parts of a sheet, with a mark for each cell. 'No' of a part that is to be true means that no valuation falsifies the sheet.
#[derive(Debug, Drop, PartialEq, Eq)]
pub struct Pass<R> {
    pub reckoning: R,
}

impl<R: Reckoning> Pass<R> {
    // Each cell at the mark of its bounds.
    fn start(&self, cells: &[Cell], marks: &mut [Mark])
        requires { length marks.old ≡ length cells.now }
        ensures { marks.new ≡ map (bounds_mark (R.meaning self.now.reckoning)) cells.now }
    {
        for (i, cell) in cells.iter().enumerate() {
            marks[i] = self.reckoning.bounds(cell.low, cell.high);
        }
    }

    fn mark(&self, rows: &[CellRow], marks: &[Mark], stack: &mut [Mark]) -> Mark
        requires { length rows.now ≤ length stack.old }
        ensures { result ≡ marked (R.meaning self.now.reckoning) marks.now rows.now }
    {
        evaluate(&self.reckoning, &Cells { marks }, rows, stack)
    }

    // Narrows a cell by the mark of the term that it is set to.
    fn narrow(
        &self,
        cell: usize,
        rows: &[CellRow],
        marks: &mut [Mark],
        stack: &mut [Mark],
    ) -> Option<()>
        requires cell { cell < length marks.old }
        requires room { length rows.now ≤ length stack.old }
        ensures { Left (after_part (R.meaning self.now.reckoning) (Some cell) rows.now marks.old) result marks.new }
    {
        let mark = self.mark(setting_term(rows), marks, stack);
        marks[cell] = self.reckoning.meet(marks[cell], mark)?;
        Some(())
    }

    fn decide(&self, rows: &[CellRow], marks: &[Mark], stack: &mut [Mark]) -> Decision
        requires { length rows.now ≤ length stack.old }
        ensures { result ≡ (R.meaning self.now.reckoning).decided (marked (R.meaning self.now.reckoning) marks.now rows.now) }
    {
        self.reckoning.decide(self.mark(rows, marks, stack))
    }

    // Takes in a part that is to be true, `None` where nothing is left.
    fn take_in(
        &self,
        set: Option<usize>,
        rows: &[CellRow],
        marks: &mut [Mark],
        stack: &mut [Mark],
    ) -> Option<()>
        requires cell { (i : _) → set ≡ Some i → i < length marks.old }
        requires room { length rows.now ≤ length stack.old }
        ensures { Left (after_part (R.meaning self.now.reckoning) set rows.now marks.old) result marks.new }
    {
        match set {
            Some(cell) => self.narrow(cell, rows, marks, stack),
            None if self.decide(rows, marks, stack) == Decision::No => None,
            None => Some(()),
        }
    }

    // Goes over the parts in their order, the goal last, and leaves at the first 'no'.
    fn settle(&self, sheet: &Sheet<'_>, marks: &mut [Mark], stack: &mut [Mark]) -> Answer
        requires marks { length marks.old ≡ length (cells_in sheet.now) }
        requires room { length (rows_in sheet.now) ≤ length stack.old }
        ensures { result ≡ answer_of (pass_from (R.meaning self.now.reckoning) (says sheet.now) 0 (says sheet.now).parts marks.old) }
    {
        let goal = sheet.parts().len().saturating_sub(1);
        for (place, part) in sheet.parts().iter().enumerate() {
            let rows = part.of(sheet.rows());
            if place == goal {
                return by_decision(self.decide(rows, marks, stack));
            }
            let set = sheet.cell_set_by(place);
            if self.take_in(set, rows, marks, stack).is_none() {
                return Answer::Pass;
            }
        }
        Answer::Unsure
    }
}

fn by_decision(goal: Decision) -> Answer
    ensures { result ≡ answer_of (by_goal goal) }
{
    match goal {
        Decision::Yes => Answer::Pass,
        Decision::No | Decision::Unknown => Answer::Unsure,
    }
}

impl<R: Reckoning> Judge for Pass<R> {
    ghost meaning = { λ s c. passes (R.meaning s.reckoning) c };

    ghost sound = { λ s. pass_sound (R.covers s.reckoning) (R.meaning s.reckoning) (R.lawful s.reckoning) };

    fn ask(&mut self, sheet: &Sheet<'_>, valuation: &mut [i64], working: &mut [Mark]) -> Answer {
        if !has_room(sheet, valuation, working) {
            return Answer::Unsure;
        }
        let cells = sheet.cells().len();
        clear(valuation, cells);
        let (marks, stack) = working.split_at_mut(cells);
        self.start(sheet.cells(), marks);
        self.settle(sheet, marks, stack)
    }
}

// It passes a sheet exactly if, part by part from the marks of the bounds, a meet is nothing, another part but the goal is decided 'no', or the goal 'yes'; it is unsure of every other (docs/JUDGES.md).
pub fn pass_stands<R: Reckoning>(pass: &Pass<R>)
    ensures { PartByPart (R.meaning pass.now.reckoning) (⟦<Pass<R> as Judge>⟧.meaning pass.now) }
{}
