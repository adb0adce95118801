// Settling: one condition written, put to a judge, and what the judge proposes replayed.

ghost use Rattle.std.specs.Prelude.{◌≡◌, ◌≤◌, ◌+◌, Decides, OnErr, true, length, take, drop};
ghost use Rattle.checking.specs.CheckedUnits.{said};
ghost use Rattle.sheets.specs.Judges.{has_room};
ghost use Rattle.sheets.specs.Places.{rows_in, parts_in, cells_in, says, marks_for};
ghost use Rattle.sheets.specs.Settling.{Settles, SettlesAt, held, on};
ghost use Rattle.sheets.specs.Standing.{Stands};

use super::cell::{Cell, CellRow};
use super::desk::Desk;
use super::fault::SheetFault;
use super::judge::{Answer, Judge, clear};
use super::outcome::Outcome;
use super::part::Part;
use super::replay::replay;
use super::sheet::Sheet;
use super::writing::{Lengths, draft, measure};
use checking::unit::CheckedUnit;
use jcode::refusal::Refusal;
use reckoning::mark::Mark;

// As what a judge's answer settles a sheet: what it proposes is replayed, and set to 0 where it falsifies nothing.
fn judged<J: Judge>(
    sheet: &Sheet<'_>,
    judge: &mut J,
    valuation: &mut [i64],
    working: &mut [Mark],
) -> Outcome
    requires { has_room (length (cells_in sheet.now)) (marks_for sheet.now) valuation.old working.old ≡ true }
    ensures same { J.meaning judge.new ≡ J.meaning judge.old }
    ensures settles { Settles (says sheet.now) (J.meaning judge.old (says sheet.now)) result (take (length (cells_in sheet.now)) valuation.new) }
    ensures rest { drop (length (cells_in sheet.now)) valuation.new ≡ drop (length (cells_in sheet.now)) valuation.old }
    ensures working { length working.new ≡ length working.old }
{
    match judge.ask(sheet, valuation, working) {
        Answer::Pass => Outcome::Passed,
        Answer::Unsure => Outcome::Open,
        Answer::Fail => {
            if let Ok(true) = replay(sheet, valuation, working) {
                return Outcome::Failed;
            }
            clear(valuation, sheet.cells().len());
            Outcome::Open
        }
    }
}

// The sheet at the front of buffers.
fn sheet_in<'a>(
    lengths: Lengths,
    rows: &'a [CellRow],
    parts: &'a [Part],
    cells: &'a [Cell],
) -> Sheet<'a>
    requires { Stands lengths rows.now parts.now cells.now }
    ensures rows { rows_in result ≡ take lengths.rows rows.now }
    ensures parts { parts_in result ≡ take lengths.parts parts.now }
    ensures cells { cells_in result ≡ take lengths.cells cells.now }
{
    Sheet::of(
        &rows[..lengths.rows],
        &parts[..lengths.parts],
        &cells[..lengths.cells],
    )
}

impl Lengths {
    // Whether there is room for the numbers of a valuation and for the working marks.
    fn leave(self, numbers: usize, marks: usize) -> bool
        ensures { Decides result ((self.cells ≤ numbers) × (self.cells + self.rows ≤ marks)) }
    {
        let needed = self.cells.checked_add(self.rows);
        self.cells <= numbers && needed.is_some_and(|needed| needed <= marks)
    }
}

// Settles the condition of a path in these buffers.
fn settle_in<J: Judge>(
    unit: &CheckedUnit<'_>,
    number: usize,
    judge: &mut J,
    rows: &mut [CellRow],
    parts: &mut [Part],
    cells: &mut [Cell],
    valuation: &mut [i64],
    working: &mut [Mark],
) -> Result<Outcome, SheetFault>
    ensures same { J.meaning judge.new ≡ J.meaning judge.old }
    ensures refused { OnErr result (judge.new ≡ judge.old) }
    ensures settles { SettlesAt (said unit.now) number (J.meaning judge.old) (held rows.old parts.old cells.old valuation.old working.old) result (held rows.new parts.new cells.new valuation.new working.new) }
{
    let needed = measure(unit, number)?;
    if !needed.fit(rows.len(), parts.len(), cells.len())
        || !needed.leave(valuation.len(), working.len())
    {
        return Err(Refusal::Buffer.into());
    }
    draft(unit, number, rows, parts, cells);
    let sheet = sheet_in(needed, rows, parts, cells);
    Ok(judged(&sheet, judge, valuation, working))
}

// Settles the condition of a path by a judge, on a desk. It is refused by 13 past the last path, and else by 16 where a buffer is short, and then leaves desk and judge as they were (docs/CONDITIONS.md).
pub fn settle<J: Judge>(
    unit: &CheckedUnit<'_>,
    number: usize,
    judge: &mut J,
    desk: &mut Desk<'_>,
) -> Result<Outcome, SheetFault>
    ensures same { J.meaning judge.new ≡ J.meaning judge.old }
    ensures refused { OnErr result (judge.new ≡ judge.old) }
    ensures lent_rows { desk.new.rows.ghost_name ≡ desk.old.rows.ghost_name }
    ensures lent_parts { desk.new.parts.ghost_name ≡ desk.old.parts.ghost_name }
    ensures lent_cells { desk.new.cells.ghost_name ≡ desk.old.cells.ghost_name }
    ensures lent_valuation { desk.new.valuation.ghost_name ≡ desk.old.valuation.ghost_name }
    ensures lent_working { desk.new.working.ghost_name ≡ desk.old.working.ghost_name }
    ensures settles { SettlesAt (said unit.now) number (J.meaning judge.old) (on desk.old) result (on desk.new) }
{
    settle_in(
        unit,
        number,
        judge,
        desk.rows,
        desk.parts,
        desk.cells,
        desk.valuation,
        desk.working,
    )
}
