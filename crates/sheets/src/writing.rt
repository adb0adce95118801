// Writing: the sheet of a path in lent buffers.

ghost use Rattle.std.specs.Prelude.{◌≡◌, ◌≤◌, Decides, IfOk};
ghost use Rattle.checking.specs.CheckedUnits.{said};
ghost use Rattle.sheets.specs.Layouts.{SheetsLaidOut};
ghost use Rattle.sheets.specs.Matches.{Matches, SheetsKeep};
ghost use Rattle.sheets.specs.Drafts.{Drafts, Measures, WritesSheet};
ghost use Rattle.sheets.specs.Settling.{condition};
ghost use Rattle.sheets.specs.Standing.{StandsFor};

use super::cell::{Cell, CellRow};
use super::fault::SheetFault;
use super::part::Part;
use super::writer::Writer;
use checking::unit::CheckedUnit;
use jcode::refusal::Refusal;

// How long the buffers of a sheet have to be.
#[derive(Clone, Copy, Debug, Default, PartialEq, Eq)]
pub struct Lengths {
    pub rows: usize,
    pub parts: usize,
    pub cells: usize,
}

impl Lengths {
    // Whether buffers of these lengths have room.
    pub(super) fn fit(self, rows: usize, parts: usize, cells: usize) -> bool
        ensures { Decides result ((self.rows ≤ rows) × (self.parts ≤ parts) × (self.cells ≤ cells)) }
    {
        self.rows <= rows && self.parts <= parts && self.cells <= cells
    }
}

// Writes the sheet of a path as far as there is room, and tells how long it is; `None` where there is no such path.
pub(super) fn draft(
    unit: &CheckedUnit<'_>,
    number: usize,
    rows: &mut [CellRow],
    parts: &mut [Part],
    cells: &mut [Cell],
) -> Option<Lengths>
    ensures { Drafts (said unit.now) number rows.old parts.old cells.old result rows.new parts.new cells.new }
{
    let first = unit.path(number)?;
    let mut writer = Writer::start(unit, rows, parts, cells);
    writer.along(unit, first);
    Some(writer.written)
}

// How long the sheet of a path is.
pub fn measure(unit: &CheckedUnit<'_>, number: usize) -> Result<Lengths, SheetFault>
    ensures { Measures (said unit.now) number result }
{
    draft(unit, number, &mut [], &mut [], &mut []).ok_or(Refusal::Condition.into())
}

// Writes the sheet of a path, if there is room for all of it.
fn whole(
    unit: &CheckedUnit<'_>,
    number: usize,
    rows: &mut [CellRow],
    parts: &mut [Part],
    cells: &mut [Cell],
) -> Result<Lengths, SheetFault>
    ensures { WritesSheet (said unit.now) number rows.old parts.old cells.old result rows.new parts.new cells.new }
{
    let needed = measure(unit, number)?;
    if !needed.fit(rows.len(), parts.len(), cells.len()) {
        return Err(Refusal::Buffer.into());
    }
    draft(unit, number, rows, parts, cells).ok_or(Refusal::Condition.into())
}

// Writes the sheet of a path to the front of the buffers, and tells how long it is. What it wrote fills the place of a sheet, which then says the path's condition. The sheets of a checked unit keep the rules of sheets, say what its runs do, and are laid out statement by statement.
pub fn write(
    unit: &CheckedUnit<'_>,
    number: usize,
    rows: &mut [CellRow],
    parts: &mut [Part],
    cells: &mut [Cell],
) -> Result<Lengths, SheetFault>
    ensures writes { WritesSheet (said unit.now) number rows.old parts.old cells.old result rows.new parts.new cells.new }
    ensures fills { IfOk result (λ n. StandsFor (condition (said unit.now) number) n rows.new parts.new cells.new) }
    ensures keep { SheetsKeep (said unit.now) }
    ensures runs { Matches (said unit.now) }
    ensures laid { SheetsLaidOut (said unit.now) }
{
    whole(unit, number, rows, parts, cells)
}
