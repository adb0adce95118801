// Sheets: the place of a sheet, which says the condition of one path.

ghost use Rattle.std.specs.Prelude.{◌≡◌, true, length, Some};
ghost use Rattle.sheets.specs.Sheets.{condition_of};
ghost use Rattle.sheets.specs.Tables.{fills, keeps};

use super::cell::{Cell, CellRow};
use super::fault::SheetFault;
use super::part::Part;
use super::setting::first_cell;
use super::tables::Tables;
use jcode::refusal::Refusal;
use terms::operator::Operator;
use terms::row::Row;

static FALSE: [CellRow; 1] = [Row::Operator(Operator::False)];

static WHOLE: [Part; 1] = [Part { first: 0, rows: 1 }];

// Rows, the parts that they write, and the cells that they mention. Who gets one asks nothing of who gave it: every sheet keeps the rules.
#[derive(Clone, Copy, Debug, PartialEq, Eq)]
pub struct Sheet<'a> {
    tables: Tables<'a>,
    ghost filled: { fills (length tables.rows.now) (Some 0) tables.parts.now ≡ true },
    ghost kept: { keeps (condition_of tables.rows.now tables.parts.now tables.cells.now) ≡ true },
}

impl<'a> Sheet<'a> {
    ghost use Rattle.sheets.specs.Places.{rows_in, parts_in, cells_in, says, marks_for, false_alone, Filled};
    ghost use Rattle.sheets.specs.Tables.{IsSheet};
    ghost use Rattle.sheets.specs.Sheets.{Keeps, fills_from, part, is_some_of, set_by, cell_set};

    // `false!` alone, until tables fill it.
    pub fn unfilled() -> Sheet<'a>
        ensures { says result ≡ false_alone }
    {
        let tables = Tables {
            rows: &FALSE,
            parts: &WHOLE,
            cells: &[],
        };
        Sheet { tables }
    }

    // Takes tables that keep the rules. Others are refused, and it stays as it was.
    pub fn fill(
        &mut self,
        rows: &'a [CellRow],
        parts: &'a [Part],
        cells: &'a [Cell],
    ) -> Result<(), SheetFault>
        ensures { Filled rows.now parts.now cells.now result self.old self.new }
    {
        let tables = Tables { rows, parts, cells };
        if !tables.keep_rules() {
            return Err(Refusal::Tables.into());
        }
        *self = Sheet { tables };
        Ok(())
    }

    // Of tables that are known to keep the rules.
    pub(super) fn of(rows: &'a [CellRow], parts: &'a [Part], cells: &'a [Cell]) -> Sheet<'a>
        requires { IsSheet rows.now parts.now cells.now }
        ensures rows { rows_in result ≡ rows.now }
        ensures parts { parts_in result ≡ parts.now }
        ensures cells { cells_in result ≡ cells.now }
    {
        Sheet {
            tables: Tables { rows, parts, cells },
        }
    }

    // Every sheet keeps the rules, whoever filled it (docs/CONDITIONS.md).
    pub fn rules_stand(&self)
        ensures filled { fills_from (length (rows_in self.now)) 0 (parts_in self.now) }
        ensures kept { Keeps (says self.now) }
    {}

    pub fn rows(&self) -> &'a [CellRow]
        ensures { result.now ≡ rows_in self.now }
    {
        self.tables.rows
    }

    pub fn parts(&self) -> &'a [Part]
        ensures { result.now ≡ parts_in self.now }
    {
        self.tables.parts
    }

    pub fn cells(&self) -> &'a [Cell]
        ensures { result.now ≡ cells_in self.now }
    {
        self.tables.cells
    }

    // How many working marks those who work with it are lent: one for each cell and each row.
    pub fn marks(&self) -> usize
        ensures { result ≡ marks_for self.now }
    {
        self.cells().len() + self.rows().len()
    }

    // The rows of a part, none past the last.
    pub fn part(&self, place: usize) -> &'a [CellRow]
        ensures { result.now ≡ part (says self.now) place }
    {
        self.tables.part(place)
    }

    // Whether the cell is said to be set by the part.
    fn is_set_by(&self, cell: usize, place: usize) -> bool
        ensures { result ≡ is_some_of place (set_by (cells_in self.now) cell) }
    {
        self.cells().get(cell).and_then(|cell| cell.set_by) == Some(place)
    }

    // The cell that a part sets: the one that it begins with `equal!` of, if that is said to be set by it.
    pub fn cell_set_by(&self, place: usize) -> Option<usize>
        ensures { result ≡ cell_set (says self.now) place }
    {
        let cell = first_cell(self.part(place))?;
        self.is_set_by(cell, place).then_some(cell)
    }
}
