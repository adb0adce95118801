// Parts: the terms of a sheet, each by where its rows stand in the sheet's rows.

ghost use Rattle.std.specs.Prelude.{◌≡◌};
ghost use Rattle.sheets.specs.Sheets.{part_in};

use super::cell::CellRow;
use terms::part::part;

#[derive(Clone, Copy, Debug, Default, PartialEq, Eq)]
pub struct Part {
    pub first: usize,
    pub rows: usize,
}

impl Part {
    // Its rows, as far as there are such.
    pub fn of(self, rows: &[CellRow]) -> &[CellRow]
        ensures { result.now ≡ part_in rows.now self }
    {
        part(rows, self.first, self.rows)
    }
}
