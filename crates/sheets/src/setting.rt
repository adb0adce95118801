// Settings: parts that set a cell, as `equal!` of it and a term over lower cells.

ghost use Rattle.std.specs.Prelude.{◌≡◌};
ghost use Rattle.std.specs.List.{list_all};
ghost use Rattle.sheets.specs.Sheets.{is_below, setting_term};
ghost use Rattle.sheets.specs.Tables.{first_cell, sets};

use super::cell::CellRow;
use terms::operator::Operator;
use terms::row::Row;

// The cell that rows begin with `equal!` of.
pub(super) fn first_cell(rows: &[CellRow]) -> Option<usize>
    ensures { result ≡ first_cell rows.now }
{
    match rows {
        [Row::Operator(Operator::Equal), Row::Mention(cell), ..] => Some(*cell),
        _ => None,
    }
}

// Whether a row mentions only cells below this one.
fn is_below(row: CellRow, cell: usize) -> bool
    ensures { result ≡ is_below cell row }
{
    match row {
        Row::Mention(mention) => mention < cell,
        _ => true,
    }
}

// Whether all rows do.
fn are_below(rows: &[CellRow], cell: usize) -> bool
    ensures { result ≡ list_all (is_below cell) rows.now }
{
    rows.iter().all(|&row| is_below(row, cell))
}

// The term that rows which set a cell set it to.
pub fn setting_term(rows: &[CellRow]) -> &[CellRow]
    ensures { result.now ≡ setting_term rows.now }
{
    &rows[rows.len().min(2)..]
}

// Whether rows set this cell.
pub(super) fn sets(rows: &[CellRow], cell: usize) -> bool
    ensures { result ≡ sets cell rows.now }
{
    first_cell(rows) == Some(cell) && are_below(setting_term(rows), cell)
}
