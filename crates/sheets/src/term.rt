// Terms of a sheet: the tests of a part, each worked out in a room of its own, so that tables of any length are tested with none lent.

ghost use Rattle.std.specs.Prelude.{◌≡◌, true};
ghost use Rattle.checking.specs.Nesting.{writes_term};
ghost use Rattle.reckoning.specs.Spanning.{ranged_rows};
ghost use Rattle.sheets.specs.Sheets.{cell_bounds, is_true_term};
ghost use Rattle.sheets.specs.Tables.{is_part};

use super::cell::{CellRow, CellTypes};
use checking::kinding::kind_of;
use checking::nesting::writes_term;
use reckoning::mark::ANY;
use reckoning::spanning::are_ranged;
use terms::kind::Kind;

const NESTING_LIMIT: usize = 33;

// As many entries as it takes to read a term of such a nesting: two for each level.
const ENTRIES: usize = 66;

fn is_complete(rows: &[CellRow]) -> bool
    ensures { result ≡ writes_term 33 rows.now }
{
    let mut depths = [None; ENTRIES];
    writes_term(NESTING_LIMIT, rows, &mut depths)
}

impl CellTypes<'_> {
    fn is_truth(&self, rows: &[CellRow]) -> bool
        requires { writes_term 33 rows.now ≡ true }
        ensures { result ≡ is_true_term self.now.cells.now rows.now }
    {
        let mut kinds = [None; ENTRIES];
        kind_of(self, rows, &mut kinds) == Some(Kind::Truth)
    }

    fn is_ranged(&self, rows: &[CellRow]) -> bool
        requires { writes_term 33 rows.now ≡ true }
        ensures { result ≡ ranged_rows (cell_bounds self.now.cells.now) rows.now }
    {
        let mut marks = [ANY; ENTRIES];
        are_ranged(self, rows, &mut marks)
    }

    // Whether the rows keep the rules of a part.
    pub(super) fn is_part(&self, rows: &[CellRow]) -> bool
        ensures { result ≡ is_part self.now.cells.now rows.now }
    {
        is_complete(rows) && self.is_truth(rows) && self.is_ranged(rows)
    }
}
