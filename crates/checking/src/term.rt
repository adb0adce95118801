// Terms in the row table.

ghost use Rattle.std.specs.Prelude.{◌≡◌};
ghost use Rattle.jcode.specs.Units.{term_in};

use jcode::mention::UnitRow;
use jcode::statement::Term;
use terms::part::part;

// The rows of a term, as far as there are such.
pub fn term_rows(rows: &[UnitRow], term: Term) -> &[UnitRow]
    ensures { result.now ≡ term_in rows.now term }
{
    part(rows, term.first, term.rows)
}
