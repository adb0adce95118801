// The layout of the row table: the terms of all statements stand one after another, and fill it.

ghost use Rattle.std.specs.Prelude.{◌≡◌, length, Some};
ghost use Rattle.checking.specs.Layouts.{after_term, padded, after_statement, fills_from};

use super::tables::UnitTables;
use jcode::statement::{LIST_LIMIT, Listing, Statement, Term};

// The place after a term, if it stands at this place of a table with so many rows.
fn after_term(total: usize, used: usize, term: Term) -> Option<usize>
    ensures { result ≡ after_term total used term }
{
    used.checked_add(term.rows)
        .filter(|&next| term.first == used && next <= total)
}

// Whether only zeros stand past the count.
fn is_padded(listing: Listing) -> bool
    ensures { result ≡ padded listing }
{
    listing.count <= LIST_LIMIT
        && listing
            .variables
            .iter()
            .skip(listing.count)
            .all(|&v| v == 0)
}

// The place after a statement's terms, if they stand at this place. By its own match: NEW asks for its list's padding too, of which a list of terms tells nothing.
fn after_statement(total: usize, used: usize, statement: Statement) -> Option<usize>
    ensures { result ≡ after_statement total used statement }
{
    match statement {
        Statement::Require { condition, .. }
        | Statement::Proclaim { condition }
        | Statement::When { condition, .. } => after_term(total, used, condition),
        Statement::New {
            listing,
            condition,
            ..
        } => after_term(total, used, condition).filter(|_| is_padded(listing)),
        Statement::Assign { shadow, value, .. } => {
            after_term(total, after_term(total, used, shadow)?, value)
        }
        _ => Some(used),
    }
}

impl UnitTables<'_> {
    // Whether the statements' terms stand one after another and fill the row table.
    pub(super) fn are_filled(&self) -> bool
        ensures { result ≡ fills_from (length self.now.rows.now) (Some 0) self.now.statements.now }
    {
        let total = self.rows.len();
        // By a `for`: a proof has lemmas for what `fold` gives and none for `try_fold`, and a `fold` would go on past a statement that fails.
        let mut used = 0;
        for statement in self.statements {
            let Some(next) = after_statement(total, used, *statement) else {
                return false;
            };
            used = next;
        }
        used == total
    }
}
