// The terms of a unit, each worked out in a room that is lent.

ghost use Rattle.std.specs.Prelude.{◌≡◌, ◌≤◌, length};
ghost use Rattle.jcode.specs.ReadStatements.{nesting};
ghost use Rattle.jcode.specs.Units.{term_in};
ghost use Rattle.reckoning.specs.Kinds.{kind_of};
ghost use Rattle.jcode.specs.declared.mention.TheConstants.{ROW_LIMIT};
ghost use Rattle.checking.specs.Nesting.{writes_term};
ghost use Rattle.checking.specs.Rules.{stays_in};
ghost use Rattle.checking.specs.Types.{domains_in, mention_kind};

use super::kinding::kind_of;
use super::nesting::writes_term;
use super::term::term_rows;
use super::types::Types;
use jcode::mention::{ROW_LIMIT, UnitRow};
use jcode::statement::{NESTING_LIMIT, Term};
use reckoning::mark::Mark;
use reckoning::spanning::stays_in_span;
use terms::kind::Kind;

// The row table that the terms stand in, and the types of what they mention.
#[derive(Clone, Copy, Debug, PartialEq, Eq)]
pub(super) struct TermTable<'a> {
    pub(super) types: Types<'a>,
    pub(super) rows: &'a [UnitRow],
    ghost few: { length rows.now ≤ ROW_LIMIT },
}

// An entry for each row of a term; an array, so that no test can fail for want of memory.
pub(super) type Room<X> = [X; ROW_LIMIT];

impl TermTable<'_> {
    pub(super) fn kind(&self, term: Term, room: &mut Room<Option<Kind>>) -> Option<Kind>
        ensures { result ≡ kind_of (mention_kind (domains_in self.now.types.variables.now)) (term_in self.now.rows.now term) }
    {
        kind_of(&self.types, term_rows(self.rows, term), room)
    }

    pub(super) fn stays_in_span(&self, term: Term, room: &mut Room<Mark>) -> bool
        ensures { result ≡ stays_in (domains_in self.now.types.variables.now) (term_in self.now.rows.now term) }
    {
        stays_in_span(&self.types, term_rows(self.rows, term), room)
    }

    // Whether the rows write one term, and it nests no deeper than it may.
    pub(super) fn is_complete(&self, term: Term, room: &mut Room<Option<usize>>) -> bool
        ensures { result ≡ writes_term nesting (term_in self.now.rows.now term) }
    {
        writes_term(NESTING_LIMIT, term_rows(self.rows, term), room)
    }
}
