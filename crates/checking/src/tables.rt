// Tables that keep the rules of reading.

ghost use Rattle.std.specs.Prelude.{◌≡◌, ◌≤◌, Bool, not, length, position};
ghost use Rattle.std.specs.List.{list_all};
ghost use Rattle.jcode.specs.declared.statement.Statement.{Statement};
ghost use Rattle.jcode.specs.declared.mention.TheConstants.{ROW_LIMIT};
ghost use Rattle.checking.specs.Held.{held};
ghost use Rattle.checking.specs.Pieces.{is_declaration, same_name};
ghost use Rattle.checking.specs.Tests.{apart};
ghost use Rattle.checking.specs.Readable.{few_enough, well_named, well_laid, readable};

use super::apart::are_apart;
use super::pieces::{is_declaration, is_name};
use super::term_table::{Room, TermTable};
use super::types::Types;
use jcode::mention::{ROW_LIMIT, UnitRow};
use jcode::span::Span;
use jcode::statement::{STATEMENT_LIMIT, Statement};
use jcode::variable::{VARIABLE_LIMIT, Variable};
use terms::word::same_word;

// The tables of a unit, with its name and the bytes that both speak of.
#[derive(Clone, Copy, Debug, PartialEq, Eq)]
pub(super) struct UnitTables<'a> {
    pub(super) bytes: &'a [u8],
    pub(super) name: Span,
    pub(super) variables: &'a [Variable],
    pub(super) statements: &'a [Statement],
    pub(super) rows: &'a [UnitRow],
}

impl UnitTables<'_> {
    fn are_few(&self) -> bool
        ensures { result ≡ few_enough (held self.now) }
    {
        self.variables.len() <= VARIABLE_LIMIT
            && self.statements.len() <= STATEMENT_LIMIT
            && self.rows.len() <= ROW_LIMIT
    }

    // Whether each variable keeps the rules of a declaration.
    fn are_declared(&self) -> bool
        ensures { result ≡ list_all (is_declaration self.now.bytes.now) self.now.variables.now }
    {
        self.variables
            .iter()
            .all(|&v| is_declaration(self.bytes, v))
    }

    // Whether no two variables have one name.
    fn have_own_names(&self) -> bool
        ensures { result ≡ apart (same_name self.now.bytes.now) self.now.variables.now }
    {
        are_apart(self.variables, |v, w| {
            same_word(v.name.of(self.bytes), w.name.of(self.bytes))
        })
    }

    fn are_well_named(&self) -> bool
        ensures { result ≡ well_named self.now.bytes.now self.now.name (held self.now) }
    {
        is_name(self.bytes, self.name) && self.are_declared() && self.have_own_names()
    }

    // The lowest statement that fails a test, for which its terms are worked out in a room.
    pub(super) fn lowest_failing<X: Copy, F: Fn(Statement, &mut Room<X>) -> bool>(
        &self,
        blank: X,
        passes: F,
    ) -> Option<usize>
        requires { F.IsAlwaysCallable passes }
        ensures { (p : Statement → Bool) → ((s : _) (r : _) (b : _) (t : _) → F.post passes s r b t → b ≡ p s) → result ≡ position (λ s. not (p s)) self.now.statements.now }
    {
        // An array, so that no test can fail for want of memory.
        let mut room = [blank; ROW_LIMIT];
        // By a `for`: the tests change the room, and a chain whose closure changes what it captures leaves a proof nothing of its answers.
        for (place, statement) in self.statements.iter().enumerate() {
            if !passes(*statement, &mut room) {
                return Some(place);
            }
        }
        None
    }

    fn are_well_laid(&self) -> bool
        requires { length self.now.rows.now ≤ ROW_LIMIT }
        ensures { result ≡ well_laid self.now.bytes.now (held self.now) }
    {
        let terms = self.terms();
        self.are_filled()
            && self
                .lowest_failing(None, |s, room| terms.keeps(self.bytes, s, room))
                .is_none()
    }

    // Whether they keep the rules of reading.
    pub(super) fn are_readable(&self) -> bool
        ensures { result ≡ readable self.now.bytes.now self.now.name (held self.now) }
    {
        self.are_few() && self.are_well_named() && self.are_well_laid()
    }

    pub(super) fn terms(&self) -> TermTable<'_>
        requires { length self.now.rows.now ≤ ROW_LIMIT }
        ensures types { result.types.variables.now ≡ self.now.variables.now }
        ensures rows { result.rows.now ≡ self.now.rows.now }
    {
        TermTable {
            types: Types {
                variables: self.variables,
            },
            rows: self.rows,
        }
    }
}
