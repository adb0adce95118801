// Kinds: whether the terms of each statement are of the kinds that it asks for.

ghost use Rattle.std.specs.Prelude.{◌≡◌};
ghost use Rattle.jcode.specs.Units.{term_in, sentence_in};
ghost use Rattle.checking.specs.Rules.{is_truth, is_like, kinds_kept};
ghost use Rattle.checking.specs.Types.{domains_in};

use super::term_table::{Room, TermTable};
use super::types::domain_kind;
use jcode::statement::{Statement, Term};
use terms::kind::Kind;

impl TermTable<'_> {
    fn is_truth(&self, term: Term, room: &mut Room<Option<Kind>>) -> bool
        ensures { result ≡ is_truth (domains_in self.now.types.variables.now) (term_in self.now.rows.now term) }
    {
        self.kind(term, room) == Some(Kind::Truth)
    }

    // Whether a term has the kind of a variable.
    fn is_like(&self, variable: usize, term: Term, room: &mut Room<Option<Kind>>) -> bool
        ensures { result ≡ is_like (domains_in self.now.types.variables.now) variable (term_in self.now.rows.now term) }
    {
        let kind = self.kind(term, room);
        self.types
            .domain(variable)
            .is_some_and(|domain| kind == Some(domain_kind(domain)))
    }

    // By its own match: a list of a statement's terms would not tell a value, whose kind is its variable's.
    pub(super) fn kinds_kept(&self, statement: Statement, room: &mut Room<Option<Kind>>) -> bool
        ensures { result ≡ kinds_kept (domains_in self.now.types.variables.now) (sentence_in self.now.rows.now statement) }
    {
        match statement {
            Statement::Require { condition, .. }
            | Statement::Proclaim { condition }
            | Statement::New { condition, .. }
            | Statement::When { condition, .. } => self.is_truth(condition, room),
            Statement::Assign {
                variable,
                shadow,
                value,
            } => self.is_truth(shadow, room) && self.is_like(variable, value, room),
            _ => true,
        }
    }
}
