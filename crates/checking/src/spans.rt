// Spans: whether the terms of each statement stay in the span, with every variable at its type's bounds.

ghost use Rattle.std.specs.Prelude.{◌≡◌};
ghost use Rattle.jcode.specs.Units.{sentence_in};
ghost use Rattle.checking.specs.Rules.{span_kept};
ghost use Rattle.checking.specs.Types.{domains_in};

use super::term_table::{Room, TermTable};
use jcode::statement::Statement;
use reckoning::mark::Mark;

impl TermTable<'_> {
    // By its own match: a list of a statement's terms would serve this rule alone, as the others ask unlike things of them, or of what stands beside them.
    pub(super) fn span_kept(&self, statement: Statement, room: &mut Room<Mark>) -> bool
        ensures { result ≡ span_kept (domains_in self.now.types.variables.now) (sentence_in self.now.rows.now statement) }
    {
        match statement {
            Statement::Require { condition, .. }
            | Statement::Proclaim { condition }
            | Statement::New { condition, .. }
            | Statement::When { condition, .. } => self.stays_in_span(condition, room),
            Statement::Assign { shadow, value, .. } => {
                self.stays_in_span(shadow, room) && self.stays_in_span(value, room)
            }
            _ => true,
        }
    }
}
