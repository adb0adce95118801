// Statements that keep the rules of reading.

ghost use Rattle.std.specs.Prelude.{◌≡◌, length};
ghost use Rattle.jcode.specs.Units.{term_in, sentence_in};
ghost use Rattle.checking.specs.Pieces.{is_term};
ghost use Rattle.checking.specs.Sentences.{keeps};

use super::pieces::{are_known, is_label, is_list, is_text};
use super::term::term_rows;
use super::term_table::{Room, TermTable};
use jcode::statement::{Statement, Term};

impl TermTable<'_> {
    // Whether a term's rows write one, where NEW lists these variables.
    fn is_term(&self, listed: &[usize], term: Term, room: &mut Room<Option<usize>>) -> bool
        ensures { result ≡ is_term (length self.now.types.variables.now) listed.now (term_in self.now.rows.now term) }
    {
        self.is_complete(term, room)
            && are_known(
                self.types.variables.len(),
                listed,
                term_rows(self.rows, term),
            )
    }

    // Whether the statement's texts, labels, lists and terms keep their rules. By its own match: no two arms ask for the same pieces.
    pub(super) fn keeps(
        &self,
        bytes: &[u8],
        statement: Statement,
        room: &mut Room<Option<usize>>,
    ) -> bool
        ensures { result ≡ keeps bytes.now (length self.now.types.variables.now) (sentence_in self.now.rows.now statement) }
    {
        let count = self.types.variables.len();
        match statement {
            Statement::Hang => true,
            Statement::Break { text } => is_text(bytes, text),
            Statement::Require { condition, text } => {
                self.is_term(&[], condition, room) && is_text(bytes, text)
            }
            Statement::Proclaim { condition } => self.is_term(&[], condition, room),
            Statement::New {
                listing,
                condition,
                text,
            } => {
                is_list(count, listing.listed())
                    && self.is_term(listing.listed(), condition, room)
                    && is_text(bytes, text)
            }
            Statement::Assign {
                variable,
                shadow,
                value,
            } => {
                variable < count
                    && self.is_term(&[], shadow, room)
                    && self.is_term(&[], value, room)
            }
            Statement::Split { label } | Statement::Join { label } => is_label(label),
            Statement::When { condition, label } => {
                self.is_term(&[], condition, room) && is_label(label)
            }
            Statement::Branch { text, label } => is_text(bytes, text) && is_label(label),
        }
    }
}
