// Reading statements, with their terms into the row table.

ghost use Rattle.std.specs.Prelude.{◌≡◌, ◌<◌, min, length, OnOk, nat_le};
ghost use Rattle.jcode.specs.declared.statement_reader.Verb.TheVariants as verb;
ghost use Rattle.jcode.specs.Pieces.{Reads};
ghost use Rattle.jcode.specs.Scopes.{scope_of, listed_in};
ghost use Rattle.jcode.specs.Sentences.{verb_of};
ghost use Rattle.jcode.specs.Tables.{full_by};
ghost use Rattle.jcode.specs.ReadUnits.{statement_limit, read_sentence, goes_on as goes_on_unit, read_finish, LaysAll};
ghost use Rattle.jcode.specs.ReadStatements.{read_single, read_again, read_repeated, read_target, goes_on, read_unseen, read_more_listed, read_names_listed, read_listed, read_text_end, read_label_end, read_gap_label, read_expression, ReadsTerm, by_verb, Lays};

use super::cursor::Cursor;
use super::mention::UnitRow;
use super::refusal::{ReadFault, Refusal};
use super::scope::{Scope, contains};
use super::span::Span;
use super::statement::{LIST_LIMIT, Listing, NESTING_LIMIT, STATEMENT_LIMIT, Statement, Term};
use super::table::Table;
use terms::word::{Entry, lookup, same_word};

// The word that a statement begins with.
#[derive(Clone, Copy, Debug, PartialEq, Eq)]
pub(super) enum Verb {
    Break,
    Require,
    Proclaim,
    New,
    Assign,
    Split,
    When,
    Branch,
    Join,
    Hang,
}

static VERBS: [Entry<Verb>; 10] = [
    Entry(b"BREAK", Verb::Break),
    Entry(b"REQUIRE", Verb::Require),
    Entry(b"PROCLAIM", Verb::Proclaim),
    Entry(b"NEW", Verb::New),
    Entry(b"ASSIGN", Verb::Assign),
    Entry(b"SPLIT", Verb::Split),
    Entry(b"WHEN", Verb::When),
    Entry(b"BRANCH", Verb::Branch),
    Entry(b"JOIN", Verb::Join),
    Entry(b"HANG", Verb::Hang),
];

impl Verb {
    fn find(word: &[u8]) -> Option<Verb>
        ensures { result ≡ verb_of word.now }
    {
        lookup(word, &VERBS)
    }
}

impl Cursor<'_> {
    #[tactic(auto, unfolding(crate::specs::ReadStatements::read_text_end))]
    fn text_end(&mut self) -> Result<Span, ReadFault>
        ensures { Reads read_text_end self.old result self.new }
    {
        self.may_gap();
        let text = self.text()?;
        self.end()?;
        Ok(text)
    }

    // One function for `text_end`, this and `label_after_gap` would take a closure over the cursor and a clause on what it reads, longer than the three.
    #[tactic(auto, unfolding(crate::specs::ReadStatements::read_label_end))]
    fn label_end(&mut self) -> Result<u16, ReadFault>
        ensures { Reads read_label_end self.old result self.new }
    {
        self.may_gap();
        let label = self.label()?;
        self.end()?;
        Ok(label)
    }

    // A name in brackets.
    #[tactic(auto, unfolding(crate::specs::ReadStatements::read_single))]
    fn single(&mut self, scope: Scope) -> Result<usize, ReadFault>
        ensures { Reads (read_single (scope_of scope.entry)) self.old result self.new }
    {
        self.mark(b"(")?;
        self.may_gap();
        let variable = self.variable(scope)?;
        self.close()?;
        Ok(variable)
    }

    // The name of this variable once more.
    #[tactic(auto, unfolding(crate::specs::ReadStatements::read_again))]
    fn again(&mut self, scope: Scope, variable: usize) -> Result<(), ReadFault>
        ensures { Reads (read_again (scope_of scope.entry) variable) self.old result self.new }
    {
        let place = self.at;
        let other = self.variable(scope)?;
        if other != variable {
            return Err(Refusal::Name.at(place));
        }
        Ok(())
    }

    #[tactic(auto, unfolding(crate::specs::ReadStatements::read_repeated))]
    fn repeated(&mut self, scope: Scope, variable: usize) -> Result<(), ReadFault>
        ensures { Reads (read_repeated (scope_of scope.entry) variable) self.old result self.new }
    {
        self.may_gap();
        self.mark(b"(")?;
        self.may_gap();
        self.again(scope, variable)?;
        self.close()
    }

    // The variable that ASSIGN lists and repeats.
    fn target(&mut self, scope: Scope) -> Result<usize, ReadFault>
        ensures { Reads (read_target (scope_of scope.entry)) self.old result self.new }
    {
        let variable = self.single(scope)?;
        self.repeated(scope, variable)?;
        Ok(variable)
    }

    // Whether no closing bracket stands here, perhaps after a gap.
    fn goes_on(&self) -> bool
        ensures { result ≡ goes_on self.now.bytes.now self.now.at }
    {
        let mut ahead = *self;
        ahead.may_gap();
        ahead.peek() != Some(b')')
    }

    // A variable for a list that may take it.
    #[tactic(auto, unfolding(crate::specs::ReadStatements::read_unseen))]
    fn unseen(&mut self, scope: Scope, listing: Listing) -> Result<usize, ReadFault>
        ensures { Reads (read_unseen (scope_of scope.entry) (nat_le LIST_LIMIT listing.count) (listed_in listing)) self.old result self.new }
    {
        let place = self.at;
        if listing.count >= LIST_LIMIT {
            self.name()?;
            return Err(Refusal::Limit.at(place));
        }
        let variable = self.variable(scope)?;
        if contains(listing.listed(), variable) {
            return Err(Refusal::Name.at(place));
        }
        Ok(variable)
    }

    // What follows the first listed name, up to the closing bracket.
    fn more(&mut self, scope: Scope, first: usize) -> Result<Listing, ReadFault>
        ensures { Reads (read_more_listed (scope_of scope.entry) first) self.old result self.new }
    {
        let mut listing = Listing::EMPTY;
        listing.push(first);
        while self.goes_on() {
            self.gap()?;
            let variable = self.unseen(scope, listing)?;
            listing.push(variable);
        }
        self.close()?;
        Ok(listing)
    }

    // Listed names, up to the closing bracket.
    #[tactic(auto, unfolding(crate::specs::ReadStatements::read_names))]
    fn names(&mut self, scope: Scope) -> Result<Listing, ReadFault>
        ensures { Reads (read_names_listed (scope_of scope.entry)) self.old result self.new }
    {
        if self.peek() == Some(b')') {
            self.at += 1;
            return Ok(Listing::EMPTY);
        }
        let first = self.variable(scope)?;
        self.more(scope, first)
    }

    // Names in brackets.
    #[tactic(auto, unfolding(crate::specs::ReadStatements::read_listing))]
    fn listing(&mut self, scope: Scope) -> Result<Listing, ReadFault>
        ensures { Reads (read_listed (scope_of scope.entry)) self.old result self.new }
    {
        self.mark(b"(")?;
        self.may_gap();
        self.names(scope)
    }

    // An expression, into the table.
    fn expression(&mut self, scope: Scope, rows: &mut Table<UnitRow>) -> Result<Term, ReadFault>
        ensures { ReadsTerm (read_expression (scope_of scope.entry) (length rows.old.records.now) rows.old.count) self.old rows.old result self.new rows.new }
    {
        let first = rows.count;
        self.term(scope, rows, NESTING_LIMIT)?;
        Ok(Term {
            first,
            rows: rows.count - first,
        })
    }

    // This, `proclaim` and `when` are each one production of the notation, read piece by piece, as its reader in the definitions.
    fn require(&mut self, scope: Scope, rows: &mut Table<UnitRow>) -> Result<Statement, ReadFault>
        ensures { Lays (by_verb (scope_of scope.entry) (length rows.old.records.now) rows.old.count verb.Require) self.old rows.old result self.new rows.new }
    {
        self.gap()?;
        let condition = self.expression(scope, rows)?;
        let text = self.text_end()?;
        Ok(Statement::Require { condition, text })
    }

    fn proclaim(&mut self, scope: Scope, rows: &mut Table<UnitRow>) -> Result<Statement, ReadFault>
        ensures { Lays (by_verb (scope_of scope.entry) (length rows.old.records.now) rows.old.count verb.Proclaim) self.old rows.old result self.new rows.new }
    {
        self.gap()?;
        let condition = self.expression(scope, rows)?;
        self.end()?;
        Ok(Statement::Proclaim { condition })
    }

    fn new_values(
        &mut self,
        scope: Scope,
        rows: &mut Table<UnitRow>,
    ) -> Result<Statement, ReadFault>
        ensures { Lays (by_verb (scope_of scope.entry) (length rows.old.records.now) rows.old.count verb.New) self.old rows.old result self.new rows.new }
    {
        self.gap()?;
        let listing = self.listing(scope)?;
        self.may_gap();
        let within = Scope {
            listing: Some(listing),
            ..scope
        };
        let condition = self.expression(within, rows)?;
        let text = self.text_end()?;
        Ok(Statement::New {
            listing,
            condition,
            text,
        })
    }

    fn assign(&mut self, scope: Scope, rows: &mut Table<UnitRow>) -> Result<Statement, ReadFault>
        ensures { Lays (by_verb (scope_of scope.entry) (length rows.old.records.now) rows.old.count verb.Assign) self.old rows.old result self.new rows.new }
    {
        self.gap()?;
        let variable = self.target(scope)?;
        self.may_gap();
        let shadow = self.expression(scope, rows)?;
        self.may_gap();
        let value = self.expression(scope, rows)?;
        self.end()?;
        Ok(Statement::Assign {
            variable,
            shadow,
            value,
        })
    }

    fn when(&mut self, scope: Scope, rows: &mut Table<UnitRow>) -> Result<Statement, ReadFault>
        ensures { Lays (by_verb (scope_of scope.entry) (length rows.old.records.now) rows.old.count verb.When) self.old rows.old result self.new rows.new }
    {
        self.gap()?;
        let condition = self.expression(scope, rows)?;
        let label = self.label_end()?;
        Ok(Statement::When { condition, label })
    }

    #[tactic(auto, unfolding(crate::specs::ReadStatements::read_gap_label))]
    fn label_after_gap(&mut self) -> Result<u16, ReadFault>
        ensures { Reads read_gap_label self.old result self.new }
    {
        self.gap()?;
        let label = self.label()?;
        self.end()?;
        Ok(label)
    }

    // What follows a statement's word; the rows of its terms go into the table.
    pub(super) fn statement(
        &mut self,
        verb: Verb,
        scope: Scope,
        rows: &mut Table<UnitRow>,
    ) -> Result<Statement, ReadFault>
        ensures { Lays (by_verb (scope_of scope.entry) (length rows.old.records.now) rows.old.count verb) self.old rows.old result self.new rows.new }
    {
        match verb {
            Verb::Break => Ok(Statement::Break {
                text: self.text_end()?,
            }),
            Verb::Require => self.require(scope, rows),
            Verb::Proclaim => self.proclaim(scope, rows),
            Verb::New => self.new_values(scope, rows),
            Verb::Assign => self.assign(scope, rows),
            Verb::Split => Ok(Statement::Split {
                label: self.label_after_gap()?,
            }),
            Verb::When => self.when(scope, rows),
            Verb::Branch => {
                self.gap()?;
                let text = self.text()?;
                let label = self.label_end()?;
                Ok(Statement::Branch { text, label })
            }
            Verb::Join => Ok(Statement::Join {
                label: self.label_after_gap()?,
            }),
            Verb::Hang => {
                self.end()?;
                Ok(Statement::Hang)
            }
        }
    }

    // A statement, where its table may take one more.
    #[tactic(auto, unfolding(crate::specs::ReadUnits::read_sentence))]
    fn sentence(
        &mut self,
        scope: Scope,
        statements: &Table<Statement>,
        rows: &mut Table<UnitRow>,
    ) -> Result<Statement, ReadFault>
        ensures value { Lays (read_sentence (scope_of scope.entry) (length rows.old.records.now) (full_by (length statements.now.records.now) statement_limit) (nat_le (min (length statements.now.records.now) statement_limit) statements.now.count) rows.old.count) self.old rows.old result self.new rows.new }
        ensures within { OnOk result (statements.now.count < min (length statements.now.records.now) statement_limit) }
    {
        let place = self.at;
        let word = self.word()?;
        let verb = Verb::find(word.of(self.bytes)).ok_or(Refusal::Missing.at(place))?;
        statements
            .room(STATEMENT_LIMIT)
            .map_err(|refusal| refusal.at(place))?;
        self.statement(verb, scope, rows)
    }

    // Whether the unit does not end here.
    fn has_more(&self) -> bool
        ensures { result ≡ goes_on_unit self.now.bytes.now self.now.at }
    {
        let mut ahead = *self;
        !ahead
            .word()
            .is_ok_and(|word| same_word(word.of(self.bytes), b"END"))
    }

    #[tactic(auto, unfolding(crate::specs::ReadUnits::read_finish))]
    fn finish(&mut self) -> Result<(), ReadFault>
        ensures { Reads read_finish self.old result self.new }
    {
        self.keyword(b"END")?;
        self.end()
    }

    // All statements up to `END`, into the tables.
    pub(super) fn statements(
        &mut self,
        scope: Scope,
        statements: &mut Table<Statement>,
        rows: &mut Table<UnitRow>,
    ) -> Result<(), ReadFault>
        requires { (statements.old.count ≡ 0) × (rows.old.count ≡ 0) }
        ensures { LaysAll (scope_of scope.entry) self.old statements.old rows.old result self.new statements.new rows.new }
    {
        while self.has_more() {
            let statement = self.sentence(scope, statements, rows)?;
            statements.push(statement);
        }
        self.finish()
    }
}
