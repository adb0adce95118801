// Reading terms into the row table.

ghost use Rattle.std.specs.Prelude.{◌≡◌, ◌<◌, ◌≤◌, true, length, OnOk};
ghost use Rattle.jcode.specs.Pieces.{Reads, told};
ghost use Rattle.jcode.specs.Scopes.{scope_of};
ghost use Rattle.jcode.specs.ReadTerms.{head_of, mention, by_head, known, read_variable, read_renewed, read_defined, read_row, read_open, read_begin, read_close, read_lead, read_operands, read_term, ReadsRows};
ghost use Rattle.jcode.specs.Rows.{operands_after};

use super::cursor::Cursor;
use super::mention::{Aspect, Mention, ROW_LIMIT, Stage, UnitRow};
use super::refusal::{ReadFault, Refusal};
use super::scope::Scope;
use super::span::Span;
use super::table::Table;
use terms::operator::{Operator, find};
use terms::row::Row;
use terms::word::{Entry, lookup};

// What a word opens that `!` follows.
#[derive(Clone, Copy, Debug, PartialEq, Eq)]
pub(super) enum Head {
    Constant,
    Defined,
    New,
    Operator(Operator),
}

static MODIFIERS: [Entry<Head>; 3] = [
    Entry(b"consti", Head::Constant),
    Entry(b"defined", Head::Defined),
    Entry(b"new", Head::New),
];

impl Head {
    fn find(word: &[u8]) -> Option<Head>
        ensures { result ≡ head_of word.now }
    {
        lookup(word, &MODIFIERS).or_else(|| find(word).map(Head::Operator))
    }
}

fn mentioned(variable: usize, aspect: Aspect, stage: Stage) -> UnitRow
    ensures { result ≡ mention aspect stage variable }
{
    Row::Mention(Mention {
        variable,
        aspect,
        stage,
    })
}

// How many operands follow a row, which is a type of terms and so has no method here.
fn operands_after(row: UnitRow) -> usize
    ensures { result ≡ operands_after row }
{
    match row {
        Row::Operator(operator) => operator.arity(),
        _ => 0,
    }
}

// Scope and rows are parameters and no fields of the cursor: most readers leave them alone, and each would have to promise that.
impl Cursor<'_> {
    // The variable that a word names.
    fn known(&self, scope: Scope, word: Span) -> Result<usize, ReadFault>
        ensures { told result self.now.at ≡ known (scope_of scope.entry) self.now.bytes.now word self.now.at }
    {
        let name = self.short(word)?;
        let unknown = Refusal::Name.at(name.start);
        scope.find(name.of(self.bytes)).ok_or(unknown)
    }

    pub(super) fn variable(&mut self, scope: Scope) -> Result<usize, ReadFault>
        ensures { Reads (read_variable (scope_of scope.entry)) self.old result self.new }
    {
        let word = self.word()?;
        self.known(scope, word)
    }

    // What follows `new!`, which stands at this place. Outside of NEW, or ahead of a name that is not listed, it is `new!` that is refused.
    fn renewed(&mut self, scope: Scope, place: usize) -> Result<usize, ReadFault>
        ensures { Reads (read_renewed (scope_of scope.entry) place) self.old result self.new }
    {
        let misplaced = Refusal::Name.at(place);
        if scope.listing.is_none() {
            return Err(misplaced);
        }
        self.gap()?;
        let name = self.name()?;
        scope.renewed(name.of(self.bytes)).ok_or(misplaced)
    }

    // What follows `defined!`: `new!` and a listed variable, or a variable.
    fn defined(&mut self, scope: Scope) -> Result<UnitRow, ReadFault>
        ensures { Reads (read_defined (scope_of scope.entry)) self.old result self.new }
    {
        let place = self.at;
        if self.starts_with(b"new!") {
            self.at += 4;
            let variable = self.renewed(scope, place)?;
            return Ok(mentioned(variable, Aspect::Shadow, Stage::New));
        }
        let variable = self.variable(scope)?;
        Ok(mentioned(variable, Aspect::Shadow, Stage::Current))
    }

    // What follows a word, which stands at this place, and its `!`, up to the operands.
    fn headed(&mut self, scope: Scope, place: usize, head: Head) -> Result<UnitRow, ReadFault>
        ensures { Reads (by_head (scope_of scope.entry) place head) self.old result self.new }
    {
        match head {
            Head::Constant => {
                self.gap()?;
                let number = self.number()?;
                Ok(Row::Constant(number))
            }
            Head::Defined => {
                self.gap()?;
                self.defined(scope)
            }
            Head::New => {
                let variable = self.renewed(scope, place)?;
                Ok(mentioned(variable, Aspect::Value, Stage::New))
            }
            Head::Operator(operator) => Ok(Row::Operator(operator)),
        }
    }

    // The row that a term begins with. Only a name has a limit of length, so the word before `!` has none.
    fn row(&mut self, scope: Scope) -> Result<UnitRow, ReadFault>
        ensures { Reads (read_row (scope_of scope.entry)) self.old result self.new }
    {
        let word = self.word()?;
        if self.peek() == Some(b'!') {
            self.at += 1;
            let head = Head::find(word.of(self.bytes)).ok_or(Refusal::Name.at(word.start))?;
            return self.headed(scope, word.start, head);
        }
        let variable = self.known(scope, word)?;
        Ok(mentioned(variable, Aspect::Value, Stage::Current))
    }

    // A term's opening bracket, with the limits that its row can pass.
    fn open(&mut self, rows: &Table<UnitRow>, left: usize) -> Result<(), ReadFault>
        ensures value { Reads (read_open left (length rows.now.records.now) rows.now.count) self.old result self.new }
        ensures within { OnOk result ((0 < left) × (rows.now.count < length rows.now.records.now)) }
    {
        let place = self.at;
        self.mark(b"(")?;
        if left == 0 {
            return Err(Refusal::Limit.at(place));
        }
        rows.room(ROW_LIMIT).map_err(|refusal| refusal.at(place))
    }

    // A term up to its operands.
    #[tactic(auto, unfolding(crate::specs::ReadTerms::read_begin))]
    fn begin(
        &mut self,
        scope: Scope,
        rows: &Table<UnitRow>,
        left: usize,
    ) -> Result<UnitRow, ReadFault>
        ensures value { Reads (read_begin (scope_of scope.entry) left (length rows.now.records.now) rows.now.count) self.old result self.new }
        ensures within { OnOk result ((0 < left) × (rows.now.count < length rows.now.records.now)) }
    {
        self.open(rows, left)?;
        self.may_gap();
        self.row(scope)
    }

    // A closing bracket, perhaps after a gap.
    #[tactic(auto, unfolding(crate::specs::ReadTerms::read_close))]
    pub(super) fn close(&mut self) -> Result<(), ReadFault>
        ensures { Reads read_close self.old result self.new }
    {
        self.may_gap();
        self.mark(b")")
    }

    // A gap, which must stand ahead of the first operand.
    fn lead(&mut self, first: bool) -> Result<(), ReadFault>
        ensures { Reads (read_lead first) self.old result self.new }
    {
        if first {
            return self.gap();
        }
        self.may_gap();
        Ok(())
    }

    // A term, with so much nesting left, into the table.
    #[cycle(operands_term)]
    pub(super) fn term(
        &mut self,
        scope: Scope,
        rows: &mut Table<UnitRow>,
        left: usize,
    ) -> Result<(), ReadFault>
        ensures { ReadsRows (read_term (scope_of scope.entry) (length rows.old.records.now) left rows.old.count) self.old rows.old result self.new rows.new }
    {
        let row = self.begin(scope, rows, left)?;
        rows.push(row);
        self.operands(scope, rows, left - 1, operands_after(row))?;
        self.close()
    }

    // So many terms; the index tells the first apart, ahead of which a gap must stand.
    #[cycle(operands_term)]
    fn operands(
        &mut self,
        scope: Scope,
        rows: &mut Table<UnitRow>,
        left: usize,
        count: usize,
    ) -> Result<(), ReadFault>
        ensures { ReadsRows (read_operands (read_term (scope_of scope.entry) (length rows.old.records.now) left) count true rows.old.count) self.old rows.old result self.new rows.new }
    {
        for i in 0..count {
            self.lead(i == 0)?;
            self.term(scope, rows, left)?;
        }
        Ok(())
    }
}
