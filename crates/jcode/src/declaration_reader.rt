// Reading declarations into the variable table.

ghost use Rattle.std.specs.Prelude.{◌≡◌, ◌<◌, ◌≤◌, min, [], length, take, OnOk, nat_le};
ghost use Rattle.jcode.specs.Pieces.{Reads};
ghost use Rattle.jcode.specs.ReadUnits.{domain_of, read_high, read_bounds, read_domain, read_colon, read_class, read_closing, read_declared, opens_declaration, read_fresh, read_declaration, read_entry, variable_limit, read_declarations, Fills};
ghost use Rattle.jcode.specs.Tables.{full_by};

use super::cursor::Cursor;
use super::refusal::{ReadFault, Refusal};
use super::span::Span;
use super::table::Table;
use super::variable::{Domain, VARIABLE_LIMIT, Variable, is_taken};
use terms::word::{Entry, lookup};

// The word of a variable's type.
#[derive(Clone, Copy, Debug, PartialEq, Eq)]
pub(super) enum DomainWord {
    Integer,
    Boolean,
    Subrange,
}

static DOMAINS: [Entry<DomainWord>; 3] = [
    Entry(b"integer", DomainWord::Integer),
    Entry(b"boolean", DomainWord::Boolean),
    Entry(b"subrange", DomainWord::Subrange),
];

impl DomainWord {
    fn find(word: &[u8]) -> Option<DomainWord>
        ensures { result ≡ domain_of word.now }
    {
        lookup(word, &DOMAINS)
    }
}

// Each method is one production of the notation, as its reader in the definitions; some have one shape.
impl Cursor<'_> {
    // A high bound, not below the low one.
    #[tactic(auto, unfolding(crate::specs::ReadUnits::read_high))]
    fn high(&mut self, low: i64) -> Result<Domain, ReadFault>
        ensures { Reads (read_high low) self.old result self.new }
    {
        let place = self.at;
        let high = self.number()?;
        if low > high {
            return Err(Refusal::Number.at(place));
        }
        Ok(Domain::Subrange { low, high })
    }

    #[tactic(auto, unfolding(crate::specs::ReadUnits::read_bounds))]
    fn bounds(&mut self) -> Result<Domain, ReadFault>
        ensures { Reads read_bounds self.old result self.new }
    {
        self.gap()?;
        let low = self.number()?;
        self.gap()?;
        self.high(low)
    }

    #[tactic(auto, unfolding(crate::specs::ReadUnits::read_domain))]
    fn domain(&mut self) -> Result<Domain, ReadFault>
        ensures { Reads read_domain self.old result self.new }
    {
        let place = self.at;
        let word = self.word()?;
        match DomainWord::find(word.of(self.bytes)).ok_or(Refusal::Missing.at(place))? {
            DomainWord::Integer => Ok(Domain::Integer),
            DomainWord::Boolean => Ok(Domain::Boolean),
            DomainWord::Subrange => self.bounds(),
        }
    }

    #[tactic(auto, unfolding(crate::specs::ReadUnits::read_colon))]
    fn colon(&mut self) -> Result<(), ReadFault>
        ensures { Reads read_colon self.old result self.new }
    {
        self.may_gap();
        self.mark(b":")?;
        self.may_gap();
        self.mark(b"(")
    }

    #[tactic(auto, unfolding(crate::specs::ReadUnits::read_class))]
    fn class(&mut self) -> Result<(), ReadFault>
        ensures { Reads read_class self.old result self.new }
    {
        self.may_gap();
        self.keyword(b"variable")?;
        self.may_gap();
        self.mark(b"(")?;
        self.may_gap();
        Ok(())
    }

    #[tactic(auto, unfolding(crate::specs::ReadUnits::read_closing))]
    fn closing(&mut self) -> Result<(), ReadFault>
        ensures { Reads read_closing self.old result self.new }
    {
        self.close()?;
        self.close()?;
        self.end()
    }

    // What follows a declaration's name.
    #[tactic(auto, unfolding(crate::specs::ReadUnits::read_declared))]
    fn declared(&mut self) -> Result<Domain, ReadFault>
        ensures { Reads read_declared self.old result self.new }
    {
        self.colon()?;
        self.class()?;
        let domain = self.domain()?;
        self.closing()?;
        Ok(domain)
    }

    // Whether a word stands here that a colon follows, perhaps after a gap.
    fn opens_declaration(&self) -> bool
        ensures { result ≡ opens_declaration self.now.bytes.now self.now.at }
    {
        let mut ahead = *self;
        if ahead.word().is_err() {
            return false;
        }
        ahead.may_gap();
        ahead.peek() == Some(b':')
    }

    // A name that none of these variables has.
    #[tactic(auto, unfolding(crate::specs::ReadUnits::read_fresh))]
    fn fresh_name(&mut self, seen: &[Variable]) -> Result<Span, ReadFault>
        ensures { Reads (read_fresh seen.now) self.old result self.new }
    {
        let name = self.name()?;
        if is_taken(seen, self.bytes, name.of(self.bytes)) {
            return Err(Refusal::Name.at(name.start));
        }
        Ok(name)
    }

    fn declaration(&mut self, seen: &[Variable]) -> Result<Variable, ReadFault>
        ensures { Reads (read_declaration seen.now) self.old result self.new }
    {
        let name = self.fresh_name(seen)?;
        let domain = self.declared()?;
        Ok(Variable { name, domain })
    }

    // A declaration, where the table may take one more.
    #[tactic(auto, unfolding(crate::specs::ReadUnits::read_entry))]
    fn entry(&mut self, variables: &Table<Variable>) -> Result<Variable, ReadFault>
        ensures value { Reads (read_entry (full_by (length variables.now.records.now) variable_limit) (nat_le (min (length variables.now.records.now) variable_limit) variables.now.count) (take variables.now.count variables.now.records.now)) self.old result self.new }
        ensures within { OnOk result (variables.now.count < min (length variables.now.records.now) variable_limit) }
    {
        if let Err(refusal) = variables.room(VARIABLE_LIMIT) {
            let name = self.name()?;
            return Err(refusal.at(name.start));
        }
        self.declaration(variables.filled())
    }

    // All declarations, into the table.
    pub(super) fn declarations(&mut self, variables: &mut Table<Variable>) -> Result<(), ReadFault>
        requires { variables.old.count ≡ 0 }
        ensures { Fills (read_declarations (length variables.old.records.now) (min (length variables.old.records.now) variable_limit) []) self.old variables.old result self.new variables.new }
    {
        while self.opens_declaration() {
            let variable = self.entry(variables)?;
            variables.push(variable);
        }
        Ok(())
    }
}
