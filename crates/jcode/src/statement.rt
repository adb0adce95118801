// Statements, with their terms as rows of the row table and their texts as spans of the bytes.

ghost use Rattle.std.specs.Prelude.{◌≡◌};
ghost use Rattle.jcode.specs.Scopes.{listed_in, pushed};

use super::span::Span;
use terms::part::part;

// How many statements a unit may have.
pub const STATEMENT_LIMIT: usize = 200;

// How deep the brackets of a term may nest.
pub const NESTING_LIMIT: usize = 32;

// How many variables NEW may list.
pub const LIST_LIMIT: usize = 8;

// The greatest label.
pub const LABEL_LIMIT: u16 = 9_999;

// A term: so many rows of the row table, from `first` on.
#[derive(Clone, Copy, Debug, Default, PartialEq, Eq)]
pub struct Term {
    pub first: usize,
    pub rows: usize,
}

// The variables that NEW lists, in written order; past the count they are 0.
// It is Copy, so an array with a count; no invariant ties them, since any tables may be given to the check, which refuses a wrong count itself.
#[derive(Clone, Copy, Debug, Default, PartialEq, Eq)]
pub struct Listing {
    pub variables: [usize; LIST_LIMIT],
    pub count: usize,
}

impl Listing {
    // No variable is listed. Not the derived default, of whose array a proof knows each variable and not the whole.
    pub(super) const EMPTY: Listing = Listing {
        variables: [0; LIST_LIMIT],
        count: 0,
    };

    // One variable more. A full list stays as it is; who calls this has refused one before.
    pub(super) fn push(&mut self, variable: usize)
        ensures { self.new ≡ pushed self.old variable }
    {
        if self.count < LIST_LIMIT {
            self.variables[self.count] = variable;
            self.count += 1;
        }
    }

    pub fn listed(&self) -> &[usize]
        ensures { result.now ≡ listed_in self.now }
    {
        part(&self.variables, 0, self.count)
    }
}

#[derive(Clone, Copy, Debug, Default, PartialEq, Eq)]
pub enum Statement {
    #[default]
    Hang,
    Break {
        text: Span,
    },
    Require {
        condition: Term,
        text: Span,
    },
    Proclaim {
        condition: Term,
    },
    New {
        listing: Listing,
        condition: Term,
        text: Span,
    },
    Assign {
        variable: usize,
        shadow: Term,
        value: Term,
    },
    Split {
        label: u16,
    },
    When {
        condition: Term,
        label: u16,
    },
    Branch {
        text: Span,
        label: u16,
    },
    Join {
        label: u16,
    },
}
