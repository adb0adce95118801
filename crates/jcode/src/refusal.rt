// Refusals: everything that may be found wrong with a unit, its tables or a call.

ghost use Rattle.std.specs.Prelude.{◌≡◌, Some};
ghost use Rattle.jcode.specs.Refusals.{number_of, layer_of};
ghost use Rattle.jcode.specs.Lines.{refused};

use std::fmt;

#[derive(Clone, Copy, Debug, PartialEq, Eq, PartialOrd, Ord)]
pub enum Refusal {
    // The piece that is due does not begin here.
    Missing = 1,
    // A number or label breaks its rule, or low is above high.
    Number,
    // A limit on counts, lengths or nesting is passed.
    Limit,
    // A table is too short for the unit.
    Table,
    // A name or operator is unknown, a name comes twice, or `new!` or ASSIGN's repeated name is wrong.
    Name,
    // The tables break a rule of reading, or a condition's tables its rules.
    Tables,
    // The statement order is broken.
    Order,
    // A kind is wrong.
    Kind,
    // A label rule is broken.
    Label,
    // There is a circle.
    Circle,
    // With every variable at its type's bounds, a row has the range mark 'any'.
    Range,
    // There are too many paths.
    Paths,
    // No condition is left, or its number is past the last.
    Condition,
    // A slip is out.
    SlipOut,
    // The slip is not the one out.
    Slip,
    // A buffer to write is too short.
    Buffer,
    // A valuation is short or outside its bounds.
    Valuation,
}

// The part of the examiner that refuses.
#[derive(Clone, Copy, Debug, PartialEq, Eq)]
pub enum Layer {
    Reading,
    Checking,
    Examination,
}

impl Refusal {
    pub fn number(self) -> u8
        ensures { result ≡ number_of self }
    {
        self as u8
    }

    pub fn layer(self) -> Layer
        ensures { result ≡ layer_of self }
    {
        if self <= Refusal::Name {
            Layer::Reading
        } else if self <= Refusal::Paths {
            Layer::Checking
        } else {
            Layer::Examination
        }
    }

    // The fault of a piece that begins at a place.
    pub(super) fn at(self, place: usize) -> ReadFault
        ensures { result ≡ record { refusal = self; place = place } }
    {
        ReadFault {
            refusal: self,
            place,
        }
    }
}

// A refusal of reading, and the first byte of the faulty piece.
#[derive(Clone, Copy, Debug, PartialEq, Eq)]
pub struct ReadFault {
    pub refusal: Refusal,
    pub place: usize,
}

impl fmt::Display for ReadFault {
    ghost output = { λ fault. Some (refused fault) };

    fn fmt<W: fmt::Write>(&self, f: &mut fmt::Formatter<W>) -> fmt::Result {
        write!(f, "refused {} {}", self.refusal.number(), self.place)
    }
}
