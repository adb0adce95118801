// Faults of sheets: what is wrong with tables, or with a call that speaks of a sheet.

ghost use Rattle.std.specs.Prelude.{◌≡◌, Some};
ghost use Rattle.sheets.specs.Faults.{refused, shown};

use jcode::refusal::{ReadFault, Refusal};
use std::fmt;

// The place is 0: a fault is of the whole call.
#[derive(Clone, Copy, Debug, PartialEq, Eq)]
pub struct SheetFault {
    pub refusal: Refusal,
    pub place: usize,
}

impl From<Refusal> for SheetFault {
    ghost from_gives = { λ refusal r. r ≡ refused refusal };

    fn from(value: Refusal) -> SheetFault {
        SheetFault {
            refusal: value,
            place: 0,
        }
    }
}

impl fmt::Display for SheetFault {
    ghost output = { λ fault. Some (shown fault) };

    fn fmt<W: fmt::Write>(&self, f: &mut fmt::Formatter<W>) -> fmt::Result {
        let told = ReadFault {
            refusal: self.refusal,
            place: self.place,
        };
        write!(f, "{}", told)
    }
}
