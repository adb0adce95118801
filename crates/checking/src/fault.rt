// Faults of checking: what stops a unit on its way to being checked.

ghost use Rattle.std.specs.Prelude.{◌≡◌, Some};
ghost use Rattle.checking.specs.declared.fault.CheckFault.TheVariants.{Reading};
ghost use Rattle.checking.specs.Faults.{refusal_of, place_of, refused};

use jcode::refusal::{ReadFault, Refusal};
use std::fmt;

#[derive(Clone, Copy, Debug, PartialEq, Eq)]
pub enum CheckFault {
    // What reading refused, whole.
    Reading(ReadFault),
    // The lowest rule that is broken, and the lowest place where it is: a statement's number.
    Rule { refusal: Refusal, place: usize },
}

impl From<ReadFault> for CheckFault {
    ghost from_gives = { λ fault r. r ≡ Reading fault };

    fn from(value: ReadFault) -> CheckFault {
        CheckFault::Reading(value)
    }
}

impl CheckFault {
    pub fn refusal(self) -> Refusal
        ensures { result ≡ refusal_of self }
    {
        match self {
            CheckFault::Reading(fault) => fault.refusal,
            CheckFault::Rule { refusal, .. } => refusal,
        }
    }

    // A byte in reading, a statement in checking.
    pub fn place(self) -> usize
        ensures { result ≡ place_of self }
    {
        match self {
            CheckFault::Reading(fault) => fault.place,
            CheckFault::Rule { place, .. } => place,
        }
    }
}

impl fmt::Display for CheckFault {
    ghost output = { λ fault. Some (refused fault) };

    fn fmt<W: fmt::Write>(&self, f: &mut fmt::Formatter<W>) -> fmt::Result {
        let told = ReadFault {
            refusal: self.refusal(),
            place: self.place(),
        };
        write!(f, "{}", told)
    }
}
