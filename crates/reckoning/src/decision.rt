// Decisions: what is known of a truth.

ghost use Rattle.std.specs.Prelude.{◌≡◌};
ghost use Rattle.reckoning.specs.Decisions.{decision as decision_of, negated as negated_of, both as both_of, either as either_of};

// No `Option` of a truth, since 'unknown' is an answer and not the want of one.
#[derive(Clone, Copy, Debug, PartialEq, Eq)]
pub enum Decision {
    Yes,
    No,
    Unknown,
}

impl Decision {
    // By whether the truth may be 1, and whether it may be 0.
    pub(crate) fn of(one: bool, zero: bool) -> Decision
        ensures { result ≡ decision_of one zero }
    {
        match (one, zero) {
            (false, _) => Decision::No,
            (true, false) => Decision::Yes,
            (true, true) => Decision::Unknown,
        }
    }

    pub(crate) fn negated(self) -> Decision
        ensures { result ≡ negated_of self }
    {
        match self {
            Decision::Yes => Decision::No,
            Decision::No => Decision::Yes,
            Decision::Unknown => Decision::Unknown,
        }
    }

    // That two truths both hold.
    pub(crate) fn both(self, other: Decision) -> Decision
        ensures { result ≡ both_of self other }
    {
        match (self, other) {
            (Decision::No, _) | (_, Decision::No) => Decision::No,
            (Decision::Yes, Decision::Yes) => Decision::Yes,
            _ => Decision::Unknown,
        }
    }

    // That at least one of two truths holds.
    pub(crate) fn either(self, other: Decision) -> Decision
        ensures { result ≡ either_of self other }
    {
        self.negated().both(other.negated()).negated()
    }
}
