// Kinds: what a term denotes.

#[derive(Clone, Copy, Debug, PartialEq, Eq)]
pub enum Kind {
    Number,
    Truth,
}

// What an operand or a result is: of one kind, or of whichever kind all `Same` places of the operator share; no `Option`, whose `None` would say that there is no kind.
#[derive(Clone, Copy, Debug, PartialEq, Eq)]
pub enum Sort {
    Of(Kind),
    Same,
}
