// Mentions: how the rows of a unit's terms refer to its variables.

use terms::row::Row;

// A variable's value, or its shadow: whether that value is a meaningful one.
#[derive(Clone, Copy, Debug, PartialEq, Eq)]
pub enum Aspect {
    Value,
    Shadow,
}

// As it stands, or as NEW is about to leave it.
#[derive(Clone, Copy, Debug, PartialEq, Eq)]
pub enum Stage {
    Current,
    New,
}

#[derive(Clone, Copy, Debug, PartialEq, Eq)]
pub struct Mention {
    pub variable: usize,
    pub aspect: Aspect,
    pub stage: Stage,
}

// How many rows the terms of a unit may have.
pub const ROW_LIMIT: usize = 2_000;

// A row of a unit's term.
pub type UnitRow = Row<Mention>;
