// Verdicts: what an examination tells of its unit.

// How many conditions were settled as each outcome, and the judgement.
#[derive(Clone, Copy, Debug, PartialEq, Eq)]
pub struct Verdict {
    pub passed: usize,
    pub failed: usize,
    pub open: usize,
    pub judgement: Judgement,
}

#[derive(Clone, Copy, Debug, PartialEq, Eq)]
pub enum Judgement {
    // The lowest number of a condition that failed.
    Failed(usize),
    // Not every condition is settled.
    Unfinished,
    // All are settled, and some are open.
    Open,
    // All passed.
    Cleared,
}
