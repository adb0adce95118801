// Outcomes: as what a condition is settled.

#[derive(Clone, Copy, Debug, PartialEq, Eq)]
pub enum Outcome {
    // Its judge passed it.
    Passed,
    // Its judge proposed a valuation that falsifies it.
    Failed,
    // Neither.
    Open,
}
