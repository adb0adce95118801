// The examiner: a checked unit's conditions are settled one after another, by any judges, and a verdict tells what came of it.
#![tactic(auto)]

pub mod examination;
pub mod report;
pub mod slip;
mod tally;
pub mod verdict;
pub mod worked;
