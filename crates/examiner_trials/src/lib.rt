// Trials of examinations, in a crate of their own since a crate with tests is proved twice.
#![tactic(auto)]

pub mod guess;
#[cfg(test)]
mod settlements;
#[cfg(test)]
mod slips;
#[cfg(test)]
mod units;
