// Judges: three of them, each proved against a judge's meaning and law alone.
#![tactic(auto)]

mod number;
pub mod pass;
mod ranges;
pub mod relay;
pub mod trier;
mod tries;
