// Flow: where control goes in a unit, the rules that hang on nothing else, and its paths.
#![tactic(auto)]

mod circle;
mod counts;
pub mod flow;
mod labels;
mod order;
pub mod paths;
pub mod step;
mod successors;
pub mod turn;
