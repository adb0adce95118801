// Checking: the rules that a unit keeps before conditions are written for it, and the checked unit.
#![tactic(auto)]

mod apart;
pub mod fault;
pub mod kinding;
mod kinds;
mod layout;
pub mod nesting;
pub mod notation;
mod pieces;
mod rules;
mod sentences;
mod spans;
mod steps;
mod tables;
pub mod term;
mod term_table;
pub mod types;
pub mod unit;
