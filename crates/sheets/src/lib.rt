// Sheets: the condition of a path, what falsifies it, who judges it, and how it matches the runs of a unit.
#![tactic(auto)]

pub mod cell;
mod current;
pub mod desk;
pub mod fault;
pub mod judge;
pub mod outcome;
pub mod part;
pub mod path;
pub mod replay;
pub mod setting;
pub mod settling;
pub mod sheet;
mod tables;
mod term;
mod writer;
pub mod writing;
