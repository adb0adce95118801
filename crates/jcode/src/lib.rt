// J-code: a unit as bytes and as tables, and the reading that leads from one to the other.
#![tactic(auto)]

mod class;
mod cursor;
mod declaration_reader;
pub mod mention;
pub mod piece;
pub mod reader;
pub mod refusal;
pub mod scope;
pub mod span;
pub mod statement;
mod statement_reader;
mod table;
mod term_reader;
pub mod variable;
