// Terms: kinds, the operator table, what each operator computes, and rows in Polish notation.
#![tactic(auto)]

pub mod fits;
pub mod fold;
pub mod kind;
pub mod mentions;
pub mod number;
pub mod operator;
pub mod part;
pub mod row;
pub mod word;
