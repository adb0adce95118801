// Trials of the reckonings, in a crate of their own since a crate with tests is proved twice.
#![tactic(auto)]

#[cfg(test)]
mod marks;
#[cfg(test)]
mod operators;
#[cfg(test)]
mod rows;
