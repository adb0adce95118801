// Trials of judges, in a crate of their own since a crate with tests is proved twice.
#![tactic(auto)]

#[cfg(test)]
mod answers;
#[cfg(test)]
mod doubles;
#[cfg(test)]
mod passes;
#[cfg(test)]
mod relays;
#[cfg(test)]
mod tables;
#[cfg(test)]
mod tries;
