// Trials of reading: what is refused and where, what is read, and the edges of every limit.
#![tactic(auto)]

#[cfg(test)]
mod reading;
