// Trials of sheets, in a crate of their own since a crate with tests is proved twice.
#![tactic(auto)]

#[cfg(test)]
mod buffers;
#[cfg(test)]
mod conditions;
#[cfg(test)]
mod judges;
#[cfg(test)]
mod places;
#[cfg(test)]
mod replays;
#[cfg(test)]
mod settlings;
#[cfg(test)]
mod units;
#[cfg(test)]
mod written;
