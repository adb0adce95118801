// Trials of checking: which rule is told and where, how many paths a unit has and which, and what becomes of tables that are damaged.
#![tactic(auto)]

#[cfg(test)]
mod counts;
#[cfg(test)]
mod damage;
#[cfg(test)]
mod limits;
#[cfg(test)]
mod paths;
#[cfg(test)]
mod reading;
#[cfg(test)]
mod rules;
#[cfg(test)]
mod tables;
