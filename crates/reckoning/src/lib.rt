// Reckonings: computing with terms exactly or by bounds, each an abstract domain over whole numbers.
#![tactic(auto)]

mod certain;
pub mod decision;
pub mod evaluation;
pub mod mark;
pub mod marking;
pub mod mentions;
pub mod points;
pub mod ranges;
pub mod reckoning;
pub mod spanning;
