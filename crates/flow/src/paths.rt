// Paths: the paths of a flow by their numbers.

ghost use Rattle.std.specs.Prelude.{◌≡◌, ◌<◌, ◌≤◌, [], ◌∷◌, length, MatchOption, IsOkAnd};
ghost use Rattle.flow.specs.declared.step.Step.TheVariants.{Break, Require, Hang};
ghost use Rattle.flow.specs.Steps.{Acyclic};
ghost use Rattle.flow.specs.Flows.{steps_in};
ghost use Rattle.flow.specs.Numbers.{paths, Numbered};
ghost use Rattle.flow.specs.Counts.{TooMany, Counted, most};
ghost use Rattle.flow.specs.Turns.{Starts, Follows, Picked};

use super::counts::{Counts, LIMIT};
use super::flow::{Flow, Full};
use super::step::Step;
use super::turn::Turn;

// No statement reaches itself, and the paths are few; `counts` has how many ways lead on from each statement, clipped.
#[derive(Clone, Copy, Debug, PartialEq, Eq)]
pub struct Paths {
    flow: Flow,
    counts: Counts,
    total: u32,
    ghost acyclic: { Acyclic (steps_in flow) },
    ghost counted: { Counted (steps_in flow) counts },
    ghost whole: { total ≡ length (paths (steps_in flow)) },
    ghost few: { total ≤ most },
}

// BREAK, REQUIRE, HANG.
fn one_require() -> Result<Flow, Full>
    ensures { IsOkAnd result (λ flow. steps_in flow ≡ Break ∷ Require ∷ Hang ∷ []) }
{
    let mut flow = Flow::new();
    flow.push(Step::Break)?;
    flow.push(Step::Require)?;
    flow.push(Step::Hang)?;
    Ok(flow)
}

impl Paths {
    // None where a statement reaches itself or there are more paths than a unit may have.
    pub fn of(flow: Flow) -> Option<Paths>
        ensures { MatchOption result (TooMany (steps_in flow)) (λ p. steps_in p.flow ≡ steps_in flow) }
    {
        if flow.circular().is_some() {
            return None;
        }
        let counts = flow.counts();
        let total = flow.sum(&counts, None);
        if total == LIMIT {
            return None;
        }
        Some(Paths {
            flow,
            counts,
            total,
        })
    }

    // The paths of BREAK, REQUIRE, HANG: one, from the first to the second.
    pub fn house() -> Paths
        ensures { steps_in result.flow ≡ Break ∷ Require ∷ Hang ∷ [] }
    {
        one_require().ok().and_then(Paths::of).unwrap()
    }

    pub fn count(&self) -> usize
        ensures count { result ≡ length (paths (steps_in self.now.flow)) }
        ensures few { result ≤ most }
        ensures numbered { Numbered (steps_in self.now.flow) }
    {
        self.total as usize
    }

    // The first turn of a path.
    pub fn path(&self, number: usize) -> Option<Turn>
        ensures { Starts (steps_in self.now.flow) number result }
    {
        self.pick(None, u16::try_from(number).ok()?)
    }

    // The turn after a turn, which may be one of another flow.
    pub fn after(&self, turn: Turn) -> Option<Turn>
        ensures { Follows (steps_in self.now.flow) turn result }
    {
        let here = u16::from(self.flow.at(turn.place) == Step::Require);
        self.pick(Some(turn.place), turn.number.checked_sub(here)?)
    }

    // The turn of way `number` of those that go on from a statement, or at the start.
    fn pick(&self, from: Option<usize>, number: u16) -> Option<Turn>
        ensures { Picked (steps_in self.now.flow) from number result }
    {
        // By a `for`: what is left of the number goes on from place to place.
        let mut left = u32::from(number);
        for j in self.flow.ahead(from).filter(|&j| self.flow.allows(from, j)) {
            let count = self.counts[j];
            if left < count {
                return Some(Turn {
                    place: j,
                    number: left as u16,
                });
            }
            left -= count;
        }
        None
    }
}
