// Flows: the steps of a unit.

ghost use Rattle.std.specs.Prelude.{◌≡◌, ◌≤◌, [], length};
ghost use Rattle.flow.specs.Steps.{at as step_at};
ghost use Rattle.flow.specs.Examples.{Examples};
ghost use Rattle.flow.specs.declared.flow.TheConstants.{MOST_STEPS};

use super::step::Step;

// The most statements that a unit may have. Stated here too, since a flow knows no unit: were it below the limit there, the proof of the check would fail.
pub(super) const MOST_STEPS: usize = 200;

// An array with its count: a flow is Copy, and making one can't fail for want of memory.
#[derive(Clone, Copy, Debug, PartialEq, Eq)]
pub struct Flow {
    steps: [Step; MOST_STEPS],
    count: usize,
    ghost few: { count ≤ MOST_STEPS },
}

// A flow has no room for one more step. Of its own, since a flow knows no terms, whose stack can be full too.
#[derive(Clone, Copy, Debug, PartialEq, Eq)]
pub struct Full;

impl Flow {
    ghost use Rattle.flow.specs.Flows.{steps_in, Pushed};

    // No step yet.
    pub fn new() -> Flow
        ensures { steps_in result ≡ [] }
    {
        Flow {
            steps: [Step::Hang; MOST_STEPS],
            count: 0,
        }
    }

    // One step more; a full flow stays as it is.
    pub fn push(&mut self, step: Step) -> Result<(), Full>
        ensures { Pushed (steps_in self.old) step (steps_in self.new) result }
    {
        if self.count == MOST_STEPS {
            return Err(Full);
        }
        self.steps[self.count] = step;
        self.count += 1;
        Ok(())
    }

    pub(super) fn listed(&self) -> &[Step]
        ensures { result.now ≡ steps_in self.now }
    {
        &self.steps[..self.count]
    }

    pub(super) fn len(&self) -> usize
        ensures steps { result ≡ length (steps_in self.now) }
        ensures few { result ≤ MOST_STEPS }
    {
        self.count
    }

    // The step at a place; past the last one there is nothing to go on to, so it is HANG and no Option, as the definitions read it.
    pub(super) fn at(&self, i: usize) -> Step
        ensures { result ≡ step_at (steps_in self.now) i }
    {
        self.listed().get(i).copied().unwrap_or(Step::Hang)
    }
}

// What flows come to, by examples.
pub fn examples_stand()
    ensures { Examples }
{}
