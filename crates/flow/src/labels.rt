// Labels: what ties SPLIT to its WHENs and BRANCH to its JOIN.

ghost use Rattle.std.specs.Prelude.{Decides};
ghost use Rattle.flow.specs.Flows.{steps_in};
ghost use Rattle.flow.specs.Least.{Least};
ghost use Rattle.flow.specs.Labels.{Has, HasTwo, OnTwo, Clashes, Unmatched, Mislabelled};

use super::flow::Flow;
use super::step::Step;

fn has(steps: &[Step], step: Step) -> bool
    ensures { Decides result (Has steps.now step) }
{
    // By `any`: `contains` compares in groups, which costs more where a step has a kind and a label to look at.
    steps.iter().any(|&other| other == step)
}

fn has_two(steps: &[Step], step: Step) -> bool
    ensures { Decides result (HasTwo steps.now step) }
{
    steps
        .iter()
        .position(|&other| other == step)
        .is_some_and(|first| has(&steps[first + 1..], step))
}

impl Flow {
    // Whether a label stands on two of SPLIT and JOIN.
    fn is_on_two(&self, label: u16) -> bool
        ensures { Decides result (OnTwo (steps_in self.now) label) }
    {
        let (steps, split, join) = (self.listed(), Step::Split(label), Step::Join(label));
        has_two(steps, split) || has_two(steps, join) || (has(steps, split) && has(steps, join))
    }

    fn clashes(&self, step: Step) -> bool
        ensures { Decides result (Clashes (steps_in self.now) step) }
    {
        match step {
            Step::Split(label) | Step::Join(label) => self.is_on_two(label),
            _ => false,
        }
    }

    // Whether a statement lacks those that its label ties it to.
    fn is_unmatched(&self, step: Step) -> bool
        ensures { Decides result (Unmatched (steps_in self.now) step) }
    {
        match step {
            Step::Split(label) => !has_two(self.listed(), Step::When(label)),
            Step::When(label) => !has(self.listed(), Step::Split(label)),
            Step::Branch(label) => !has(self.listed(), Step::Join(label)),
            Step::Join(label) => !has(self.listed(), Step::Branch(label)),
            _ => false,
        }
    }

    // The lowest statement whose own label breaks a rule.
    pub fn mislabelled(&self) -> Option<usize>
        ensures { Least (Mislabelled (steps_in self.now)) result }
    {
        self.listed()
            .iter()
            .position(|&step| self.clashes(step) || self.is_unmatched(step))
    }
}
