// Steps: what a statement is to the flow of control.

ghost use Rattle.std.specs.Prelude.{◌≡◌};
ghost use Rattle.flow.specs.Steps.{opens as opens_block, closes as closes_block, leads as leads_to};

// A plain step only goes on to the next; labels tie the others together.
#[derive(Clone, Copy, Debug, PartialEq, Eq)]
pub enum Step {
    Hang,
    Break,
    Require,
    Plain,
    Split(u16),
    When(u16),
    Branch(u16),
    Join(u16),
}

impl Step {
    // Whether it opens a block, after one that was closed.
    pub(super) fn opens(self) -> bool
        ensures { result ≡ opens_block self }
    {
        matches!(self, Step::When(_) | Step::Join(_))
    }

    // Whether it closes its block.
    pub(super) fn closes(self) -> bool
        ensures { result ≡ closes_block self }
    {
        matches!(self, Step::Split(_) | Step::Branch(_) | Step::Hang)
    }

    // Whether control goes on from this step, at place `i`, to a step at place `j`.
    pub(super) fn leads(self, i: usize, to: Step, j: usize) -> bool
        ensures { result ≡ leads_to i self j to }
    {
        match self {
            Step::Hang => false,
            Step::Split(label) => to == Step::When(label),
            Step::Branch(label) => to == Step::Join(label),
            _ => i.checked_add(1) == Some(j),
        }
    }
}
