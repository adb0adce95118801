// Successors: where control goes on from a statement.

ghost use Rattle.std.specs.Prelude.{◌≡◌, length};
ghost use Rattle.flow.specs.Steps.{at, leads};
ghost use Rattle.flow.specs.Flows.{steps_in};
ghost use Rattle.flow.specs.Numbers.{may};
ghost use Rattle.flow.specs.Counts.{Enclosed};

use super::flow::Flow;
use super::step::Step;
use std::ops::Range;

impl Flow {
    // Whether the statement at `j` is a successor of the one at `i`.
    pub(super) fn goes(&self, i: usize, j: usize) -> bool
        ensures { result ≡ leads i (at (steps_in self.now) i) j (at (steps_in self.now) j) }
    {
        self.at(i).leads(i, self.at(j), j)
    }

    // The places to look at for successors. A label can stand anywhere; all others go on to the next statement.
    pub(super) fn candidates(&self, i: usize) -> Range<usize>
        ensures { let u = steps_in self.now in Enclosed (λ j. leads i (at u i) j (at u j)) (length u) result.start result.end }
    {
        match self.at(i) {
            Step::Hang => 0..0,
            Step::Split(_) | Step::Branch(_) => 0..self.len(),
            _ => i + 1..self.len().min(i + 2),
        }
    }

    // Whether a path may go to `j`: at its start to a BREAK, then to a successor that is none.
    pub(super) fn allows(&self, from: Option<usize>, j: usize) -> bool
        ensures { result ≡ may (steps_in self.now) from j }
    {
        let is_break = self.at(j) == Step::Break;
        from.map_or(is_break, |i| !is_break && self.goes(i, j))
    }

    // The places to look at for where a path may go.
    pub(super) fn ahead(&self, from: Option<usize>) -> Range<usize>
        ensures { Enclosed (may (steps_in self.now) from) (length (steps_in self.now)) result.start result.end }
    {
        from.map_or(0..self.len(), |i| self.candidates(i))
    }
}
