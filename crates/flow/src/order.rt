// Order: which statement may stand after which.

ghost use Rattle.std.specs.Prelude.{Decides};
ghost use Rattle.flow.specs.Flows.{steps_in};
ghost use Rattle.flow.specs.Least.{Least};
ghost use Rattle.flow.specs.Orders.{Misplaced};

use super::flow::Flow;
use super::step::Step;

impl Flow {
    // Whether the statement at a place is out of order, or at the last place the end.
    fn is_misplaced(&self, i: usize) -> bool
        ensures { Decides result (Misplaced (steps_in self.now) i) }
    {
        if i == 0 {
            self.at(0) != Step::Break
        } else if i < self.len() {
            self.at(i - 1).closes() != self.at(i).opens()
        } else {
            i == self.len() && !self.at(i - 1).closes()
        }
    }

    // The lowest place that breaks the order; the end's is one past the last statement.
    pub fn misplaced(&self) -> Option<usize>
        ensures { Least (Misplaced (steps_in self.now)) result }
    {
        (0..self.len() + 1).find(|&i| self.is_misplaced(i))
    }
}
