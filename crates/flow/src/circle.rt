// Circles: a statement that reaches itself.

ghost use Rattle.std.specs.Prelude.{◌≡◌, Decides};
ghost use Rattle.flow.specs.Flows.{steps_in};
ghost use Rattle.flow.specs.Least.{Least};
ghost use Rattle.flow.specs.Steps.{OnCircle};
ghost use Rattle.flow.specs.Circles.{reached as mark_reached, Spread, Pending};

use super::flow::{Flow, MOST_STEPS};

// What is known of a statement while it is found what another one reaches.
#[derive(Clone, Copy, Debug, PartialEq, Eq)]
enum Mark {
    Unseen,
    Seen,
    Done,
}

// A mark for each statement; an array, so that no search can fail for want of memory.
type Marks = [Mark; MOST_STEPS];

impl Mark {
    // The mark of a statement where control comes to it, or doesn't.
    fn reached(self, comes: bool) -> Mark
        ensures { result ≡ mark_reached self comes }
    {
        if comes && self == Mark::Unseen {
            Mark::Seen
        } else {
            self
        }
    }
}

impl Flow {
    // Marks the successors of a statement as seen. By their places: a chain over the marks would change what it goes over by what stands at two places of the flow.
    fn spread(&self, i: usize, marks: &mut Marks)
        ensures { Spread (steps_in self.now) i marks.old marks.new }
    {
        for j in self.candidates(i) {
            marks[j] = marks[j].reached(self.goes(i, j));
        }
    }

    // A statement that was seen and is not done.
    fn pending(&self, marks: &Marks) -> Option<usize>
        ensures { Pending (steps_in self.now) marks.now result }
    {
        (0..self.len()).find(|&j| marks[j] == Mark::Seen)
    }

    // Whether a statement reaches itself: all that it reaches is seen, each statement's successors once.
    fn is_circular(&self, i: usize) -> bool
        ensures { Decides result (OnCircle (steps_in self.now) i) }
    {
        let mut marks = [Mark::Unseen; MOST_STEPS];
        self.spread(i, &mut marks);
        while let Some(j) = self.pending(&marks) {
            marks[j] = Mark::Done;
            self.spread(j, &mut marks);
        }
        i < self.len() && marks[i] != Mark::Unseen
    }

    // The lowest statement that reaches itself.
    pub fn circular(&self) -> Option<usize>
        ensures { Least (OnCircle (steps_in self.now)) result }
    {
        (0..self.len()).find(|&i| self.is_circular(i))
    }
}
