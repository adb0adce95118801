// Tallies: what an examination remembers of its calls.

ghost use Rattle.std.specs.Prelude.{◌≡◌, ◌<◌};
ghost use Rattle.examiner.specs.Tallies.{total, counted};

use sheets::outcome::Outcome;

#[derive(Clone, Copy, Debug, PartialEq, Eq)]
pub(super) struct Tally {
    pub(super) passed: usize,
    pub(super) failed: usize,
    pub(super) open: usize,
    // The lowest number of a condition that failed.
    pub(super) lowest: Option<usize>,
    // A slip is out.
    pub(super) out: bool,
}

impl Tally {
    // Of an examination in which nothing happened.
    pub(super) const EMPTY: Tally = Tally {
        passed: 0,
        failed: 0,
        open: 0,
        lowest: None,
        out: false,
    };

    // The slip that is out has been spent on its condition.
    pub(super) fn count(&mut self, number: usize, outcome: Outcome)
        requires { total self.old < 65536 }
        ensures { self.new ≡ counted self.old number outcome }
    {
        match outcome {
            Outcome::Passed => self.passed += 1,
            Outcome::Failed => {
                self.failed += 1;
                self.lowest = self.lowest.or(Some(number));
            }
            Outcome::Open => self.open += 1,
        }
        self.out = false;
    }
}
