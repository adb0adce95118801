// Counts: how many ways lead on from each statement to a REQUIRE, clipped.

ghost use Rattle.std.specs.Prelude.{◌≡◌, ℕ, ◌<◌, min, length, slice_index};
ghost use Rattle.flow.specs.Flows.{steps_in};
ghost use Rattle.flow.specs.Numbers.{onward};
ghost use Rattle.flow.specs.Counts.{sum_at, clipped, Counted};

use super::flow::{Flow, MOST_STEPS};
use super::step::Step;

// The most paths that a unit may have.
const MOST_PATHS: u32 = 65_536;

// Counts are clipped here, so that sums never overflow.
pub(super) const LIMIT: u32 = MOST_PATHS + 1;

// A count for each statement; an array, so that no count can fail for want of memory.
pub(super) type Counts = [u32; MOST_STEPS];

impl Flow {
    // The counts at the places to go to from a statement, or at the start, added up.
    pub(super) fn sum(&self, counts: &Counts, from: Option<usize>) -> u32
        ensures { result ≡ min (sum_at counts.now (onward (steps_in self.now) from)) LIMIT }
    {
        self.ahead(from)
            .filter(|&j| self.allows(from, j))
            .fold(0, |sum: u32, j| sum.saturating_add(counts[j]).min(LIMIT))
    }

    // A statement's count, from those of its successors.
    fn count_of(&self, counts: &Counts, i: usize) -> u32
        ensures { result ≡ clipped (steps_in self.now) counts.now i }
    {
        let here = u32::from(self.at(i) == Step::Require);
        self.sum(counts, Some(i)).saturating_add(here).min(LIMIT)
    }

    // Each statement's count anew, from the old ones. By the statements' own places: an array made by a closure would take a count for each of its places.
    fn sweep(&self, old: &Counts, new: &mut Counts)
        ensures { (k : ℕ) → k < length (steps_in self.now) → slice_index new.new k ≡ clipped (steps_in self.now) old.now k }
    {
        for i in 0..self.len() {
            new[i] = self.count_of(old, i);
        }
    }

    // Where no statement reaches itself, as many sweeps as statements see each way to its end.
    pub(super) fn counts(&self) -> Counts
        ensures { Counted (steps_in self.now) result }
    {
        let mut counts = [0; MOST_STEPS];
        for _sweep in 0..self.len() {
            let old = counts;
            self.sweep(&old, &mut counts);
        }
        counts
    }
}
