// Judges that stand in for others: one that counts, and one that proposes nonsense.

ghost use Rattle.judge_trials.specs.Doubles.{all_zero, zero_never_passes};

use reckoning::mark::Mark;
use sheets::judge::{Answer, Judge, clear, has_room};
use sheets::sheet::Sheet;

// Answers what its judge does, and counts how often it is asked.
#[derive(Drop)]
pub struct Counted<J> {
    pub judge: J,
    pub asked: u64,
}

impl<J: Judge> Judge for Counted<J> {
    ghost meaning = { λ s. J.meaning s.judge };

    ghost sound = { λ s. J.sound s.judge };

    fn ask(&mut self, sheet: &Sheet<'_>, valuation: &mut [i64], working: &mut [Mark]) -> Answer {
        self.asked = self.asked.saturating_add(1);
        self.judge.ask(sheet, valuation, working)
    }
}

// Proposes 0 for each cell, whatever its bounds.
#[derive(Drop)]
pub struct Zero;

impl Judge for Zero {
    ghost meaning = { λ _. all_zero };

    ghost sound = { λ _. zero_never_passes };

    fn ask(&mut self, sheet: &Sheet<'_>, valuation: &mut [i64], working: &mut [Mark]) -> Answer {
        if !has_room(sheet, valuation, working) {
            return Answer::Unsure;
        }
        clear(valuation, sheet.cells().len());
        Answer::Fail
    }
}
