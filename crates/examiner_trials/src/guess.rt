// Guesses: judges that propose numbers out of the air.

ghost use Rattle.examiner_trials.specs.Guesses.{guessed, guess_sound};

use reckoning::mark::Mark;
use sheets::judge::{Answer, Judge};
use sheets::sheet::Sheet;

// It proposes the front of these for every sheet that has so many cells at most, whatever it says.
#[derive(Clone, Copy, Debug, PartialEq, Eq)]
pub struct Guess {
    pub numbers: [i64; 4],
}

impl Judge for Guess {
    ghost meaning = { λ s c. guessed s.numbers c };

    ghost sound = { λ s. guess_sound s.numbers };

    fn ask(&mut self, sheet: &Sheet<'_>, valuation: &mut [i64], working: &mut [Mark]) -> Answer {
        let cells = sheet.cells().len();
        if valuation.len() < cells || working.len() < cells + sheet.rows().len() {
            return Answer::Unsure;
        }
        match self.numbers.get(..cells) {
            Some(numbers) => {
                valuation[..cells].copy_from_slice(numbers);
                Answer::Fail
            }
            None => {
                valuation[..cells].fill(0);
                Answer::Unsure
            }
        }
    }
}
