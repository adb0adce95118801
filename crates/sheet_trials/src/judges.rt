// Judges that keep state, borrow or propose nonsense: each meets the trait.

ghost use Rattle.std.specs.Prelude.{◌≡◌, min, length, take, drop, replicate, pos};
ghost use Rattle.sheet_trials.specs.Trying.{never_knows, never_passes, all_seven, seven_never_passes, proposes, proposer_never_passes};

use reckoning::mark::{ANY, Mark};
use sheets::judge::{Answer, Judge, clear, has_room};
use sheets::sheet::Sheet;

// Never knows, and counts how often it is asked.
#[derive(Drop)]
pub(super) struct Counting {
    pub(super) asked: u64,
}

impl Judge for Counting {
    ghost meaning = { λ _. never_knows };

    ghost sound = { λ _. never_passes };

    fn ask(&mut self, sheet: &Sheet<'_>, valuation: &mut [i64], working: &mut [Mark]) -> Answer {
        self.asked = self.asked.saturating_add(1);
        if has_room(sheet, valuation, working) {
            clear(valuation, sheet.cells().len());
        }
        Answer::Unsure
    }
}

// Proposes 7 for each cell, whatever its bounds.
#[derive(Drop)]
pub(super) struct Seven;

fn write_sevens(valuation: &mut [i64], cells: usize)
    ensures written { take cells valuation.new ≡ replicate (min cells (length valuation.old)) (pos 7) }
    ensures rest { drop cells valuation.new ≡ drop cells valuation.old }
{
    for place in 0..cells.min(valuation.len()) {
        valuation[place] = 7;
    }
}

impl Judge for Seven {
    ghost meaning = { λ _. all_seven };

    ghost sound = { λ _. seven_never_passes };

    fn ask(&mut self, sheet: &Sheet<'_>, valuation: &mut [i64], working: &mut [Mark]) -> Answer {
        if !has_room(sheet, valuation, working) {
            return Answer::Unsure;
        }
        write_sevens(valuation, sheet.cells().len());
        Answer::Fail
    }
}

// Proposes these numbers for each sheet of four cells.
#[derive(Drop)]
pub(super) struct Proposing {
    pub(super) numbers: [i64; 4],
}

impl Judge for Proposing {
    ghost meaning = { λ s. proposes s.numbers };

    ghost sound = { λ s. proposer_never_passes s.numbers };

    fn ask(&mut self, sheet: &Sheet<'_>, valuation: &mut [i64], working: &mut [Mark]) -> Answer {
        if !has_room(sheet, valuation, working) {
            return Answer::Unsure;
        }
        if sheet.cells().len() != 4 {
            clear(valuation, sheet.cells().len());
            return Answer::Unsure;
        }
        valuation[..4].copy_from_slice(&self.numbers);
        Answer::Fail
    }
}

// A judge that is lent.
#[derive(Drop)]
pub(super) struct Lent<'a, J> {
    pub(super) judge: &'a mut J,
}

impl<'a, J: Judge> Judge for Lent<'a, J> {
    ghost meaning = { λ s. J.meaning s.judge.now };

    ghost sound = { λ s. J.sound s.judge.now };

    fn ask(&mut self, sheet: &Sheet<'_>, valuation: &mut [i64], working: &mut [Mark]) -> Answer {
        self.judge.ask(sheet, valuation, working)
    }
}

// Through its bound, as every caller asks.
fn asked<J: Judge>(judge: &mut J, valuation: &mut [i64], marks: usize) -> Answer {
    let mut working = [ANY; 4];
    let marks = marks.min(4);
    judge.ask(&Sheet::unfilled(), valuation, &mut working[..marks])
}

#[test]
fn a_judge_keeps_state_and_is_lent(rt: HostRuntime) {
    let mut counting = Counting { asked: 0 };
    let mut valuation = [5, 6];
    assert!(rt; asked(&mut counting, &mut valuation, 1) == Answer::Unsure);
    let mut lent = Lent {
        judge: &mut counting,
    };
    assert!(rt; asked(&mut lent, &mut valuation, 1) == Answer::Unsure);
    assert!(rt; counting.asked == 2);
    assert!(rt; valuation == [5, 6]);
}

#[test]
fn a_judge_proposes_nonsense(rt: HostRuntime) {
    let mut valuation = [5, 6];
    assert!(rt; asked(&mut Seven, &mut valuation, 1) == Answer::Fail);
    assert!(rt; asked(&mut Seven, &mut valuation, 0) == Answer::Unsure);
    assert!(rt; valuation == [5, 6]);
}
