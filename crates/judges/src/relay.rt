// Relays: one judge after another.

ghost use Rattle.std.specs.Prelude.{◌≡◌, ◌≢◌, length, true};
ghost use Rattle.sheets.specs.Judges.{unsure, has_room, Replied};
ghost use Rattle.sheets.specs.Places.{cells_in, marks_for, says};
ghost use Rattle.judges.specs.Relays.{relayed, relay_sound, Relays};

use reckoning::mark::Mark;
use sheets::judge::{Answer, Judge};
use sheets::sheet::Sheet;

// It asks its first judge, and only where that one is unsure its second. Both are any judges, relays too.
#[derive(Debug, Drop, PartialEq, Eq)]
pub struct Relay<A, B> {
    pub first: A,
    pub second: B,
}

impl<A: Judge, B: Judge> Judge for Relay<A, B> {
    ghost meaning = { λ s c. relayed (A.meaning s.first c) (B.meaning s.second c) };

    ghost sound = { λ s. relay_sound (A.meaning s.first) (B.meaning s.second) (A.sound s.first) (B.sound s.second) };

    // The second judge stays as it was where there is room and the first is not unsure.
    fn ask(&mut self, sheet: &Sheet<'_>, valuation: &mut [i64], working: &mut [Mark]) -> Answer
        ensures same { ⟦<Relay<A, B> as Judge>⟧.meaning self.new ≡ ⟦<Relay<A, B> as Judge>⟧.meaning self.old }
        ensures replied { Replied (⟦<Relay<A, B> as Judge>⟧.meaning self.old (says sheet.now)) (length (cells_in sheet.now)) (marks_for sheet.now) valuation.old working.old result valuation.new working.new }
        ensures spared { has_room (length (cells_in sheet.now)) (marks_for sheet.now) valuation.old working.old ≡ true → A.meaning self.old.first (says sheet.now) ≢ unsure → self.new.second ≡ self.old.second }
    {
        match self.first.ask(sheet, valuation, working) {
            Answer::Unsure => self.second.ask(sheet, valuation, working),
            answer => answer,
        }
    }
}

// It answers what its first judge does, unless that is unsure, and then what its second does (docs/JUDGES.md).
pub fn relay_stands<A: Judge, B: Judge>(relay: &Relay<A, B>)
    ensures { Relays (A.meaning relay.now.first) (B.meaning relay.now.second) (⟦<Relay<A, B> as Judge>⟧.meaning relay.now) }
{}
