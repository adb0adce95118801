// Examinations: the conditions of a checked unit are settled one after another, each by a judge of the caller's choice.

ghost use Rattle.std.specs.Prelude.{◌≡◌, ◌<◌, ◌≤◌, true};
ghost use Rattle.checking.specs.CheckedUnits.{said};
ghost use Rattle.examiner.specs.Steps.{path_count};
ghost use Rattle.examiner.specs.Tallies.{total, Reached};

use super::slip::{Returned, Slip};
use super::tally::Tally;
use super::verdict::{Judgement, Verdict};
use checking::unit::CheckedUnit;
use jcode::refusal::Refusal;
use sheets::desk::Desk;
use sheets::fault::SheetFault;
use sheets::judge::Judge;
use sheets::outcome::Outcome;
use sheets::settling::settle;

// It remembers no more than its tally, and yet some history of calls led to it.
#[derive(Drop)]
pub struct Examination<'a> {
    unit: CheckedUnit<'a>,
    tag: u64,
    tally: Tally,
    ghost few: { total tally ≤ path_count (said unit) },
    ghost left: { (tally.out ≡ true → total tally < path_count (said unit)) },
    ghost reached: { Reached (said unit) tag tally },
}

impl<'a> Examination<'a> {
    ghost use Rattle.std.specs.Prelude.{◌↔◌, [], Some, IsTrue, OnErr};
    ghost use Rattle.examiner.specs.Histories.{took, settled, handed_back, told, out};
    ghost use Rattle.examiner.specs.Lives.{Leads, Goes, Promised};
    ghost use Rattle.sheets.specs.Settling.{on};
    ghost use Rattle.examiner.specs.Tallies.{IsDue, judgement_by};

    pub fn new(unit: CheckedUnit<'a>, tag: u64) -> Examination<'a>
        ensures { Leads (said unit.entry) tag [] result }
    {
        Examination {
            unit,
            tag,
            tally: Tally::EMPTY,
        }
    }

    // How many conditions are settled: the number of the next one.
    fn settled(&self) -> usize
        ensures { result ≡ total self.now.tally }
    {
        self.tally.passed + self.tally.failed + self.tally.open
    }

    // The slip of the next condition.
    pub fn take(&mut self) -> Result<Slip, SheetFault>
        ensures { Goes (took result) self.old self.new }
    {
        let number = self.settled();
        if self.unit.paths() <= number {
            return Err(Refusal::Condition.into());
        }
        if self.tally.out {
            return Err(Refusal::SlipOut.into());
        }
        self.tally.out = true;
        Ok(Slip::new(self.tag, number))
    }

    fn is_out(&self, slip: &Slip) -> bool
        ensures { IsTrue result ↔ IsDue self.now.tag self.now.tally slip.now }
    {
        self.tally.out && slip.tag() == self.tag && slip.number() == self.settled()
    }

    // Has a judge settle the slip's condition on a desk. A slip that is not taken comes back, and all stays as it was.
    pub fn settle<J: Judge>(
        &mut self,
        slip: Slip,
        judge: &mut J,
        desk: &mut Desk<'_>,
    ) -> Result<Outcome, Returned>
        ensures same { J.meaning judge.new ≡ J.meaning judge.old }
        ensures refused { OnErr result (judge.new ≡ judge.old) }
        ensures lent_rows { desk.new.rows.ghost_name ≡ desk.old.rows.ghost_name }
        ensures lent_parts { desk.new.parts.ghost_name ≡ desk.old.parts.ghost_name }
        ensures lent_cells { desk.new.cells.ghost_name ≡ desk.old.cells.ghost_name }
        ensures lent_valuation { desk.new.valuation.ghost_name ≡ desk.old.valuation.ghost_name }
        ensures lent_working { desk.new.working.ghost_name ≡ desk.old.working.ghost_name }
        ensures next { Goes (settled (J.meaning judge.old) slip (on desk.old) result (on desk.new)) self.old self.new }
    {
        if !self.is_out(&slip) {
            return Err(Returned {
                slip,
                fault: Refusal::Slip.into(),
            });
        }
        let number = slip.number();
        match settle(&self.unit, number, judge, desk) {
            Ok(outcome) => {
                slip.spend();
                self.tally.count(number, outcome);
                Ok(outcome)
            }
            Err(fault) => Err(Returned { slip, fault }),
        }
    }

    // Settles nothing: the condition will be taken again.
    pub fn hand_back(&mut self, slip: Slip) -> Result<(), Returned>
        ensures { Goes (handed_back slip result) self.old self.new }
    {
        if !self.is_out(&slip) {
            return Err(Returned {
                slip,
                fault: Refusal::Slip.into(),
            });
        }
        slip.spend();
        self.tally.out = false;
        Ok(())
    }

    fn judgement(&self) -> Judgement
        ensures { result ≡ judgement_by (said self.now.unit) self.now.tally }
    {
        if let Some(number) = self.tally.lowest {
            Judgement::Failed(number)
        } else if self.settled() < self.unit.paths() {
            Judgement::Unfinished
        } else if self.tally.open > 0 {
            Judgement::Open
        } else {
            Judgement::Cleared
        }
    }

    // What all calls so far come to.
    pub fn verdict(&self) -> Verdict
        ensures next { Goes (told result) self.now self.now }
        ensures promised { Promised self.now result }
    {
        Verdict {
            passed: self.tally.passed,
            failed: self.tally.failed,
            open: self.tally.open,
            judgement: self.judgement(),
        }
    }
}
