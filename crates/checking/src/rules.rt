// The rules of the check, in their order.

ghost use Rattle.std.specs.Prelude.{◌≡◌, IfOk};
ghost use Rattle.flow.specs.Flows.{steps_in};
ghost use Rattle.jcode.specs.Units.{unit_of};
ghost use Rattle.checking.specs.Breaks.{steps_of, Checks, ruled};
ghost use Rattle.checking.specs.Held.{held};

use super::fault::CheckFault;
use super::tables::UnitTables;
use flow::paths::Paths;
use jcode::refusal::Refusal;
use reckoning::mark::ANY;

// A rule that is broken nowhere, or the lowest place where it is.
fn rule(refusal: Refusal, broken: Option<usize>) -> Result<(), CheckFault>
    ensures { result ≡ ruled refusal broken }
{
    broken.map_or(Ok(()), |place| Err(CheckFault::Rule { refusal, place }))
}

impl UnitTables<'_> {
    // The paths of the unit that they hold, if it keeps every rule.
    pub(super) fn keep_rules(&self) -> Result<Paths, CheckFault>
        ensures checks { Checks self.now.bytes.now self.now.name (held self.now) result }
        ensures paths { IfOk result (λ p. steps_in p.flow ≡ steps_of (unit_of self.now.bytes.now self.now.name (held self.now))) }
    {
        // A rule of the whole unit is told at place 0, here and for its paths: a refusal always has a place.
        if !self.are_readable() {
            return Err(CheckFault::Rule {
                refusal: Refusal::Tables,
                place: 0,
            });
        }
        let terms = self.terms();
        let flow = self.flow();
        rule(Refusal::Order, flow.misplaced())?;
        let wrong_kind = self.lowest_failing(None, |s, room| terms.kinds_kept(s, room));
        rule(Refusal::Kind, wrong_kind)?;
        rule(Refusal::Label, flow.mislabelled())?;
        rule(Refusal::Circle, flow.circular())?;
        let out_of_span = self.lowest_failing(ANY, |s, room| terms.span_kept(s, room));
        rule(Refusal::Range, out_of_span)?;
        Paths::of(flow).ok_or(CheckFault::Rule {
            refusal: Refusal::Paths,
            place: 0,
        })
    }
}
