// Steps: what the statements of a unit are to the flow of control.

ghost use Rattle.std.specs.Prelude.{◌≡◌, ◌≤◌, map, length};
ghost use Rattle.flow.specs.Flows.{steps_in};
ghost use Rattle.jcode.specs.declared.statement.TheConstants.{STATEMENT_LIMIT};
ghost use Rattle.checking.specs.Steps.{record_step};

use super::tables::UnitTables;
use flow::flow::Flow;
use flow::step::Step;
use jcode::statement::Statement;

// No `From`: both types are of crates below.
fn step_of(statement: Statement) -> Step
    ensures { result ≡ record_step statement }
{
    match statement {
        Statement::Hang => Step::Hang,
        Statement::Break { .. } => Step::Break,
        Statement::Require { .. } => Step::Require,
        Statement::Proclaim { .. } | Statement::New { .. } | Statement::Assign { .. } => {
            Step::Plain
        }
        Statement::Split { label } => Step::Split(label),
        Statement::When { label, .. } => Step::When(label),
        Statement::Branch { label, .. } => Step::Branch(label),
        Statement::Join { label } => Step::Join(label),
    }
}

impl UnitTables<'_> {
    pub(super) fn flow(&self) -> Flow
        requires { length self.now.statements.now ≤ STATEMENT_LIMIT }
        ensures { steps_in result ≡ map record_step self.now.statements.now }
    {
        let mut flow = Flow::new();
        // By a `for`: a chain's closure would change the flow that it captures.
        for statement in self.statements {
            flow.push(step_of(*statement)).unwrap();
        }
        flow
    }
}
