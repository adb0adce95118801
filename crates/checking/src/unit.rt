// The checked unit: a unit that keeps every rule, so that all that stands above it asks nothing of its caller.

ghost use Rattle.std.specs.Prelude.{◌≡◌, ◌≤◌, length};
ghost use Rattle.flow.specs.Flows.{steps_in};
ghost use Rattle.flow.specs.Numbers.{paths, Numbered};
ghost use Rattle.flow.specs.Turns.{Starts, Follows};
ghost use Rattle.jcode.specs.ReadUnits.{tables as held_in};
ghost use Rattle.jcode.specs.Units.{unit_of};
ghost use Rattle.checking.specs.Breaks.{steps_of, path_limit, Unbroken};
ghost use Rattle.checking.specs.Held.{held};
ghost use Rattle.checking.specs.Types.{domains};
ghost use Rattle.std.specs.List.{slice_get};

use super::fault::CheckFault;
use super::tables::UnitTables;
use super::types::Types;
use flow::paths::Paths;
use flow::turn::Turn;
use jcode::mention::UnitRow;
use jcode::span::Span;
use jcode::statement::{Statement, Term};
use jcode::variable::{Domain, Variable};
use terms::operator::Operator;
use terms::row::Row;

// A place that a check fills; until then it holds the unit `House`.
#[derive(Clone, Copy, Debug, PartialEq, Eq)]
pub struct CheckedUnit<'a> {
    tables: UnitTables<'a>,
    paths: Paths,
    ghost unbroken: { Unbroken tables.bytes.now tables.name (held tables) },
    ghost walked: { steps_in paths.flow ≡ steps_of (unit_of tables.bytes.now tables.name (held tables)) },
}

// BREAK, REQUIRE (false!), HANG.
static HOUSE_NAME: [u8; 5] = *b"House";

static HOUSE_VARIABLES: [Variable; 0] = [];

static HOUSE_STATEMENTS: [Statement; 3] = [
    Statement::Break {
        text: Span {
            start: 0,
            length: 0,
        },
    },
    Statement::Require {
        condition: Term { first: 0, rows: 1 },
        text: Span {
            start: 0,
            length: 0,
        },
    },
    Statement::Hang,
];

static HOUSE_ROWS: [UnitRow; 1] = [Row::Operator(Operator::False)];

impl<'a> CheckedUnit<'a> {
    ghost use Rattle.checking.specs.CheckedUnits.{said, house, Fills};
    ghost use Rattle.checking.specs.Readings.{ChecksRead};

    pub fn house() -> CheckedUnit<'a>
        ensures { said result ≡ house }
    {
        CheckedUnit {
            tables: UnitTables {
                bytes: &HOUSE_NAME,
                name: Span {
                    start: 0,
                    length: 5,
                },
                variables: &HOUSE_VARIABLES,
                statements: &HOUSE_STATEMENTS,
                rows: &HOUSE_ROWS,
            },
            paths: Paths::house(),
        }
    }

    // Fills the place with the unit that the tables hold, if it keeps every rule.
    pub fn check(
        &mut self,
        bytes: &'a [u8],
        name: Span,
        variables: &'a [Variable],
        statements: &'a [Statement],
        rows: &'a [UnitRow],
    ) -> Result<(), CheckFault>
        ensures fills { Fills bytes.now name (held_in variables.now statements.now rows.now) self.old result self.new }
        ensures read { ChecksRead bytes.now name (held_in variables.now statements.now rows.now) result self.new }
    {
        let tables = UnitTables {
            bytes,
            name,
            variables,
            statements,
            rows,
        };
        let paths = tables.keep_rules()?;
        *self = CheckedUnit { tables, paths };
        Ok(())
    }

    // How many paths it has.
    pub fn paths(&self) -> usize
        ensures count { result ≡ length (paths (steps_of (said self.now))) }
        ensures few { result ≤ path_limit }
        ensures numbered { Numbered (steps_of (said self.now)) }
    {
        self.paths.count()
    }

    // The first turn of a path.
    pub fn path(&self, number: usize) -> Option<Turn>
        ensures { Starts (steps_of (said self.now)) number result }
    {
        self.paths.path(number)
    }

    // The turn after a turn, which may be one of another unit.
    pub fn after(&self, turn: Turn) -> Option<Turn>
        ensures { Follows (steps_of (said self.now)) turn result }
    {
        self.paths.after(turn)
    }

    // The bytes of its name.
    pub fn name(&self) -> &'a [u8]
        ensures { result.now ≡ (said self.now).name }
    {
        self.tables.name.of(self.tables.bytes)
    }

    // Its variables, statements and rows, as they stand in the tables that it was checked from.
    pub fn variables(&self) -> &'a [Variable]
        ensures { result.now ≡ self.now.tables.variables.now }
    {
        self.tables.variables
    }

    pub fn statements(&self) -> &'a [Statement]
        ensures { result.now ≡ self.now.tables.statements.now }
    {
        self.tables.statements
    }

    pub fn rows(&self) -> &'a [UnitRow]
        ensures { result.now ≡ self.now.tables.rows.now }
    {
        self.tables.rows
    }

    // The type of a variable, `None` for an unknown one.
    pub fn domain(&self, variable: usize) -> Option<Domain>
        ensures { result ≡ slice_get (domains (said self.now)) variable }
    {
        let types = Types {
            variables: self.tables.variables,
        };
        types.domain(variable)
    }
}
