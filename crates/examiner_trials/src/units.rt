// Units to examine.

use checking::unit::CheckedUnit;
use jcode::mention::UnitRow;
use jcode::reader::read;
use jcode::statement::Statement;
use jcode::variable::Variable;
use std::alloc::{AllocError, Global};
use std::process::Abort;
use terms::row::Row;

// Two paths; the second fails.
pub static LIMIT: &'static [u8] =
    b"BEGIN Limit\np : (variable (subrange 0 9))\nBREAK (/entry/)\nREQUIRE (gei! (p) (consti! 0)) (/low/)\nPROCLAIM (lei! (p) (consti! 7))\nASSIGN (p) (p) (true!) (addi! (p) (consti! 1))\nREQUIRE (lti! (p) (consti! 8)) (/high/)\nHANG\nEND\n";

// No path.
pub static IDLE: &'static [u8] = b"BEGIN Idle\nBREAK (//)\nHANG\nEND\n";

// Tables with room for each of these units.
#[derive(Drop)]
pub struct Tables {
    variables: [Variable; 4],
    statements: [Statement; 120],
    rows: [UnitRow; 120],
}

impl Tables {
    pub(super) fn new() -> Tables {
        Tables {
            variables: [Variable::default(); 4],
            statements: [Statement::default(); 120],
            rows: [Row::Constant(0); 120],
        }
    }
}

// The unit that the bytes hold, read and checked.
pub(super) fn checked<'a>(
    rt: &impl Abort,
    bytes: &'a [u8],
    tables: &'a mut Tables,
) -> CheckedUnit<'a> {
    let Ok(outline) = read(
        bytes,
        0,
        &mut tables.variables,
        &mut tables.statements,
        &mut tables.rows,
    ) else {
        panic!(rt; "it was not read");
    };
    let tables: &'a Tables = tables;
    let (Some(variables), Some(statements), Some(rows)) = (
        tables.variables.get(..outline.variables),
        tables.statements.get(..outline.statements),
        tables.rows.get(..outline.rows),
    ) else {
        panic!(rt; "it has more than its tables");
    };
    let mut unit = CheckedUnit::house();
    if unit
        .check(bytes, outline.name, variables, statements, rows)
        .is_err()
    {
        panic!(rt; "it broke a rule");
    }
    unit
}

// So many splits in a row, each with two ways on that join again.
pub fn branching(heap: Global, splits: usize) -> Result<Vec<u8>, AllocError> {
    let mut bytes = Vec::from_slice(heap, b"BEGIN Forks\nBREAK (//)\n")?;
    for i in 0..splits {
        let label = 1 + i % 1_000;
        let join = 1_001 + i % 1_000;
        let fork = format!(in heap;
            "SPLIT {label}\nWHEN (true!) {label}\nBRANCH (//) {join}\nWHEN (true!) {label}\nBRANCH (//) {join}\nJOIN {join}\n"
        )?;
        bytes.extend_from_slice(fork.as_bytes())?;
    }
    bytes.extend_from_slice(b"REQUIRE (true!) (//)\nHANG\nEND\n")?;
    Ok(bytes)
}
