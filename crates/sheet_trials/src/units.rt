// Units that the trials write sheets of, and how they are read and checked.

use checking::unit::CheckedUnit;
use jcode::mention::UnitRow;
use jcode::reader::{Outline, read};
use jcode::statement::Statement;
use jcode::variable::Variable;
use terms::part::part;
use terms::row::Row;

pub(super) const LIMIT: &'static [u8] =
    b"BEGIN Limit\np : (variable (subrange 0 9))\nBREAK (/entry/)\nREQUIRE (gei! (p) (consti! 0)) (/low/)\nPROCLAIM (lei! (p) (consti! 7))\nASSIGN (p) (p) (true!) (addi! (p) (consti! 1))\nREQUIRE (lti! (p) (consti! 8)) (/high/)\nHANG\nEND\n";

// One whose last REQUIRE hangs on what a NEW gave.
pub(super) const RAISED: &'static [u8] =
    b"BEGIN Raised\np : (variable (subrange 0 9))\nBREAK (//)\nNEW (p) (lei! (p) (new! p)) (//)\nSPLIT 1\nWHEN (defined! p) 1\nREQUIRE (gei! (p) (consti! 5)) (//)\nHANG\nWHEN (true!) 1\nHANG\nEND\n";

// One that lists its variables in a NEW the other way round, and then assigns both.
pub(super) const STEPS: &'static [u8] =
    b"BEGIN Steps\nq : (variable (integer))\non : (variable (boolean))\nBREAK (//)\nNEW (on q) (implies! (new! on) (lti! (q) (new! q))) (//)\nASSIGN (q) (q) (defined! on) (subi! (q) (consti! 1))\nASSIGN (on) (on) (defined! q) (lti! (q) (consti! 0))\nREQUIRE (on) (//)\nHANG\nEND\n";

// A SPLIT of two ways, of which one has a REQUIRE of its own.
pub(super) const FORK: &'static [u8] =
    b"BEGIN Fork\np : (variable (subrange 0 9))\nBREAK (//)\nSPLIT 1\nWHEN (lti! (p) (consti! 5)) 1\nBRANCH (//) 2\nWHEN (gei! (p) (consti! 5)) 1\nREQUIRE (lti! (p) (consti! 8)) (//)\nBRANCH (//) 2\nJOIN 2\nREQUIRE (lti! (p) (consti! 9)) (//)\nHANG\nEND\n";

// A PROCLAIM ahead of a BREAK.
pub(super) const TWICE: &'static [u8] =
    b"BEGIN Twice\np : (variable (subrange 0 9))\nBREAK (//)\nPROCLAIM (false!)\nBREAK (//)\nREQUIRE (lti! (p) (consti! 9)) (//)\nHANG\nEND\n";

// An ASSIGN past its type's bound.
pub(super) const PAST: &'static [u8] =
    b"BEGIN Past\np : (variable (subrange 0 9))\nBREAK (//)\nASSIGN (p) (p) (true!) (consti! 10)\nREQUIRE (false!) (//)\nHANG\nEND\n";

// A unit that was read, with the tables that hold it.
#[derive(Drop)]
pub(super) struct Held<'a> {
    bytes: &'a [u8],
    outline: Outline,
    variables: [Variable; 2],
    statements: [Statement; 10],
    rows: [UnitRow; 16],
}

impl<'a> Held<'a> {
    pub(super) fn read(bytes: &'a [u8]) -> Option<Held<'a>> {
        let mut variables = [Variable::default(); 2];
        let mut statements = [Statement::default(); 10];
        let mut rows: [UnitRow; 16] = [Row::Constant(0); 16];
        let outline = read(bytes, 0, &mut variables, &mut statements, &mut rows).ok()?;
        Some(Held {
            bytes,
            outline,
            variables,
            statements,
            rows,
        })
    }

    pub(super) fn checked(&self) -> Option<CheckedUnit<'_>> {
        let mut unit = CheckedUnit::house();
        unit.check(
            self.bytes,
            self.outline.name,
            part(&self.variables, 0, self.outline.variables),
            part(&self.statements, 0, self.outline.statements),
            part(&self.rows, 0, self.outline.rows),
        )
        .ok()?;
        Some(unit)
    }
}
