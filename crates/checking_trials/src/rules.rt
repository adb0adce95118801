// Units that break a rule, with its number and the statement that is told.

use checking::fault::CheckFault;
use checking::unit::CheckedUnit;
use jcode::mention::{ROW_LIMIT, UnitRow};
use jcode::reader::{Outline, read};
use jcode::refusal::{ReadFault, Refusal};
use jcode::statement::{STATEMENT_LIMIT, Statement};
use jcode::variable::{VARIABLE_LIMIT, Variable};
use std::process::Abort;
use std::test::Fail;
use terms::row::Row;

// Bytes, and the rule and statement of their refusal.
static REFUSED: [(&'static [u8], u8, usize); 81] = [
    // order: no statement at all
    (b"BEGIN U\nEND\n", 7, 0),
    // a first statement that is no BREAK
    (b"BEGIN U\nHANG\nEND\n", 7, 0),
    // nor may one that opens a block come first
    (b"BEGIN U\nJOIN 1\nHANG\nEND\n", 7, 0),
    // WHEN in an open block
    (b"BEGIN U\nBREAK (//)\nWHEN (true!) 1\nHANG\nEND\n", 7, 1),
    // JOIN in an open block
    (
        b"BEGIN U\nBREAK (//)\nREQUIRE (true!) (//)\nJOIN 1\nHANG\nEND\n",
        7,
        2,
    ),
    // JOIN right after the JOIN that opens its block
    (
        b"BEGIN U\nBREAK (//)\nBRANCH (//) 1\nJOIN 1\nJOIN 1\nHANG\nEND\n",
        7,
        3,
    ),
    // BREAK after a closed block
    (b"BEGIN U\nBREAK (//)\nHANG\nBREAK (//)\nHANG\nEND\n", 7, 2),
    // REQUIRE after SPLIT
    (
        b"BEGIN U\nBREAK (//)\nSPLIT 1\nREQUIRE (true!) (//)\nHANG\nEND\n",
        7,
        2,
    ),
    // PROCLAIM after BRANCH
    (
        b"BEGIN U\nBREAK (//)\nBRANCH (//) 1\nPROCLAIM (true!)\nHANG\nEND\n",
        7,
        2,
    ),
    // NEW after HANG
    (
        b"BEGIN U\nBREAK (//)\nHANG\nNEW () (true!) (//)\nHANG\nEND\n",
        7,
        2,
    ),
    // ASSIGN after HANG
    (
        b"BEGIN U\np : (variable (subrange 0 9))\nq : (variable (boolean))\nBREAK (//)\nHANG\nASSIGN (q) (q) (true!) (true!)\nHANG\nEND\n",
        7,
        2,
    ),
    // SPLIT after HANG
    (b"BEGIN U\nBREAK (//)\nHANG\nSPLIT 1\nEND\n", 7, 2),
    // BRANCH after SPLIT
    (b"BEGIN U\nBREAK (//)\nSPLIT 1\nBRANCH (//) 1\nEND\n", 7, 2),
    // HANG after HANG
    (b"BEGIN U\nBREAK (//)\nHANG\nHANG\nEND\n", 7, 2),
    // the end in the first block
    (b"BEGIN U\nBREAK (//)\nEND\n", 7, 1),
    // the end in a block that WHEN opens
    (
        b"BEGIN U\nBREAK (//)\nSPLIT 1\nWHEN (true!) 1\nHANG\nWHEN (true!) 1\nEND\n",
        7,
        5,
    ),
    // the end in a block that JOIN opens
    (
        b"BEGIN U\nBREAK (//)\nBRANCH (//) 1\nJOIN 1\nREQUIRE (true!) (//)\nEND\n",
        7,
        4,
    ),
    // kinds: REQUIRE of a number
    (
        b"BEGIN U\np : (variable (subrange 0 9))\nq : (variable (boolean))\nBREAK (//)\nREQUIRE (p) (//)\nHANG\nEND\n",
        8,
        1,
    ),
    // PROCLAIM of a number
    (
        b"BEGIN U\np : (variable (subrange 0 9))\nq : (variable (boolean))\nBREAK (//)\nPROCLAIM (consti! 1)\nHANG\nEND\n",
        8,
        1,
    ),
    // NEW of a number
    (
        b"BEGIN U\np : (variable (subrange 0 9))\nq : (variable (boolean))\nBREAK (//)\nNEW (p) (new! p) (//)\nHANG\nEND\n",
        8,
        1,
    ),
    // WHEN of a number
    (
        b"BEGIN U\np : (variable (subrange 0 9))\nq : (variable (boolean))\nBREAK (//)\nSPLIT 1\nWHEN (q) 1\nHANG\nWHEN (p) 1\nHANG\nEND\n",
        8,
        4,
    ),
    // a shadow that is a number
    (
        b"BEGIN U\np : (variable (subrange 0 9))\nq : (variable (boolean))\nBREAK (//)\nASSIGN (p) (p) (p) (p)\nHANG\nEND\n",
        8,
        1,
    ),
    // a truth for a number's variable
    (
        b"BEGIN U\np : (variable (subrange 0 9))\nq : (variable (boolean))\nBREAK (//)\nASSIGN (p) (p) (true!) (q)\nHANG\nEND\n",
        8,
        1,
    ),
    // a shadow is a truth, also that of a number's variable
    (
        b"BEGIN U\np : (variable (subrange 0 9))\nq : (variable (boolean))\nBREAK (//)\nASSIGN (p) (p) (true!) (defined! p)\nHANG\nEND\n",
        8,
        1,
    ),
    // a number for a truth's variable
    (
        b"BEGIN U\np : (variable (subrange 0 9))\nq : (variable (boolean))\nBREAK (//)\nASSIGN (q) (q) (true!) (p)\nHANG\nEND\n",
        8,
        1,
    ),
    // 1 is no truth
    (
        b"BEGIN U\np : (variable (subrange 0 9))\nq : (variable (boolean))\nBREAK (//)\nASSIGN (q) (q) (true!) (consti! 1)\nHANG\nEND\n",
        8,
        1,
    ),
    // not! of a number
    (
        b"BEGIN U\np : (variable (subrange 0 9))\nq : (variable (boolean))\nBREAK (//)\nREQUIRE (not! (p)) (//)\nHANG\nEND\n",
        8,
        1,
    ),
    // a number ahead of a truth
    (
        b"BEGIN U\np : (variable (subrange 0 9))\nq : (variable (boolean))\nBREAK (//)\nREQUIRE (and! (p) (q)) (//)\nHANG\nEND\n",
        8,
        1,
    ),
    // a number after a truth
    (
        b"BEGIN U\np : (variable (subrange 0 9))\nq : (variable (boolean))\nBREAK (//)\nREQUIRE (implies! (q) (p)) (//)\nHANG\nEND\n",
        8,
        1,
    ),
    // a truth that is compared
    (
        b"BEGIN U\np : (variable (subrange 0 9))\nq : (variable (boolean))\nBREAK (//)\nREQUIRE (lti! (q) (p)) (//)\nHANG\nEND\n",
        8,
        1,
    ),
    // a truth that is compared with
    (
        b"BEGIN U\np : (variable (subrange 0 9))\nq : (variable (boolean))\nBREAK (//)\nREQUIRE (gei! (p) (q)) (//)\nHANG\nEND\n",
        8,
        1,
    ),
    // odd! of a truth
    (
        b"BEGIN U\np : (variable (subrange 0 9))\nq : (variable (boolean))\nBREAK (//)\nREQUIRE (odd! (q)) (//)\nHANG\nEND\n",
        8,
        1,
    ),
    // a truth that is negated as a number
    (
        b"BEGIN U\np : (variable (subrange 0 9))\nq : (variable (boolean))\nBREAK (//)\nASSIGN (p) (p) (true!) (negi! (q))\nHANG\nEND\n",
        8,
        1,
    ),
    // a truth that is added
    (
        b"BEGIN U\np : (variable (subrange 0 9))\nq : (variable (boolean))\nBREAK (//)\nASSIGN (p) (p) (true!) (addi! (p) (q))\nHANG\nEND\n",
        8,
        1,
    ),
    // equal! of two kinds
    (
        b"BEGIN U\np : (variable (subrange 0 9))\nq : (variable (boolean))\nBREAK (//)\nREQUIRE (equal! (p) (q)) (//)\nHANG\nEND\n",
        8,
        1,
    ),
    // notequal! of two kinds
    (
        b"BEGIN U\np : (variable (subrange 0 9))\nq : (variable (boolean))\nBREAK (//)\nREQUIRE (notequal! (q) (p)) (//)\nHANG\nEND\n",
        8,
        1,
    ),
    // if! on a number
    (
        b"BEGIN U\np : (variable (subrange 0 9))\nq : (variable (boolean))\nBREAK (//)\nREQUIRE (if! (p) (q) (q)) (//)\nHANG\nEND\n",
        8,
        1,
    ),
    // if! with branches of two kinds
    (
        b"BEGIN U\np : (variable (subrange 0 9))\nq : (variable (boolean))\nBREAK (//)\nREQUIRE (if! (q) (q) (p)) (//)\nHANG\nEND\n",
        8,
        1,
    ),
    // if! with branches of two kinds, turned
    (
        b"BEGIN U\np : (variable (subrange 0 9))\nq : (variable (boolean))\nBREAK (//)\nASSIGN (p) (p) (true!) (if! (q) (q) (p))\nHANG\nEND\n",
        8,
        1,
    ),
    // if! that gives a number where a truth is due
    (
        b"BEGIN U\np : (variable (subrange 0 9))\nq : (variable (boolean))\nBREAK (//)\nREQUIRE (if! (q) (p) (p)) (//)\nHANG\nEND\n",
        8,
        1,
    ),
    // a wrong operand deep within
    (
        b"BEGIN U\np : (variable (subrange 0 9))\nq : (variable (boolean))\nBREAK (//)\nPROCLAIM (not! (and! (q) (or! (q) (not! (p)))))\nHANG\nEND\n",
        8,
        1,
    ),
    // labels: one on two SPLITs
    (
        b"BEGIN U\nBREAK (//)\nSPLIT 1\nWHEN (true!) 1\nHANG\nWHEN (true!) 1\nSPLIT 1\nEND\n",
        9,
        1,
    ),
    // one on two JOINs
    (
        b"BEGIN U\nBREAK (//)\nBRANCH (//) 1\nJOIN 1\nHANG\nJOIN 1\nHANG\nEND\n",
        9,
        2,
    ),
    // one on a SPLIT and a JOIN
    (
        b"BEGIN U\nBREAK (//)\nSPLIT 1\nWHEN (true!) 1\nBRANCH (//) 1\nWHEN (true!) 1\nBRANCH (//) 1\nJOIN 1\nHANG\nEND\n",
        9,
        1,
    ),
    // one on a JOIN and a SPLIT after it
    (
        b"BEGIN U\nBREAK (//)\nBRANCH (//) 1\nJOIN 1\nSPLIT 1\nWHEN (true!) 1\nHANG\nWHEN (true!) 1\nHANG\nEND\n",
        9,
        2,
    ),
    // SPLIT with no WHEN
    (b"BEGIN U\nBREAK (//)\nSPLIT 1\nEND\n", 9, 1),
    // SPLIT with one WHEN
    (
        b"BEGIN U\nBREAK (//)\nSPLIT 1\nWHEN (true!) 1\nHANG\nEND\n",
        9,
        1,
    ),
    // SPLIT whose second WHEN has another label
    (
        b"BEGIN U\nBREAK (//)\nSPLIT 1\nWHEN (true!) 1\nHANG\nWHEN (true!) 2\nHANG\nEND\n",
        9,
        1,
    ),
    // WHEN with no SPLIT
    (
        b"BEGIN U\nBREAK (//)\nHANG\nWHEN (true!) 1\nHANG\nEND\n",
        9,
        2,
    ),
    // WHEN with a JOIN's label
    (
        b"BEGIN U\nBREAK (//)\nBRANCH (//) 1\nJOIN 1\nHANG\nWHEN (true!) 1\nHANG\nEND\n",
        9,
        4,
    ),
    // BRANCH with no JOIN
    (b"BEGIN U\nBREAK (//)\nBRANCH (//) 1\nEND\n", 9, 1),
    // BRANCH with a SPLIT's label
    (
        b"BEGIN U\nBREAK (//)\nSPLIT 1\nWHEN (true!) 1\nHANG\nWHEN (true!) 1\nBRANCH (//) 1\nEND\n",
        9,
        5,
    ),
    // JOIN with no BRANCH
    (b"BEGIN U\nBREAK (//)\nHANG\nJOIN 1\nHANG\nEND\n", 9, 2),
    // JOIN with a SPLIT's WHENs and no BRANCH
    (
        b"BEGIN U\nBREAK (//)\nSPLIT 1\nWHEN (true!) 1\nHANG\nWHEN (true!) 1\nHANG\nJOIN 2\nHANG\nEND\n",
        9,
        6,
    ),
    // circles: back to the JOIN that opens the block
    (
        b"BEGIN U\nBREAK (//)\nBRANCH (//) 1\nJOIN 1\nBRANCH (//) 1\nEND\n",
        10,
        2,
    ),
    // of two JOINs
    (
        b"BEGIN U\nBREAK (//)\nBRANCH (//) 1\nJOIN 1\nBRANCH (//) 2\nJOIN 2\nBRANCH (//) 1\nEND\n",
        10,
        2,
    ),
    // through a SPLIT
    (
        b"BEGIN U\nBREAK (//)\nBRANCH (//) 1\nJOIN 1\nSPLIT 2\nWHEN (true!) 2\nBRANCH (//) 1\nWHEN (true!) 2\nHANG\nEND\n",
        10,
        2,
    ),
    // through a BREAK
    (
        b"BEGIN U\nBREAK (//)\nBRANCH (//) 1\nJOIN 1\nBREAK (//)\nBRANCH (//) 1\nEND\n",
        10,
        2,
    ),
    // through a REQUIRE
    (
        b"BEGIN U\nBREAK (//)\nBRANCH (//) 1\nJOIN 1\nREQUIRE (true!) (//)\nBRANCH (//) 1\nEND\n",
        10,
        2,
    ),
    // where no BREAK leads
    (
        b"BEGIN U\nBREAK (//)\nHANG\nJOIN 1\nBRANCH (//) 1\nEND\n",
        10,
        2,
    ),
    // one that a straight way leads to
    (
        b"BEGIN U\nBREAK (//)\nSPLIT 1\nWHEN (true!) 1\nSPLIT 2\nWHEN (true!) 1\nHANG\nWHEN (true!) 2\nBRANCH (//) 3\nWHEN (true!) 2\nHANG\nJOIN 3\nREQUIRE (true!) (//)\nBRANCH (//) 3\nEND\n",
        10,
        10,
    ),
    // ranges: REQUIRE
    (
        b"BEGIN U\nn : (variable (subrange 0 2000000000))\ni : (variable (integer))\nq : (variable (boolean))\nBREAK (//)\nREQUIRE (lti! (addi! (n) (consti! 1)) (n)) (//)\nHANG\nEND\n",
        11,
        1,
    ),
    // PROCLAIM
    (
        b"BEGIN U\nn : (variable (subrange 0 2000000000))\ni : (variable (integer))\nq : (variable (boolean))\nBREAK (//)\nPROCLAIM (lti! (addi! (n) (consti! 1)) (n))\nHANG\nEND\n",
        11,
        1,
    ),
    // NEW, whose new values have their types' bounds too
    (
        b"BEGIN U\nn : (variable (subrange 0 2000000000))\ni : (variable (integer))\nq : (variable (boolean))\nBREAK (//)\nNEW (n) (lti! (addi! (new! n) (consti! 1)) (n)) (//)\nHANG\nEND\n",
        11,
        1,
    ),
    // WHEN
    (
        b"BEGIN U\nn : (variable (subrange 0 2000000000))\ni : (variable (integer))\nq : (variable (boolean))\nBREAK (//)\nSPLIT 1\nWHEN (true!) 1\nHANG\nWHEN (lti! (addi! (n) (consti! 1)) (n)) 1\nHANG\nEND\n",
        11,
        4,
    ),
    // a shadow
    (
        b"BEGIN U\nn : (variable (subrange 0 2000000000))\ni : (variable (integer))\nq : (variable (boolean))\nBREAK (//)\nASSIGN (n) (n) (lti! (addi! (n) (consti! 1)) (n)) (n)\nHANG\nEND\n",
        11,
        1,
    ),
    // a new value
    (
        b"BEGIN U\nn : (variable (subrange 0 2000000000))\ni : (variable (integer))\nq : (variable (boolean))\nBREAK (//)\nASSIGN (n) (n) (true!) (addi! (n) (consti! 1))\nHANG\nEND\n",
        11,
        1,
    ),
    // below the span
    (
        b"BEGIN U\nn : (variable (subrange 0 2000000000))\ni : (variable (integer))\nq : (variable (boolean))\nBREAK (//)\nREQUIRE (lti! (subi! (negi! (n)) (consti! 1)) (n)) (//)\nHANG\nEND\n",
        11,
        1,
    ),
    // three integers multiplied
    (
        b"BEGIN U\nn : (variable (subrange 0 2000000000))\ni : (variable (integer))\nq : (variable (boolean))\nBREAK (//)\nREQUIRE (lti! (mul! (i) (mul! (i) (i))) (n)) (//)\nHANG\nEND\n",
        11,
        1,
    ),
    // two constants
    (
        b"BEGIN U\nn : (variable (subrange 0 2000000000))\ni : (variable (integer))\nq : (variable (boolean))\nBREAK (//)\nREQUIRE (lti! (addi! (consti! 2000000000) (consti! 1)) (n)) (//)\nHANG\nEND\n",
        11,
        1,
    ),
    // a branch that is never taken
    (
        b"BEGIN U\nn : (variable (subrange 0 2000000000))\ni : (variable (integer))\nq : (variable (boolean))\nBREAK (//)\nASSIGN (n) (n) (true!) (if! (false!) (addi! (n) (consti! 1)) (n))\nHANG\nEND\n",
        11,
        1,
    ),
    // several rules: order ahead of kinds
    (
        b"BEGIN U\np : (variable (subrange 0 9))\nq : (variable (boolean))\nBREAK (//)\nREQUIRE (p) (//)\nEND\n",
        7,
        2,
    ),
    // kinds ahead of labels
    (
        b"BEGIN U\np : (variable (subrange 0 9))\nq : (variable (boolean))\nBREAK (//)\nHANG\nJOIN 1\nREQUIRE (p) (//)\nHANG\nEND\n",
        8,
        3,
    ),
    // labels ahead of circles
    (
        b"BEGIN U\nBREAK (//)\nBRANCH (//) 1\nJOIN 1\nBRANCH (//) 1\nWHEN (true!) 2\nHANG\nEND\n",
        9,
        4,
    ),
    // circles ahead of ranges
    (
        b"BEGIN U\nn : (variable (subrange 0 2000000000))\ni : (variable (integer))\nq : (variable (boolean))\nBREAK (//)\nREQUIRE (lti! (addi! (n) (consti! 1)) (n)) (//)\nBRANCH (//) 1\nJOIN 1\nBRANCH (//) 1\nEND\n",
        10,
        3,
    ),
    // order ahead of all
    (
        b"BEGIN U\nn : (variable (subrange 0 2000000000))\ni : (variable (integer))\nq : (variable (boolean))\nBREAK (//)\nREQUIRE (lti! (addi! (n) (consti! 1)) (n)) (//)\nPROCLAIM (n)\nBRANCH (//) 1\nJOIN 1\nBRANCH (//) 1\nWHEN (true!) 2\nHANG\nHANG\nEND\n",
        7,
        8,
    ),
    // of two statements out of order the lowest
    (
        b"BEGIN U\nBREAK (//)\nHANG\nHANG\nPROCLAIM (true!)\nHANG\nEND\n",
        7,
        2,
    ),
    // of two wrong kinds
    (
        b"BEGIN U\np : (variable (subrange 0 9))\nq : (variable (boolean))\nBREAK (//)\nREQUIRE (q) (//)\nPROCLAIM (p)\nREQUIRE (p) (//)\nHANG\nEND\n",
        8,
        2,
    ),
    // of two wrong labels
    (
        b"BEGIN U\nBREAK (//)\nHANG\nJOIN 2\nHANG\nJOIN 1\nHANG\nEND\n",
        9,
        2,
    ),
    // of two circles
    (
        b"BEGIN U\nBREAK (//)\nHANG\nJOIN 2\nBRANCH (//) 2\nJOIN 1\nBRANCH (//) 1\nEND\n",
        10,
        2,
    ),
    // of two ranges
    (
        b"BEGIN U\nn : (variable (subrange 0 2000000000))\ni : (variable (integer))\nq : (variable (boolean))\nBREAK (//)\nPROCLAIM (q)\nPROCLAIM (lti! (addi! (n) (consti! 1)) (n))\nREQUIRE (lti! (addi! (n) (consti! 1)) (n)) (//)\nHANG\nEND\n",
        11,
        2,
    ),
];

// What is told of a unit that was read and passed its check.
#[derive(Clone, Copy, Debug, PartialEq, Eq)]
pub(super) struct Checked {
    pub(super) outline: Outline,
    pub(super) paths: usize,
}

// Reads the unit at a place of the bytes into tables of the limits, and checks it.
pub(super) fn attempt(bytes: &[u8], start: usize) -> Result<Checked, CheckFault> {
    let mut variables = [Variable::default(); VARIABLE_LIMIT];
    let mut statements = [Statement::default(); STATEMENT_LIMIT];
    let mut rows: [UnitRow; ROW_LIMIT] = [Row::Constant(0); ROW_LIMIT];
    let outline = read(bytes, start, &mut variables, &mut statements, &mut rows)?;
    let mut unit = CheckedUnit::house();
    unit.check(
        bytes,
        outline.name,
        &variables[..outline.variables.min(VARIABLE_LIMIT)],
        &statements[..outline.statements.min(STATEMENT_LIMIT)],
        &rows[..outline.rows.min(ROW_LIMIT)],
    )?;
    Ok(Checked {
        outline,
        paths: unit.paths(),
    })
}

pub(super) fn refuses(rt: &impl Abort, bytes: &[u8], number: u8, place: usize) -> Result<(), Fail> {
    match attempt(bytes, 0) {
        Ok(_) => Err(Fail::new(format_args!("it passed: {bytes:?}"))),
        Err(fault) => {
            assert_eq!(rt; fault.refusal().number(), number, "{bytes:?}");
            assert_eq!(rt; fault.place(), place, "{bytes:?}");
            Ok(())
        }
    }
}

#[test]
fn each_rule_has_its_statement(rt: HostRuntime) -> Result<(), Fail> {
    for (bytes, number, place) in REFUSED.iter() {
        refuses(&rt, bytes, *number, *place)?;
    }
    Ok(())
}

// What reading refuses is told whole, ahead of every rule.
#[test]
fn a_fault_of_reading(rt: HostRuntime) {
    let bytes = b"BEGIN U\nHANG\nHANG\nPROCLAIM (p)\nEND\n";
    let fault = ReadFault {
        refusal: Refusal::Name,
        place: 28,
    };
    assert!(rt; attempt(bytes, 0) == Err(CheckFault::Reading(fault)));
}

// A unit may stand anywhere in the bytes, and what is told of it tells where the next one begins.
#[test]
fn a_unit_after_another(rt: HostRuntime) -> Result<(), Fail> {
    let bytes = b"BEGIN U\nBREAK (//)\nREQUIRE (true!) (//)\nHANG\nEND\nBEGIN V\nHANG\nEND\n";
    let Ok(first) = attempt(bytes, 0) else {
        return Err(Fail::new("it was refused"));
    };
    assert_eq!(rt; first.paths, 1);
    assert!(rt; first.outline.name.of(bytes) == b"U".as_slice());
    let fault = CheckFault::Rule {
        refusal: Refusal::Order,
        place: 0,
    };
    assert!(rt; attempt(bytes, first.outline.next) == Err(fault));
    Ok(())
}

// Either fault has the same line: a byte for reading, a statement for a rule.
#[test]
fn how_a_fault_is_told(rt: HostRuntime) -> Result<(), Fail> {
    let reading = CheckFault::Reading(ReadFault {
        refusal: Refusal::Name,
        place: 28,
    });
    let rule = CheckFault::Rule {
        refusal: Refusal::Circle,
        place: 3,
    };
    assert!(rt; format!(in rt.alloc(); "{reading}")?.as_bytes() == b"refused 5 28".as_slice());
    assert!(rt; format!(in rt.alloc(); "{rule}")?.as_bytes() == b"refused 10 3".as_slice());
    Ok(())
}
