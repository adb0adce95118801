// The paths of units by their numbers, each told statement by statement.

use checking::unit::CheckedUnit;
use jcode::mention::{ROW_LIMIT, UnitRow};
use jcode::reader::read;
use jcode::statement::{STATEMENT_LIMIT, Statement};
use jcode::variable::{VARIABLE_LIMIT, Variable};
use std::process::Abort;
use std::test::Fail;
use terms::row::Row;

// Bytes, and the statements of each path.
static PATHS: [(&'static [u8], &'static [&'static [usize]]); 9] = [
    // BREAK and HANG alone have none
    (b"BEGIN U\nBREAK (//)\nHANG\nEND\n", &[]),
    // a REQUIRE doesn't end the walk, and a path that begins another comes first
    (
        b"BEGIN Limit\np : (variable (subrange 0 9))\nBREAK (/entry/)\nREQUIRE (gei! (p) (consti! 0)) (/low/)\nPROCLAIM (lei! (p) (consti! 7))\nASSIGN (p) (p) (true!) (addi! (p) (consti! 1))\nREQUIRE (lti! (p) (consti! 8)) (/high/)\nHANG\nEND\n",
        &[&[0, 1], &[0, 1, 2, 3, 4]],
    ),
    // a SPLIT of two, where one way has a REQUIRE of its own
    (
        b"BEGIN HighPressure\np : (variable (subrange 0 45))\nstopped : (variable (boolean))\nBREAK (/compressor runs/)\nNEW (p) (and! (gei! (new! p) (subi! (p) (consti! 3))) (lei! (new! p) (addi! (p) (consti! 3)))) (/pressure is read/)\nSPLIT 1\nWHEN (gei! (p) (consti! 42)) 1\nASSIGN (stopped) (stopped) (true!) (true!)\nREQUIRE (stopped) (/cut out at 42 bar/)\nBRANCH (/stop/) 2\nWHEN (lti! (p) (consti! 42)) 1\nASSIGN (stopped) (stopped) (true!) (false!)\nBRANCH (/run on/) 2\nJOIN 2\nREQUIRE (implies! (gei! (p) (consti! 42)) (stopped)) (/never above 42 bar while running/)\nHANG\nEND\n",
        &[
            &[0, 1, 2, 3, 4, 5],
            &[0, 1, 2, 3, 4, 5, 6, 10, 11],
            &[0, 1, 2, 7, 8, 9, 10, 11],
        ],
    ),
    // no path goes through a second BREAK
    (
        b"BEGIN U\nBREAK (//)\nREQUIRE (true!) (//)\nBREAK (//)\nREQUIRE (true!) (//)\nHANG\nEND\n",
        &[&[0, 1], &[2, 3]],
    ),
    // nor to one
    (
        b"BEGIN U\nBREAK (//)\nBREAK (//)\nREQUIRE (true!) (//)\nHANG\nEND\n",
        &[&[1, 2]],
    ),
    // a BRANCH that jumps back
    (
        b"BEGIN U\nBREAK (//)\nBRANCH (//) 1\nJOIN 2\nREQUIRE (true!) (//)\nHANG\nJOIN 1\nBRANCH (//) 2\nEND\n",
        &[&[0, 1, 5, 6, 2, 3]],
    ),
    // a SPLIT that stands after its WHENs
    (
        b"BEGIN U\nBREAK (//)\nBRANCH (//) 9\nWHEN (true!) 1\nREQUIRE (true!) (//)\nHANG\nWHEN (true!) 1\nREQUIRE (true!) (//)\nHANG\nJOIN 9\nSPLIT 1\nEND\n",
        &[&[0, 1, 8, 9, 2, 3], &[0, 1, 8, 9, 5, 6]],
    ),
    // a SPLIT within a way of another
    (
        b"BEGIN U\nBREAK (//)\nSPLIT 1\nWHEN (true!) 1\nSPLIT 2\nWHEN (true!) 2\nBRANCH (//) 3\nWHEN (true!) 2\nBRANCH (//) 3\nWHEN (true!) 1\nBRANCH (//) 3\nJOIN 3\nREQUIRE (true!) (//)\nHANG\nEND\n",
        &[
            &[0, 1, 2, 3, 4, 5, 10, 11],
            &[0, 1, 2, 3, 6, 7, 10, 11],
            &[0, 1, 8, 9, 10, 11],
        ],
    ),
    // a SPLIT of three, of which one way hangs
    (
        b"BEGIN U\nBREAK (//)\nSPLIT 1\nWHEN (true!) 1\nREQUIRE (true!) (//)\nHANG\nWHEN (true!) 1\nHANG\nWHEN (true!) 1\nREQUIRE (true!) (//)\nREQUIRE (true!) (//)\nHANG\nEND\n",
        &[&[0, 1, 2, 3], &[0, 1, 7, 8], &[0, 1, 7, 8, 9]],
    ),
];

// Whether the path of a number goes by these statements.
pub(super) fn goes_by(unit: &CheckedUnit<'_>, number: usize, places: &[usize]) -> bool {
    let mut next = unit.path(number);
    for place in places {
        let Some(turn) = next else {
            return false;
        };
        if turn.place() != *place {
            return false;
        }
        next = unit.after(turn);
    }
    next == None
}

// Whether the unit in the bytes has these paths and no others.
fn has_paths(rt: &impl Abort, bytes: &[u8], paths: &[&[usize]]) -> Result<(), Fail> {
    let mut variables = [Variable::default(); VARIABLE_LIMIT];
    let mut statements = [Statement::default(); STATEMENT_LIMIT];
    let mut rows: [UnitRow; ROW_LIMIT] = [Row::Constant(0); ROW_LIMIT];
    let Ok(outline) = read(bytes, 0, &mut variables, &mut statements, &mut rows) else {
        return Err(Fail::new(format_args!("it was not read: {bytes:?}")));
    };
    let mut unit = CheckedUnit::house();
    let checked = unit.check(
        bytes,
        outline.name,
        &variables[..outline.variables.min(VARIABLE_LIMIT)],
        &statements[..outline.statements.min(STATEMENT_LIMIT)],
        &rows[..outline.rows.min(ROW_LIMIT)],
    );
    assert!(rt; checked == Ok(()), "{bytes:?}");
    assert!(rt; unit.name() == outline.name.of(bytes), "{bytes:?}");
    assert_eq!(rt; unit.paths(), paths.len(), "{bytes:?}");
    for (number, places) in paths.iter().enumerate() {
        assert!(rt;
            goes_by(&unit, number, places),
            "path {number} of {bytes:?}"
        );
    }
    assert_eq!(rt; unit.path(paths.len()), None, "{bytes:?}");
    assert_eq!(rt; unit.path(usize::MAX), None, "{bytes:?}");
    Ok(())
}

#[test]
fn paths_by_number(rt: HostRuntime) -> Result<(), Fail> {
    for (bytes, paths) in PATHS.iter() {
        has_paths(&rt, bytes, paths)?;
    }
    Ok(())
}

// The unit of a place that no check has filled.
#[test]
fn the_house(rt: HostRuntime) {
    let unit = CheckedUnit::house();
    assert!(rt; unit.name() == b"House".as_slice());
    assert_eq!(rt; unit.paths(), 1);
    assert!(rt; goes_by(&unit, 0, &[0, 1]));
    assert_eq!(rt; unit.path(1), None);
}
