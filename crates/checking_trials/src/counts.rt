// Units with many paths, up to the most that a unit may have and past it.

use super::paths::goes_by;
use super::rules::{attempt, refuses};
use checking::unit::CheckedUnit;
use jcode::mention::{ROW_LIMIT, UnitRow};
use jcode::reader::read;
use jcode::statement::{STATEMENT_LIMIT, Statement};
use jcode::variable::Variable;
use std::alloc::{AllocError, Global};
use std::process::Abort;
use std::test::Fail;
use terms::row::Row;

// A statement ahead of the SPLITs, for one path more or none.
static REQUIRE: &'static [u8] = b"REQUIRE (true!) (//)\n";

static PROCLAIM: &'static [u8] = b"PROCLAIM (true!)\n";

// One that leaves the span.
static OUTSIDE: &'static [u8] =
    b"PROCLAIM (lti! (addi! (consti! 2000000000) (consti! 1)) (consti! 0))\n";

// BREAK, another statement, so many SPLITs of two in a row, then REQUIRE and HANG.
fn splitting(heap: Global, ahead: &[u8], count: usize) -> Result<Vec<u8>, AllocError> {
    let mut bytes = Vec::new(heap);
    bytes.extend_from_slice(b"BEGIN U\nBREAK (//)\n")?;
    bytes.extend_from_slice(ahead)?;
    for i in 0..count.min(100) {
        let (label, end) = (i + 1, i + 101);
        let split = format!(in heap;
            "SPLIT {label}\nWHEN (true!) {label}\nBRANCH (//) {end}\nWHEN (true!) {label}\nBRANCH (//) {end}\nJOIN {end}\n"
        )?;
        bytes.extend_from_slice(split.as_bytes())?;
    }
    bytes.extend_from_slice(b"REQUIRE (true!) (//)\nHANG\nEND\n")?;
    Ok(bytes)
}

fn has_count(rt: &impl Abort, bytes: &[u8], paths: usize) -> Result<(), Fail> {
    let Ok(checked) = attempt(bytes, 0) else {
        return Err(Fail::new(format_args!("it was refused, and not {paths}")));
    };
    assert_eq!(rt; checked.paths, paths);
    Ok(())
}

#[test]
fn each_split_doubles_them(rt: HostRuntime) -> Result<(), Fail> {
    for (count, paths) in [(0, 1), (1, 2), (2, 4), (10, 1_024), (15, 32_768)] {
        has_count(&rt, &splitting(rt.alloc(), PROCLAIM, count)?, paths)?;
        has_count(&rt, &splitting(rt.alloc(), REQUIRE, count)?, paths + 1)?;
    }
    Ok(())
}

#[test]
fn at_most_65536(rt: HostRuntime) -> Result<(), Fail> {
    has_count(&rt, &splitting(rt.alloc(), PROCLAIM, 16)?, 65_536)?;
    refuses(&rt, &splitting(rt.alloc(), REQUIRE, 16)?, 12, 0)?;
    refuses(&rt, &splitting(rt.alloc(), PROCLAIM, 17)?, 12, 0)?;
    // more than any count of 32 bits holds
    refuses(&rt, &splitting(rt.alloc(), PROCLAIM, 32)?, 12, 0)?;
    // ranges come ahead of paths
    refuses(&rt, &splitting(rt.alloc(), OUTSIDE, 17)?, 11, 1)
}

// The statements of a path through sixteen SPLITs: which WHEN it goes by at each is told by a bit of its number, the greatest at the first.
fn by_bits(heap: Global, number: usize) -> Result<Vec<usize>, AllocError> {
    let mut places = Vec::new(heap);
    places.extend_from_slice(&[0, 1])?;
    for i in 0..16usize {
        let split = 2 + 6 * i;
        let when = if (number >> (15 - i)) % 2 == 0 {
            split + 1
        } else {
            split + 3
        };
        places.extend_from_slice(&[split, when, when + 1, split + 5])?;
    }
    places.push(98)?;
    Ok(places)
}

#[test]
fn which_of_65536(rt: HostRuntime) -> Result<(), Fail> {
    let bytes = splitting(rt.alloc(), PROCLAIM, 16)?;
    let mut variables = [Variable::default(); 1];
    let mut statements = [Statement::default(); STATEMENT_LIMIT];
    let mut rows: [UnitRow; ROW_LIMIT] = [Row::Constant(0); ROW_LIMIT];
    let Ok(outline) = read(&bytes, 0, &mut variables, &mut statements, &mut rows) else {
        return Err(Fail::new("it was not read"));
    };
    let mut unit = CheckedUnit::house();
    let checked = unit.check(
        &bytes,
        outline.name,
        &variables[..0],
        &statements[..outline.statements.min(STATEMENT_LIMIT)],
        &rows[..outline.rows.min(ROW_LIMIT)],
    );
    assert!(rt; checked == Ok(()));
    for number in [0, 1, 2, 3, 255, 256, 32_767, 32_768, 43_690, 65_534, 65_535] {
        assert!(rt;
            goes_by(&unit, number, &by_bits(rt.alloc(), number)?),
            "path {number}"
        );
    }
    assert_eq!(rt; unit.path(65_536), None);
    // a turn that tells no way of another unit
    let Some(turn) = unit.path(65_535) else {
        return Err(Fail::new("it has no last path"));
    };
    assert_eq!(rt; CheckedUnit::house().after(turn), None);
    Ok(())
}
