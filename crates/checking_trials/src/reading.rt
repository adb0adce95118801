// Units at each limit, which are read and then pass their check.

use super::rules::attempt;
use std::alloc::{AllocError, Global};
use std::process::Abort;
use std::test::Fail;

// How many variables, statements, rows and paths a unit has.
#[derive(Clone, Copy, Debug, PartialEq, Eq)]
struct Counts {
    variables: usize,
    statements: usize,
    rows: usize,
    paths: usize,
}

// Whether the unit that the bytes hold, and nothing else, is read and passes its check.
fn passes(rt: &impl Abort, bytes: &[u8], counts: Counts) -> Result<(), Fail> {
    let Ok(told) = attempt(bytes, 0) else {
        return Err(Fail::new(format_args!("it was refused: {bytes:?}")));
    };
    let found = Counts {
        variables: told.outline.variables,
        statements: told.outline.statements,
        rows: told.outline.rows,
        paths: told.paths,
    };
    assert!(rt; found == counts, "{found:?} of {bytes:?}");
    assert_eq!(rt; told.outline.next, bytes.len());
    Ok(())
}

// Names of 32 bytes.
static NAMES: &'static [u8] =
    b"BEGIN Abcdefghijklmnopqrstuvwxyz.0_1~2\nabcdefghijklmnopqrstuvwxyzABCDEF : (variable (boolean))\nBREAK (//)\nREQUIRE (abcdefghijklmnopqrstuvwxyzABCDEF) (//)\nHANG\nEND\n";

#[test]
fn the_longest_names(rt: HostRuntime) -> Result<(), Fail> {
    let counts = Counts {
        variables: 1,
        statements: 3,
        rows: 1,
        paths: 1,
    };
    passes(&rt, NAMES, counts)
}

// Texts of 80 bytes.
static TEXTS: &'static [u8] =
    b"BEGIN U\nBREAK (/01234567890123456789012345678901234567890123456789012345678901234567890123456789/)\nNEW () (true!) (/01234567890123456789012345678901234567890123456789012345678901234567890123456789/)\nREQUIRE (true!) (/01234567890123456789012345678901234567890123456789012345678901234567890123456789/)\nBRANCH (/01234567890123456789012345678901234567890123456789012345678901234567890123456789/) 1\nJOIN 1\nHANG\nEND\n";

#[test]
fn the_longest_texts(rt: HostRuntime) -> Result<(), Fail> {
    let counts = Counts {
        variables: 0,
        statements: 6,
        rows: 2,
        paths: 1,
    };
    passes(&rt, TEXTS, counts)
}

// A list of 8.
static LISTED: &'static [u8] =
    b"BEGIN U\na : (variable (boolean))\nb : (variable (boolean))\nc : (variable (boolean))\nd : (variable (boolean))\ne : (variable (boolean))\nf : (variable (boolean))\ng : (variable (boolean))\nh : (variable (boolean))\nBREAK (//)\nNEW (a b c d e f g h) (and! (new! a) (new! h)) (//)\nREQUIRE (h) (//)\nHANG\nEND\n";

#[test]
fn the_longest_list(rt: HostRuntime) -> Result<(), Fail> {
    let counts = Counts {
        variables: 8,
        statements: 4,
        rows: 4,
        paths: 1,
    };
    passes(&rt, LISTED, counts)
}

// The label 9999, of SPLIT and of JOIN.
static SPLIT: &'static [u8] =
    b"BEGIN U\nBREAK (//)\nSPLIT 9999\nWHEN (true!) 9999\nREQUIRE (true!) (//)\nHANG\nWHEN (true!) 9999\nREQUIRE (true!) (//)\nHANG\nEND\n";

static JOIN: &'static [u8] =
    b"BEGIN U\nBREAK (//)\nBRANCH (//) 9999\nJOIN 9999\nREQUIRE (true!) (//)\nHANG\nEND\n";

#[test]
fn the_greatest_label(rt: HostRuntime) -> Result<(), Fail> {
    let split = Counts {
        variables: 0,
        statements: 8,
        rows: 4,
        paths: 2,
    };
    passes(&rt, SPLIT, split)?;
    let join = Counts {
        variables: 0,
        statements: 5,
        rows: 1,
        paths: 1,
    };
    passes(&rt, JOIN, join)
}

// `(true!)` in so many `not!`.
fn negated(heap: Global, times: usize) -> Result<Vec<u8>, AllocError> {
    let mut bytes = Vec::new(heap);
    for _ in 0..times {
        bytes.extend_from_slice(b"(not! ")?;
    }
    bytes.extend_from_slice(b"(true!)")?;
    for _ in 0..times {
        bytes.extend_from_slice(b")")?;
    }
    Ok(bytes)
}

// BREAK, so many PROCLAIMs of a term, a REQUIRE of it, HANG.
fn proclaiming(heap: Global, times: usize, term: &[u8]) -> Result<Vec<u8>, AllocError> {
    let mut bytes = Vec::new(heap);
    bytes.extend_from_slice(b"BEGIN U\nBREAK (//)\n")?;
    for _ in 0..times {
        bytes.extend_from_slice(b"PROCLAIM ")?;
        bytes.extend_from_slice(term)?;
        bytes.extend_from_slice(b"\n")?;
    }
    bytes.extend_from_slice(b"REQUIRE ")?;
    bytes.extend_from_slice(term)?;
    bytes.extend_from_slice(b"(//)\nHANG\nEND\n")?;
    Ok(bytes)
}

#[test]
fn the_deepest_term(rt: HostRuntime) -> Result<(), Fail> {
    let counts = Counts {
        variables: 0,
        statements: 3,
        rows: 32,
        paths: 1,
    };
    let term = negated(rt.alloc(), 31)?;
    passes(&rt, &proclaiming(rt.alloc(), 0, &term)?, counts)
}

#[test]
fn the_most_rows(rt: HostRuntime) -> Result<(), Fail> {
    let counts = Counts {
        variables: 0,
        statements: 102,
        rows: 2_000,
        paths: 1,
    };
    let term = negated(rt.alloc(), 19)?;
    passes(&rt, &proclaiming(rt.alloc(), 99, &term)?, counts)
}

// So many variables, then BREAK, 198 REQUIREs and HANG.
fn requiring(heap: Global, variables: usize) -> Result<Vec<u8>, AllocError> {
    let mut bytes = Vec::new(heap);
    bytes.extend_from_slice(b"BEGIN U\n")?;
    for i in 0..variables {
        let declaration = format!(in heap; "v{i} : (variable (boolean))\n")?;
        bytes.extend_from_slice(declaration.as_bytes())?;
    }
    bytes.extend_from_slice(b"BREAK (//)\n")?;
    for _ in 0..198usize {
        bytes.extend_from_slice(b"REQUIRE (v0) (//)\n")?;
    }
    bytes.extend_from_slice(b"HANG\nEND\n")?;
    Ok(bytes)
}

#[test]
fn the_most_variables_and_statements(rt: HostRuntime) -> Result<(), Fail> {
    let counts = Counts {
        variables: 32,
        statements: 200,
        rows: 198,
        paths: 198,
    };
    passes(&rt, &requiring(rt.alloc(), 32)?, counts)
}
