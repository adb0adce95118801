// Units that are read and units that are refused.

use jcode::mention::UnitRow;
use jcode::reader::{Outline, read};
use jcode::refusal::ReadFault;
use jcode::span::Span;
use jcode::statement::Statement;
use jcode::variable::{Domain, Variable};
use std::alloc::{AllocError, Global};
use std::process::Abort;
use std::test::Fail;
use terms::row::Row;

// Bytes, and the number and place of their refusal.
static REFUSED: [(&'static [u8], u8, usize); 78] = [
    // reading starts with no byte
    (b"", 1, 0),
    // another word than BEGIN
    (b"BEGUN U\n", 1, 0),
    // no gap after BEGIN
    (b"BEGIN\nU\n", 1, 5),
    // a run that ends in a tab is no gap
    (b"BEGIN \tU\n", 1, 5),
    // no name
    (b"BEGIN 5\n", 1, 6),
    // a run that ends in a space is no end
    (b"BEGIN U\n END\n", 1, 7),
    // no end after END
    (b"BEGIN U\nEND", 1, 11),
    // a word that opens nothing
    (b"BEGIN U\nBROKEN (/x/)\nHANG\nEND\n", 1, 8),
    // an unknown type
    (b"BEGIN U\np : (variable (real))\nHANG\nEND\n", 1, 23),
    // another class than variable
    (b"BEGIN U\np : (constant (integer))\nHANG\nEND\n", 1, 13),
    // a declaration with no bracket
    (b"BEGIN U\np : variable (integer)\nHANG\nEND\n", 1, 12),
    // no gap after a word
    (b"BEGIN U\nJOIN(5)\nHANG\nEND\n", 1, 12),
    // no gap after SPLIT
    (b"BEGIN U\nSPLIT5\nHANG\nEND\n", 1, 8),
    // a label that begins with no digit
    (b"BEGIN U\nSPLIT x\nHANG\nEND\n", 1, 14),
    // a minus with no digit
    (b"BEGIN U\nPROCLAIM (consti! -)\nHANG\nEND\n", 1, 26),
    // no gap after consti!
    (b"BEGIN U\nPROCLAIM (consti!5)\nHANG\nEND\n", 1, 25),
    // no gap ahead of the first operand
    (b"BEGIN U\nPROCLAIM (not!(true!))\nHANG\nEND\n", 1, 22),
    // an operand too few
    (b"BEGIN U\nPROCLAIM (and! (true!))\nHANG\nEND\n", 1, 30),
    // an operand too many
    (
        b"BEGIN U\nPROCLAIM (not! (true!) (true!))\nHANG\nEND\n",
        1,
        31,
    ),
    // a tab ahead of the closing bracket
    (
        b"BEGIN U\np : (variable (subrange 0 9))\nq : (variable (boolean))\nPROCLAIM (q\t)\nHANG\nEND\n",
        1,
        74,
    ),
    // a text that the bytes cut off
    (b"BEGIN U\nBREAK (/abc", 1, 19),
    // a newline within a text
    (b"BEGIN U\nBREAK (/a\nb/)\nHANG\nEND\n", 1, 17),
    // a byte above 126 within a text
    (b"BEGIN U\nBREAK (/a\x7f/)\nHANG\nEND\n", 1, 17),
    // BRANCH with no text
    (b"BEGIN U\nBRANCH 5\nHANG\nEND\n", 1, 15),
    // ASSIGN that lists none
    (
        b"BEGIN U\np : (variable (subrange 0 9))\nq : (variable (boolean))\nASSIGN () (p) (true!) (p)\nHANG\nEND\n",
        1,
        71,
    ),
    // ASSIGN that lists two
    (
        b"BEGIN U\np : (variable (subrange 0 9))\nq : (variable (boolean))\nASSIGN (p q) (p) (true!) (p)\nHANG\nEND\n",
        1,
        73,
    ),
    // no gap between listed names
    (
        b"BEGIN U\np : (variable (subrange 0 9))\nq : (variable (boolean))\nNEW (p,q) (q) (/x/)\nHANG\nEND\n",
        1,
        69,
    ),
    // a leading zero
    (
        b"BEGIN U\np : (variable (subrange 00 9))\nHANG\nEND\n",
        2,
        32,
    ),
    // minus zero
    (
        b"BEGIN U\np : (variable (subrange -0 9))\nHANG\nEND\n",
        2,
        32,
    ),
    // low above high
    (
        b"BEGIN U\np : (variable (subrange 9 -9))\nHANG\nEND\n",
        2,
        34,
    ),
    // above the span
    (
        b"BEGIN U\np : (variable (subrange 0 2000000001))\nHANG\nEND\n",
        2,
        34,
    ),
    // below the span
    (
        b"BEGIN U\np : (variable (subrange -2000000001 0))\nHANG\nEND\n",
        2,
        32,
    ),
    // far above the span
    (
        b"BEGIN U\nPROCLAIM (consti! 99999999999999999999999999)\nHANG\nEND\n",
        2,
        26,
    ),
    // label zero
    (b"BEGIN U\nSPLIT 0\nHANG\nEND\n", 2, 14),
    // a label with a leading zero
    (b"BEGIN U\nSPLIT 05\nHANG\nEND\n", 2, 14),
    // a label above 9999
    (b"BEGIN U\nSPLIT 10000\nHANG\nEND\n", 2, 14),
    // a unit's name of 33 bytes
    (b"BEGIN aaaaaaaaaaaaaaaaaaaaaaaaaaaaaaaaa\n", 3, 6),
    // a variable's name of 33 bytes
    (
        b"BEGIN U\naaaaaaaaaaaaaaaaaaaaaaaaaaaaaaaaa : (variable (integer))\n",
        3,
        8,
    ),
    // an unknown name of 33 bytes
    (
        b"BEGIN U\nPROCLAIM (aaaaaaaaaaaaaaaaaaaaaaaaaaaaaaaaa)\n",
        3,
        18,
    ),
    // a text of 81 bytes
    (
        b"BEGIN U\nBREAK (/xxxxxxxxxxxxxxxxxxxxxxxxxxxxxxxxxxxxxxxxxxxxxxxxxxxxxxxxxxxxxxxxxxxxxxxxxxxxxxxxx/)\n",
        3,
        16,
    ),
    // a text of 81 bytes that no /) ends
    (
        b"BEGIN U\nBREAK (/xxxxxxxxxxxxxxxxxxxxxxxxxxxxxxxxxxxxxxxxxxxxxxxxxxxxxxxxxxxxxxxxxxxxxxxxxxxxxxxxx\n",
        3,
        16,
    ),
    // a ninth listed name
    (
        b"BEGIN U\nv0 : (variable (integer))\nv1 : (variable (integer))\nv2 : (variable (integer))\nv3 : (variable (integer))\nv4 : (variable (integer))\nv5 : (variable (integer))\nv6 : (variable (integer))\nv7 : (variable (integer))\nv8 : (variable (integer))\nNEW (v0 v1 v2 v3 v4 v5 v6 v7 v8) (true!) (/x/)\nHANG\nEND\n",
        3,
        271,
    ),
    // nesting 33
    (
        b"BEGIN U\nPROCLAIM (not! (not! (not! (not! (not! (not! (not! (not! (not! (not! (not! (not! (not! (not! (not! (not! (not! (not! (not! (not! (not! (not! (not! (not! (not! (not! (not! (not! (not! (not! (not! (not! (true!)))))))))))))))))))))))))))))))))\nHANG\nEND\n",
        3,
        209,
    ),
    // an unknown name
    (
        b"BEGIN U\np : (variable (subrange 0 9))\nq : (variable (boolean))\nPROCLAIM (r)\nHANG\nEND\n",
        5,
        73,
    ),
    // an unknown name after defined!
    (
        b"BEGIN U\np : (variable (subrange 0 9))\nq : (variable (boolean))\nPROCLAIM (defined! r)\nHANG\nEND\n",
        5,
        82,
    ),
    // an unknown operator
    (
        b"BEGIN U\np : (variable (subrange 0 9))\nq : (variable (boolean))\nPROCLAIM (plus! (p) (p))\nHANG\nEND\n",
        5,
        73,
    ),
    // a name declared twice
    (
        b"BEGIN U\np : (variable (subrange 0 9))\nq : (variable (boolean))\np : (variable (integer))\nHANG\nEND\n",
        5,
        63,
    ),
    // a name listed twice
    (
        b"BEGIN U\np : (variable (subrange 0 9))\nq : (variable (boolean))\nNEW (p q p) (q) (/x/)\nHANG\nEND\n",
        5,
        72,
    ),
    // an unknown name listed
    (
        b"BEGIN U\np : (variable (subrange 0 9))\nq : (variable (boolean))\nNEW (p r) (q) (/x/)\nHANG\nEND\n",
        5,
        70,
    ),
    // new! outside of NEW
    (
        b"BEGIN U\np : (variable (subrange 0 9))\nq : (variable (boolean))\nPROCLAIM (new! q)\nHANG\nEND\n",
        5,
        73,
    ),
    // in a unit of one variable
    (
        b"BEGIN u\nv : (variable (boolean))\nREQUIRE (new! v) (//)\nHANG\nEND\n",
        5,
        42,
    ),
    // with no gap after it
    (
        b"BEGIN U\np : (variable (subrange 0 9))\nq : (variable (boolean))\nPROCLAIM (new!q)\nHANG\nEND\n",
        5,
        73,
    ),
    // with nothing after it
    (
        b"BEGIN U\np : (variable (subrange 0 9))\nq : (variable (boolean))\nPROCLAIM (new!",
        5,
        73,
    ),
    // ahead of a name that is too long
    (
        b"BEGIN U\np : (variable (subrange 0 9))\nq : (variable (boolean))\nPROCLAIM (new! aaaaaaaaaaaaaaaaaaaaaaaaaaaaaaaaa)\nHANG\nEND\n",
        5,
        73,
    ),
    // in ASSIGN
    (
        b"BEGIN U\np : (variable (subrange 0 9))\nq : (variable (boolean))\nASSIGN (p) (p) (true!) (new! p)\nHANG\nEND\n",
        5,
        87,
    ),
    // after defined!
    (
        b"BEGIN U\np : (variable (subrange 0 9))\nq : (variable (boolean))\nPROCLAIM (defined! new! q)\nHANG\nEND\n",
        5,
        82,
    ),
    // after defined!, with nothing after it
    (
        b"BEGIN U\np : (variable (subrange 0 9))\nq : (variable (boolean))\nPROCLAIM (defined! new!)\nHANG\nEND\n",
        5,
        82,
    ),
    // new! in a NEW that lists nothing
    (
        b"BEGIN U\np : (variable (subrange 0 9))\nq : (variable (boolean))\nNEW () (new! q) (/x/)\nHANG\nEND\n",
        5,
        71,
    ),
    // new! of a variable that is not listed
    (
        b"BEGIN U\np : (variable (subrange 0 9))\nq : (variable (boolean))\nNEW (q) (new! p) (/x/)\nHANG\nEND\n",
        5,
        72,
    ),
    // of an unknown name
    (
        b"BEGIN U\np : (variable (subrange 0 9))\nq : (variable (boolean))\nNEW (q) (new! r) (/x/)\nHANG\nEND\n",
        5,
        72,
    ),
    // of a variable that is not listed, after defined!
    (
        b"BEGIN U\np : (variable (subrange 0 9))\nq : (variable (boolean))\nNEW (q) (defined! new! p) (/x/)\nHANG\nEND\n",
        5,
        81,
    ),
    // of an unknown name, after defined!
    (
        b"BEGIN U\np : (variable (subrange 0 9))\nq : (variable (boolean))\nNEW () (defined! new! r) (/x/)\nHANG\nEND\n",
        5,
        80,
    ),
    // no gap after new!
    (
        b"BEGIN U\np : (variable (subrange 0 9))\nq : (variable (boolean))\nNEW (q) (new!q) (/x/)\nHANG\nEND\n",
        1,
        76,
    ),
    // no gap after new! in a NEW that lists nothing
    (
        b"BEGIN U\np : (variable (subrange 0 9))\nq : (variable (boolean))\nNEW () (new!(q)) (/x/)\nHANG\nEND\n",
        1,
        75,
    ),
    // no gap after new! after defined!
    (
        b"BEGIN U\np : (variable (subrange 0 9))\nq : (variable (boolean))\nNEW (q) (defined! new!q) (/x/)\nHANG\nEND\n",
        1,
        85,
    ),
    // no name after new!
    (
        b"BEGIN U\np : (variable (subrange 0 9))\nq : (variable (boolean))\nNEW (q) (new! 5) (/x/)\nHANG\nEND\n",
        1,
        77,
    ),
    // no name after new! after defined!
    (
        b"BEGIN U\np : (variable (subrange 0 9))\nq : (variable (boolean))\nNEW () (defined! new! (q)) (/x/)\nHANG\nEND\n",
        1,
        85,
    ),
    // a name of 33 bytes after new!
    (
        b"BEGIN U\np : (variable (subrange 0 9))\nq : (variable (boolean))\nNEW (q) (new! aaaaaaaaaaaaaaaaaaaaaaaaaaaaaaaaa) (/x/)\nHANG\nEND\n",
        3,
        77,
    ),
    // a name of 33 bytes after new! after defined!
    (
        b"BEGIN U\np : (variable (subrange 0 9))\nq : (variable (boolean))\nNEW (q) (defined! new! aaaaaaaaaaaaaaaaaaaaaaaaaaaaaaaaa) (/x/)\nHANG\nEND\n",
        3,
        86,
    ),
    // a listed name with ! after new!
    (
        b"BEGIN U\np : (variable (subrange 0 9))\nq : (variable (boolean))\nNEW (q) (new! q! q) (/x/)\nHANG\nEND\n",
        1,
        78,
    ),
    // a variable with ! after defined!
    (
        b"BEGIN U\np : (variable (subrange 0 9))\nq : (variable (boolean))\nPROCLAIM (defined! q! )\nHANG\nEND\n",
        1,
        83,
    ),
    // an unknown name with ! after defined!
    (
        b"BEGIN U\np : (variable (subrange 0 9))\nq : (variable (boolean))\nPROCLAIM (defined! old! p)\nHANG\nEND\n",
        5,
        82,
    ),
    // no modifier but new! follows defined!
    (
        b"BEGIN U\np : (variable (subrange 0 9))\nq : (variable (boolean))\nPROCLAIM (defined! consti! 5)\nHANG\nEND\n",
        5,
        82,
    ),
    // a name of 33 bytes with ! after defined!
    (
        b"BEGIN U\np : (variable (subrange 0 9))\nq : (variable (boolean))\nPROCLAIM (defined! aaaaaaaaaaaaaaaaaaaaaaaaaaaaaaaaa! p)\nHANG\nEND\n",
        3,
        82,
    ),
    // an unknown operator of 33 bytes
    (
        b"BEGIN U\nPROCLAIM (aaaaaaaaaaaaaaaaaaaaaaaaaaaaaaaaa! (p))\n",
        5,
        18,
    ),
    // an unknown operator of 60 bytes that begins as another
    (
        b"BEGIN U\nPROCLAIM (trueeeeeeeeeeeeeeeeeeeeeeeeeeeeeeeeeeeeeeeeeeeeeeeeeeeeeeeee!)\n",
        5,
        18,
    ),
    // ASSIGN that repeats another name
    (
        b"BEGIN U\np : (variable (subrange 0 9))\nq : (variable (boolean))\nASSIGN (p) (q) (true!) (p)\nHANG\nEND\n",
        5,
        75,
    ),
    // ASSIGN that repeats an unknown name
    (
        b"BEGIN U\np : (variable (subrange 0 9))\nq : (variable (boolean))\nASSIGN (p) (r) (true!) (p)\nHANG\nEND\n",
        5,
        75,
    ),
];

// Bytes, and how many variables, statements and rows are read of them.
static READ: [(&'static [u8], [usize; 3]); 20] = [
    // a gap is no must after BREAK
    (b"BEGIN U\nBREAK(/x/)\nHANG\nEND\n", [0, 2, 0]),
    // nor ahead of a label
    (
        b"BEGIN U\np : (variable (subrange 0 9))\nq : (variable (boolean))\nWHEN (q)5\nHANG\nEND\n",
        [2, 2, 1],
    ),
    // brackets may hold gaps
    (
        b"BEGIN U\np : (variable (subrange 0 9))\nq : (variable (boolean))\nPROCLAIM ( q )\nHANG\nEND\n",
        [2, 2, 1],
    ),
    // NEW may list nothing
    (b"BEGIN U\nNEW () (true!) (/x/)\nHANG\nEND\n", [0, 2, 1]),
    // a text may be empty
    (b"BEGIN U\nBREAK (//)\nHANG\nEND\n", [0, 2, 0]),
    // a text may end in a slash
    (b"BEGIN U\nBREAK (/a//)\nHANG\nEND\n", [0, 2, 0]),
    // and hold brackets
    (b"BEGIN U\nBREAK (/(/a)/)\nHANG\nEND\n", [0, 2, 0]),
    // variables may be named as words are
    (
        b"BEGIN U\nEND : (variable (boolean))\nnew : (variable (boolean))\nPROCLAIM (and! (END) (new))\nHANG\nEND\n",
        [2, 2, 3],
    ),
    // separators of all kinds make one run
    (
        b"BEGIN \t\n \t U\t \n\nBREAK\n\t (/x/)\t\nHANG\nEND\n",
        [0, 2, 0],
    ),
    // colons may stand between gaps or not
    (
        b"BEGIN U\np:(variable(integer))\nq  :  ( variable  ( boolean ) )\nHANG\nEND\n",
        [2, 1, 0],
    ),
    // a name of 32 bytes
    (
        b"BEGIN aaaaaaaaaaaaaaaaaaaaaaaaaaaaaaaa\nHANG\nEND\n",
        [0, 1, 0],
    ),
    // a text of 80 bytes
    (
        b"BEGIN U\nBREAK (/xxxxxxxxxxxxxxxxxxxxxxxxxxxxxxxxxxxxxxxxxxxxxxxxxxxxxxxxxxxxxxxxxxxxxxxxxxxxxxxx/)\nHANG\nEND\n",
        [0, 2, 0],
    ),
    // the ends of the span
    (
        b"BEGIN U\np : (variable (subrange -2000000000 2000000000))\nPROCLAIM (equal! (consti! 2000000000)(consti! -2000000000))\nHANG\nEND\n",
        [1, 2, 3],
    ),
    // the ends of labels
    (b"BEGIN U\nSPLIT 1\nJOIN 9999\nHANG\nEND\n", [0, 3, 0]),
    // nesting 32
    (
        b"BEGIN U\nPROCLAIM (not! (not! (not! (not! (not! (not! (not! (not! (not! (not! (not! (not! (not! (not! (not! (not! (not! (not! (not! (not! (not! (not! (not! (not! (not! (not! (not! (not! (not! (not! (not! (true!))))))))))))))))))))))))))))))))\nHANG\nEND\n",
        [0, 2, 32],
    ),
    // eight listed names
    (
        b"BEGIN U\nv0 : (variable (integer))\nv1 : (variable (integer))\nv2 : (variable (integer))\nv3 : (variable (integer))\nv4 : (variable (integer))\nv5 : (variable (integer))\nv6 : (variable (integer))\nv7 : (variable (integer))\nNEW (v0 v1 v2 v3 v4 v5 v6 v7) (true!) (/x/)\nHANG\nEND\n",
        [8, 2, 1],
    ),
    // new! of a listed variable
    (
        b"BEGIN U\np : (variable (subrange 0 9))\nq : (variable (boolean))\nNEW (q) (new! q) (/x/)\nHANG\nEND\n",
        [2, 2, 1],
    ),
    // new! and defined! new! of listed variables, beside the current ones
    (
        b"BEGIN U\np : (variable (subrange 0 9))\nq : (variable (boolean))\nNEW (p q) (and! (new! q)(equal! (defined! new! p) (defined! p))) (/x/)\nHANG\nEND\n",
        [2, 2, 5],
    ),
    // new may be a variable's name ahead of a bracket
    (
        b"BEGIN U\nnew : (variable (boolean))\nNEW (new) (and! (defined! new) (new! new)) (/x/)\nHANG\nEND\n",
        [1, 2, 3],
    ),
    // no statement at all
    (b"BEGIN U\nEND\n", [0, 0, 0]),
];

static LIMIT: &'static [u8] =
    b"BEGIN Limit\np : (variable (subrange 0 9))\nBREAK (/entry/)\nREQUIRE (gei! (p) (consti! 0)) (/low/)\nPROCLAIM (lei! (p) (consti! 7))\nASSIGN (p) (p) (true!) (addi! (p) (consti! 1))\nREQUIRE (lti! (p) (consti! 8)) (/high/)\nHANG\nEND\n";

// What is left of a record by a refusal.
const BLANK: Variable = Variable {
    name: Span {
        start: 0,
        length: 0,
    },
    domain: Domain::Integer,
};

// A record that no reading leaves, to see what is left alone.
const OLD: Variable = Variable {
    name: Span {
        start: 77,
        length: 7,
    },
    domain: Domain::Boolean,
};

fn attempt(bytes: &[u8], start: usize, lengths: [usize; 3]) -> Result<Outline, ReadFault> {
    let mut variables = [OLD; 40];
    let mut statements = [Statement::Hang; 210];
    let mut rows: [UnitRow; 2_010] = [Row::Constant(0); 2_010];
    read(
        bytes,
        start,
        &mut variables[0..lengths[0].min(40)],
        &mut statements[0..lengths[1].min(210)],
        &mut rows[0..lengths[2].min(2_010)],
    )
}

const AMPLE: [usize; 3] = [40, 210, 2_010];

fn refuses(
    rt: &impl Abort,
    bytes: &[u8],
    start: usize,
    lengths: [usize; 3],
    number: u8,
    place: usize,
) -> Result<(), Fail> {
    match attempt(bytes, start, lengths) {
        Ok(_) => Err(Fail::new(format_args!("it was read: {bytes:?}"))),
        Err(fault) => {
            assert_eq!(rt; fault.refusal.number(), number, "{bytes:?}");
            assert_eq!(rt; fault.place, place, "{bytes:?}");
            Ok(())
        }
    }
}

fn reads(
    rt: &impl Abort,
    bytes: &[u8],
    lengths: [usize; 3],
    counts: [usize; 3],
) -> Result<(), Fail> {
    match attempt(bytes, 0, lengths) {
        Ok(outline) => {
            assert_eq!(rt; outline.variables, counts[0], "{bytes:?}");
            assert_eq!(rt; outline.statements, counts[1], "{bytes:?}");
            assert_eq!(rt; outline.rows, counts[2], "{bytes:?}");
            assert_eq!(rt; outline.next, bytes.len(), "{bytes:?}");
            Ok(())
        }
        Err(_) => Err(Fail::new(format_args!("it was refused: {bytes:?}"))),
    }
}

#[test]
fn each_refusal_has_its_byte(rt: HostRuntime) -> Result<(), Fail> {
    for (bytes, number, place) in REFUSED.iter() {
        refuses(&rt, bytes, 0, AMPLE, *number, *place)?;
    }
    Ok(())
}

#[test]
fn each_form_is_read(rt: HostRuntime) -> Result<(), Fail> {
    for (bytes, counts) in READ.iter() {
        reads(&rt, bytes, AMPLE, *counts)?;
    }
    Ok(())
}

#[test]
fn reading_may_start_anywhere(rt: HostRuntime) -> Result<(), Fail> {
    refuses(&rt, LIMIT, LIMIT.len(), AMPLE, 1, LIMIT.len())?;
    refuses(&rt, LIMIT, 100_000, AMPLE, 1, 100_000)?;
    refuses(&rt, LIMIT, 1, AMPLE, 1, 1)?;
    refuses(&rt, b"", usize::MAX, AMPLE, 1, usize::MAX)
}

#[test]
fn tables_that_just_suffice(rt: HostRuntime) -> Result<(), Fail> {
    reads(&rt, LIMIT, [1, 6, 13], [1, 6, 13])?;
    refuses(&rt, LIMIT, 0, [0, 6, 13], 4, 12)?;
    refuses(&rt, LIMIT, 0, [1, 5, 13], 4, 216)?;
    refuses(&rt, LIMIT, 0, [1, 6, 12], 4, 194)?;
    refuses(&rt, LIMIT, 0, [0, 0, 0], 4, 12)
}

// `head`, then `body` so many times, then `tail`.
fn repeated(
    heap: Global,
    head: &[u8],
    body: &[u8],
    count: usize,
    tail: &[u8],
) -> Result<Vec<u8>, AllocError> {
    let mut bytes = Vec::new(heap);
    bytes.extend_from_slice(head)?;
    for _ in 0..count {
        bytes.extend_from_slice(body)?;
    }
    bytes.extend_from_slice(tail)?;
    Ok(bytes)
}

// A unit with so many variables.
fn declaring(heap: Global, count: usize) -> Result<Vec<u8>, AllocError> {
    let mut bytes = Vec::new(heap);
    bytes.extend_from_slice(b"BEGIN U\n")?;
    for i in 0..count {
        let declaration = format!(in heap; "v{i} : (variable (integer))\n")?;
        bytes.extend_from_slice(declaration.as_bytes())?;
    }
    bytes.extend_from_slice(b"END\n")?;
    Ok(bytes)
}

#[test]
fn thirty_two_variables(rt: HostRuntime) -> Result<(), Fail> {
    let most = declaring(rt.alloc(), 32)?;
    reads(&rt, &most, AMPLE, [32, 0, 0])?;
    reads(&rt, &most, [32, 0, 0], [32, 0, 0])?;
    refuses(&rt, &most, 0, [31, 0, 0], 4, 835)?;
    let more = declaring(rt.alloc(), 33)?;
    refuses(&rt, &more, 0, AMPLE, 3, 862)?;
    refuses(&rt, &more, 0, [32, 0, 0], 3, 862)
}

#[test]
fn two_hundred_statements(rt: HostRuntime) -> Result<(), Fail> {
    let most = repeated(rt.alloc(), b"BEGIN U\n", b"HANG\n", 200, b"END\n")?;
    reads(&rt, &most, AMPLE, [0, 200, 0])?;
    reads(&rt, &most, [0, 200, 0], [0, 200, 0])?;
    refuses(&rt, &most, 0, [0, 199, 0], 4, 1_003)?;
    let more = repeated(rt.alloc(), b"BEGIN U\n", b"HANG\n", 201, b"END\n")?;
    refuses(&rt, &more, 0, AMPLE, 3, 1_008)?;
    refuses(&rt, &more, 0, [0, 200, 0], 3, 1_008)
}

#[test]
fn two_thousand_rows(rt: HostRuntime) -> Result<(), Fail> {
    let most = repeated(
        rt.alloc(),
        b"BEGIN U\n",
        b"PROCLAIM (and! (true!) (and! (true!) (and! (true!) (and! (true!) (and! (true!) (and! (true!) (and! (true!) (and! (true!) (and! (true!) (not! (true!)))))))))))\n",
        100,
        b"END\n",
    )?;
    reads(&rt, &most, AMPLE, [0, 100, 2_000])?;
    reads(&rt, &most, [0, 100, 2_000], [0, 100, 2_000])?;
    refuses(&rt, &most, 0, [0, 100, 1_999], 4, 15_890)?;
    let more = repeated(
        rt.alloc(),
        b"BEGIN U\nPROCLAIM (true!)\n",
        b"PROCLAIM (and! (true!) (and! (true!) (and! (true!) (and! (true!) (and! (true!) (and! (true!) (and! (true!) (and! (true!) (and! (true!) (not! (true!)))))))))))\n",
        100,
        b"END\n",
    )?;
    refuses(&rt, &more, 0, AMPLE, 3, 15_907)
}

#[test]
fn what_the_tables_hold(rt: HostRuntime) -> Result<(), Fail> {
    let mut variables = [OLD; 3];
    let mut statements = [Statement::Join { label: 9 }; 7];
    let mut rows: [UnitRow; 14] = [Row::Constant(9); 14];
    let Ok(outline) = read(LIMIT, 0, &mut variables, &mut statements, &mut rows) else {
        return Err(Fail::new("it was refused"));
    };
    assert!(rt; outline.name.of(LIMIT) == b"Limit".as_slice());
    assert!(rt; variables[0].name.of(LIMIT) == b"p".as_slice());
    assert_eq!(rt; variables[0].domain, Domain::Subrange { low: 0, high: 9 });
    assert_eq!(rt; variables[1], OLD);
    assert!(rt; matches!(statements[3], Statement::Assign { variable: 0, .. }));
    assert_eq!(rt; statements[6], Statement::Join { label: 9 });
    assert_eq!(rt; rows[12], Row::Constant(8));
    assert_eq!(rt; rows[13], Row::Constant(9));
    Ok(())
}

#[test]
fn a_refusal_leaves_nothing(rt: HostRuntime) {
    let mut variables = [OLD; 2];
    let mut statements = [Statement::Join { label: 9 }; 3];
    let mut rows: [UnitRow; 4] = [Row::Constant(9); 4];
    assert!(rt; read(LIMIT, 0, &mut variables, &mut statements, &mut rows).is_err());
    assert!(rt; variables == [BLANK; 2]);
    assert!(rt; statements == [Statement::Hang; 3]);
    assert!(rt; rows == [Row::Constant(0); 4]);
}
