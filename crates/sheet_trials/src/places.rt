// Tables handed to the place of a sheet: good ones, and ones that break each rule once.

use jcode::refusal::Refusal;
use reckoning::mark::ANY;
use sheets::cell::{Cell, CellRow};
use sheets::fault::SheetFault;
use sheets::part::Part;
use sheets::replay::replay;
use sheets::sheet::Sheet;
use terms::kind::Kind;
use terms::operator::Operator;
use terms::row::Row;

// The number b, the truth c, the number d, which is set to b + 1, and one that nothing mentions, so that its bounds can be wrong and all else right.
const B: Cell = Cell {
    kind: Kind::Number,
    low: 0,
    high: 9,
    set_by: None,
};

const C: Cell = Cell {
    kind: Kind::Truth,
    low: 0,
    high: 1,
    set_by: None,
};

const D: Cell = Cell {
    kind: Kind::Number,
    low: -20,
    high: 20,
    set_by: Some(0),
};

const IDLE: Cell = Cell {
    kind: Kind::Number,
    low: -5,
    high: 5,
    set_by: None,
};

const CELLS: [Cell; 3] = [B, C, D];

// (equal! d (addi! b 1)), c, (lti! d 9)
const ROWS: [CellRow; 9] = [
    Row::Operator(Operator::Equal),
    Row::Mention(2),
    Row::Operator(Operator::Addi),
    Row::Mention(0),
    Row::Constant(1),
    Row::Mention(1),
    Row::Operator(Operator::Lti),
    Row::Mention(2),
    Row::Constant(9),
];

const PARTS: [Part; 3] = [
    Part { first: 0, rows: 5 },
    Part { first: 5, rows: 1 },
    Part { first: 6, rows: 3 },
];

// Other tables: with one row changed, other parts, one cell changed, none of these, or one part that nests so deep.
enum Change {
    Row(usize, CellRow),
    Parts(&'static [Part]),
    Cell(usize, Cell),
    Whole(&'static [CellRow], &'static [Part], &'static [Cell]),
    Nested(usize),
}

// What a place tells that is given tables, and whether it stays as it was.
fn told(rows: &[CellRow], parts: &[Part], cells: &[Cell]) -> (Result<(), SheetFault>, bool) {
    let mut sheet = Sheet::unfilled();
    let told = sheet.fill(rows, parts, cells);
    (told, sheet == Sheet::unfilled())
}

fn told_rows(place: usize, row: CellRow) -> (Result<(), SheetFault>, bool) {
    let mut rows = ROWS;
    if place < 9 {
        rows[place] = row;
    }
    told(&rows, &PARTS, &CELLS)
}

fn told_cells(place: usize, cell: Cell) -> (Result<(), SheetFault>, bool) {
    let mut cells = [B, C, D, IDLE];
    if place < 4 {
        cells[place] = cell;
    }
    told(&ROWS, &PARTS, &cells)
}

// Each level is the first operand of `if!`, which takes the most entries to read.
fn told_nested(levels: usize) -> (Result<(), SheetFault>, bool) {
    let operators = levels.saturating_sub(1).min(33);
    let mut rows = [Row::Mention(1); 100];
    for row in rows.iter_mut().take(operators) {
        *row = Row::Operator(Operator::If);
    }
    let count = 3 * operators + 1;
    let part = Part {
        first: 0,
        rows: count,
    };
    told(&rows[..count], &[part], &CELLS[..2])
}

impl Change {
    fn told(&self) -> (Result<(), SheetFault>, bool) {
        match self {
            Change::Row(place, row) => told_rows(*place, *row),
            Change::Parts(parts) => told(&ROWS, parts, &CELLS),
            Change::Cell(place, cell) => told_cells(*place, *cell),
            Change::Whole(rows, parts, cells) => told(rows, parts, cells),
            Change::Nested(levels) => told_nested(*levels),
        }
    }
}

static GOOD: [Change; 9] = [
    Change::Row(4, Row::Constant(1)),
    Change::Row(4, Row::Constant(2)),
    Change::Row(3, Row::Mention(0)),
    Change::Cell(0, Cell { low: 9, ..B }),
    Change::Cell(
        3,
        Cell {
            low: -2_000_000_000,
            high: 2_000_000_000,
            ..IDLE
        },
    ),
    Change::Cell(1, Cell { low: 1, ..C }),
    Change::Cell(2, Cell { set_by: None, ..D }),
    Change::Nested(1),
    Change::Nested(33),
];

// Each rule of sheets broken once, and all others kept, but that a cell which is not there has no kind either.
static BROKEN: [(&'static str, Change); 22] = [
    ("no part", Change::Whole(&[], &[], &[])),
    (
        "rows left over",
        Change::Parts(&[Part { first: 0, rows: 5 }, Part { first: 5, rows: 1 }]),
    ),
    (
        "a row between parts",
        Change::Parts(&[Part { first: 0, rows: 5 }, Part { first: 6, rows: 3 }]),
    ),
    (
        "rows of two parts",
        Change::Parts(&[
            Part { first: 0, rows: 5 },
            Part { first: 5, rows: 1 },
            Part { first: 6, rows: 3 },
            Part { first: 5, rows: 1 },
        ]),
    ),
    (
        "a part past the rows",
        Change::Parts(&[
            Part { first: 0, rows: 5 },
            Part { first: 5, rows: 1 },
            Part {
                first: 6,
                rows: usize::MAX,
            },
        ]),
    ),
    (
        "an incomplete term",
        Change::Row(8, Row::Operator(Operator::Addi)),
    ),
    (
        "two terms",
        Change::Parts(&[Part { first: 0, rows: 6 }, Part { first: 6, rows: 3 }]),
    ),
    ("no truth", Change::Row(5, Row::Mention(0))),
    ("operands of another kind", Change::Row(8, Row::Mention(1))),
    ("no such cell", Change::Row(5, Row::Mention(3))),
    ("nesting 34", Change::Nested(34)),
    (
        "a low below the span",
        Change::Cell(
            3,
            Cell {
                low: -2_000_000_001,
                ..IDLE
            },
        ),
    ),
    (
        "a high past the span",
        Change::Cell(
            3,
            Cell {
                high: 2_000_000_001,
                ..IDLE
            },
        ),
    ),
    (
        "a truth's low below 0",
        Change::Cell(1, Cell { low: -1, ..C }),
    ),
    (
        "a truth's high past 1",
        Change::Cell(1, Cell { high: 2, ..C }),
    ),
    ("low above high", Change::Cell(3, Cell { low: 6, ..IDLE })),
    (
        "set by no `equal!`",
        Change::Row(0, Row::Operator(Operator::Notequal)),
    ),
    (
        "set by the `equal!` of another cell",
        Change::Row(1, Row::Mention(0)),
    ),
    ("set to a term over itself", Change::Row(3, Row::Mention(2))),
    (
        "set by the goal",
        Change::Whole(
            &[
                Row::Operator(Operator::Equal),
                Row::Mention(0),
                Row::Constant(1),
            ],
            &[Part { first: 0, rows: 3 }],
            &[Cell {
                kind: Kind::Number,
                low: 0,
                high: 9,
                set_by: Some(0),
            }],
        ),
    ),
    (
        "set by no part",
        Change::Cell(
            3,
            Cell {
                set_by: Some(3),
                ..IDLE
            },
        ),
    ),
    (
        "the range mark 'any'",
        Change::Row(4, Row::Constant(2_000_000_000)),
    ),
];

#[test]
fn good_tables_are_taken(rt: HostRuntime) {
    for change in GOOD.iter() {
        assert!(rt; change.told() == (Ok(()), false));
    }
}

#[test]
fn tables_that_break_a_rule_are_refused(rt: HostRuntime) {
    let fault = SheetFault {
        refusal: Refusal::Tables,
        place: 0,
    };
    for (rule, change) in BROKEN.iter() {
        assert!(rt; change.told() == (Err(fault), true), "{rule}");
    }
}

// The replay of a valuation over so many working marks.
fn replayed(valuation: &[i64], marks: usize) -> Result<bool, Refusal> {
    let mut sheet = Sheet::unfilled();
    let _ = sheet.fill(&ROWS, &PARTS, &CELLS);
    let mut working = [ANY; 13];
    replay(&sheet, valuation, &mut working[..marks.min(13)]).map_err(|fault| fault.refusal)
}

#[test]
fn valuations_are_replayed(rt: HostRuntime) {
    assert!(rt; replayed(&[8, 1, 9], 12) == Ok(true));
    assert!(rt; replayed(&[8, 1, 9, 77], 13) == Ok(true));
    // The goal is true, a part is false, the cell is not what it is set to.
    assert!(rt; replayed(&[7, 1, 8], 12) == Ok(false));
    assert!(rt; replayed(&[8, 0, 9], 12) == Ok(false));
    assert!(rt; replayed(&[8, 1, 10], 12) == Ok(false));
    assert!(rt; replayed(&[8, 1, 9], 11) == Err(Refusal::Buffer));
    assert!(rt; replayed(&[8, 1], 12) == Err(Refusal::Valuation));
    assert!(rt; replayed(&[8, 1], 11) == Err(Refusal::Buffer));
    assert!(rt; replayed(&[10, 1, 11], 12) == Err(Refusal::Valuation));
    assert!(rt; replayed(&[8, 1, 21], 12) == Err(Refusal::Valuation));
}

#[test]
fn a_sheet_tells_its_parts(rt: HostRuntime) {
    let mut sheet = Sheet::unfilled();
    assert!(rt; sheet.part(0) == [Row::Operator(Operator::False)].as_slice());
    assert!(rt; sheet.marks() == 1);
    let _ = sheet.fill(&ROWS, &PARTS, &CELLS);
    assert!(rt; sheet.part(1) == &ROWS[5..6]);
    assert!(rt; sheet.part(3).is_empty());
    assert!(rt; sheet.cell_set_by(0) == Some(2));
    assert!(rt; sheet.cell_set_by(1) == None);
    assert!(rt; sheet.cell_set_by(3) == None);
    assert!(rt; sheet.marks() == 12);
}
