// Sheets of units' paths, drawn out by hand.

use super::units::{FORK, LIMIT, PAST, RAISED, STEPS, TWICE};
use sheets::cell::{Cell, CellRow};
use sheets::part::Part;
use sheets::writing::Lengths;
use terms::kind::Kind;
use terms::operator::Operator;
use terms::row::Row;

// A path's sheet.
pub(super) struct Written {
    pub(super) unit: &'static [u8],
    pub(super) number: usize,
    pub(super) rows: &'static [CellRow],
    pub(super) parts: &'static [Part],
    pub(super) cells: &'static [Cell],
}

impl Written {
    pub(super) fn lengths(&self) -> Lengths {
        Lengths {
            rows: self.rows.len(),
            parts: self.parts.len(),
            cells: self.cells.len(),
        }
    }
}

// A number from 0 to 9, one of the type integer, and a truth, as every shadow is.
const P: Cell = Cell {
    kind: Kind::Number,
    low: 0,
    high: 9,
    set_by: None,
};

const Q: Cell = Cell {
    kind: Kind::Number,
    low: -32_768,
    high: 32_767,
    set_by: None,
};

const TRUTH: Cell = Cell {
    kind: Kind::Truth,
    low: 0,
    high: 1,
    set_by: None,
};

pub(super) static SHEETS: [Written; 9] = [
    Written {
        unit: LIMIT,
        number: 0,
        rows: &[
            Row::Operator(Operator::Gei),
            Row::Mention(0),
            Row::Constant(0),
        ],
        parts: &[Part { first: 0, rows: 3 }],
        cells: &[P, TRUTH],
    },
    Written {
        unit: LIMIT,
        number: 1,
        rows: &[
            Row::Operator(Operator::Gei),
            Row::Mention(0),
            Row::Constant(0),
            Row::Operator(Operator::Lei),
            Row::Mention(0),
            Row::Constant(7),
            Row::Operator(Operator::Equal),
            Row::Mention(2),
            Row::Operator(Operator::Addi),
            Row::Mention(0),
            Row::Constant(1),
            Row::Operator(Operator::Equal),
            Row::Mention(3),
            Row::Operator(Operator::True),
            Row::Operator(Operator::Lti),
            Row::Mention(2),
            Row::Constant(8),
        ],
        parts: &[
            Part { first: 0, rows: 3 },
            Part { first: 3, rows: 3 },
            Part { first: 6, rows: 5 },
            Part { first: 11, rows: 3 },
            Part { first: 14, rows: 3 },
        ],
        cells: &[
            P,
            TRUTH,
            Cell {
                set_by: Some(2),
                ..P
            },
            Cell {
                set_by: Some(3),
                ..TRUTH
            },
        ],
    },
    // `new!` reads the added cell, all else of the NEW the one before
    Written {
        unit: RAISED,
        number: 0,
        rows: &[
            Row::Operator(Operator::Lei),
            Row::Mention(0),
            Row::Mention(2),
            Row::Mention(3),
            Row::Operator(Operator::Gei),
            Row::Mention(2),
            Row::Constant(5),
        ],
        parts: &[
            Part { first: 0, rows: 3 },
            Part { first: 3, rows: 1 },
            Part { first: 4, rows: 3 },
        ],
        cells: &[P, TRUTH, P, TRUTH],
    },
    // cells in list order, and terms that read what stood before their statement
    Written {
        unit: STEPS,
        number: 0,
        rows: &[
            Row::Operator(Operator::Implies),
            Row::Mention(4),
            Row::Operator(Operator::Lti),
            Row::Mention(0),
            Row::Mention(6),
            Row::Operator(Operator::Equal),
            Row::Mention(8),
            Row::Operator(Operator::Subi),
            Row::Mention(6),
            Row::Constant(1),
            Row::Operator(Operator::Equal),
            Row::Mention(9),
            Row::Mention(5),
            Row::Operator(Operator::Equal),
            Row::Mention(10),
            Row::Operator(Operator::Lti),
            Row::Mention(8),
            Row::Constant(0),
            Row::Operator(Operator::Equal),
            Row::Mention(11),
            Row::Mention(9),
            Row::Mention(10),
        ],
        parts: &[
            Part { first: 0, rows: 5 },
            Part { first: 5, rows: 5 },
            Part { first: 10, rows: 3 },
            Part { first: 13, rows: 5 },
            Part { first: 18, rows: 3 },
            Part { first: 21, rows: 1 },
        ],
        cells: &[
            Q,
            TRUTH,
            TRUTH,
            TRUTH,
            TRUTH,
            TRUTH,
            Q,
            TRUTH,
            Cell {
                set_by: Some(1),
                ..Q
            },
            Cell {
                set_by: Some(2),
                ..TRUTH
            },
            Cell {
                set_by: Some(3),
                ..TRUTH
            },
            Cell {
                set_by: Some(4),
                ..TRUTH
            },
        ],
    },
    Written {
        unit: FORK,
        number: 0,
        rows: &[
            Row::Operator(Operator::Lti),
            Row::Mention(0),
            Row::Constant(5),
            Row::Operator(Operator::Lti),
            Row::Mention(0),
            Row::Constant(9),
        ],
        parts: &[Part { first: 0, rows: 3 }, Part { first: 3, rows: 3 }],
        cells: &[P, TRUTH],
    },
    Written {
        unit: FORK,
        number: 1,
        rows: &[
            Row::Operator(Operator::Gei),
            Row::Mention(0),
            Row::Constant(5),
            Row::Operator(Operator::Lti),
            Row::Mention(0),
            Row::Constant(8),
        ],
        parts: &[Part { first: 0, rows: 3 }, Part { first: 3, rows: 3 }],
        cells: &[P, TRUTH],
    },
    // the REQUIRE that was passed is a part like others
    Written {
        unit: FORK,
        number: 2,
        rows: &[
            Row::Operator(Operator::Gei),
            Row::Mention(0),
            Row::Constant(5),
            Row::Operator(Operator::Lti),
            Row::Mention(0),
            Row::Constant(8),
            Row::Operator(Operator::Lti),
            Row::Mention(0),
            Row::Constant(9),
        ],
        parts: &[
            Part { first: 0, rows: 3 },
            Part { first: 3, rows: 3 },
            Part { first: 6, rows: 3 },
        ],
        cells: &[P, TRUTH],
    },
    // the PROCLAIM ahead of the BREAK is no part of what starts there
    Written {
        unit: TWICE,
        number: 0,
        rows: &[
            Row::Operator(Operator::Lti),
            Row::Mention(0),
            Row::Constant(9),
        ],
        parts: &[Part { first: 0, rows: 3 }],
        cells: &[P, TRUTH],
    },
    Written {
        unit: PAST,
        number: 0,
        rows: &[
            Row::Operator(Operator::Equal),
            Row::Mention(2),
            Row::Constant(10),
            Row::Operator(Operator::Equal),
            Row::Mention(3),
            Row::Operator(Operator::True),
            Row::Operator(Operator::False),
        ],
        parts: &[
            Part { first: 0, rows: 3 },
            Part { first: 3, rows: 3 },
            Part { first: 6, rows: 1 },
        ],
        cells: &[
            P,
            TRUTH,
            Cell {
                set_by: Some(0),
                ..P
            },
            Cell {
                set_by: Some(1),
                ..TRUTH
            },
        ],
    },
];
