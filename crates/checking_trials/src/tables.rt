// Sound tables of a unit, and what may be damaged in them.

use checking::fault::CheckFault;
use checking::unit::CheckedUnit;
use jcode::mention::{Aspect, Mention, Stage, UnitRow};
use jcode::span::Span;
use jcode::statement::{Listing, Statement, Term};
use jcode::variable::{Domain, Variable};
use terms::operator::Operator;
use terms::row::Row;

// Names at 5, 7 and 9, the first of them again at 12; at 14 a text's end too soon, at 19 a digit, at 22 a newline, at 23 the byte 127, and from 25 on 81 letters.
static BYTES: [u8; 106] =
    *b"Unit p q r, p /a/) 9x \n\x7f aaaaaaaaaaaaaaaaaaaaaaaaaaaaaaaaaaaaaaaaaaaaaaaaaaaaaaaaaaaaaaaaaaaaaaaaaaaaaaaaa";

#[derive(Clone, Copy)]
pub(super) struct Tables {
    pub(super) name: Span,
    pub(super) variables: [Variable; 3],
    pub(super) statements: [Statement; 12],
    pub(super) rows: [UnitRow; 12],
}

// One record in place of another.
#[derive(Clone, Copy)]
pub(super) enum Damage {
    Name(Span),
    Variable(usize, Variable),
    Statement(usize, Statement),
    Row(usize, UnitRow),
}

// Puts a record at its place, if there is one.
fn put<T: Copy>(records: &mut [T], place: usize, record: T) {
    if place < records.len() {
        records[place] = record;
    }
}

impl Tables {
    pub(super) fn damaged(mut self, damage: Damage) -> Tables {
        match damage {
            Damage::Name(name) => self.name = name,
            Damage::Variable(place, variable) => put(&mut self.variables, place, variable),
            Damage::Statement(place, statement) => put(&mut self.statements, place, statement),
            Damage::Row(place, row) => put(&mut self.rows, place, row),
        }
        self
    }

    // Has a place check them.
    pub(super) fn fill<'a>(&'a self, unit: &mut CheckedUnit<'a>) -> Result<(), CheckFault> {
        unit.check(
            &BYTES,
            self.name,
            &self.variables,
            &self.statements,
            &self.rows,
        )
    }

    // What a check of them tells, and whether the place says `House` after it.
    pub(super) fn check(&self) -> (Result<(), CheckFault>, bool) {
        let mut unit = CheckedUnit::house();
        let told = self.fill(&mut unit);
        (told, unit.name() == b"House".as_slice())
    }
}

pub(super) const TEXT: Span = Span {
    start: 5,
    length: 8,
};

// A unit with each of the ten statements.
pub(super) const SOUND: Tables = Tables {
    name: Span {
        start: 0,
        length: 4,
    },
    variables: [
        Variable {
            name: Span {
                start: 5,
                length: 1,
            },
            domain: Domain::Subrange { low: 0, high: 9 },
        },
        Variable {
            name: Span {
                start: 7,
                length: 1,
            },
            domain: Domain::Boolean,
        },
        Variable {
            name: Span {
                start: 9,
                length: 1,
            },
            domain: Domain::Integer,
        },
    ],
    statements: [
        Statement::Break { text: TEXT },
        // (p q), (gei! (new! p) (p))
        Statement::New {
            listing: Listing {
                variables: [0, 1, 0, 0, 0, 0, 0, 0],
                count: 2,
            },
            condition: Term { first: 0, rows: 3 },
            text: TEXT,
        },
        // (true!), (addi! (p) (consti! 1))
        Statement::Assign {
            variable: 0,
            shadow: Term { first: 3, rows: 1 },
            value: Term { first: 4, rows: 3 },
        },
        // (q)
        Statement::Require {
            condition: Term { first: 7, rows: 1 },
            text: TEXT,
        },
        Statement::Split { label: 1 },
        // (q)
        Statement::When {
            condition: Term { first: 8, rows: 1 },
            label: 1,
        },
        Statement::Branch {
            text: TEXT,
            label: 2,
        },
        // (not! (q))
        Statement::When {
            condition: Term { first: 9, rows: 2 },
            label: 1,
        },
        Statement::Branch {
            text: TEXT,
            label: 2,
        },
        Statement::Join { label: 2 },
        // (defined! r)
        Statement::Proclaim {
            condition: Term { first: 11, rows: 1 },
        },
        Statement::Hang,
    ],
    rows: [
        Row::Operator(Operator::Gei),
        Row::Mention(Mention {
            variable: 0,
            aspect: Aspect::Value,
            stage: Stage::New,
        }),
        Row::Mention(Mention {
            variable: 0,
            aspect: Aspect::Value,
            stage: Stage::Current,
        }),
        Row::Operator(Operator::True),
        Row::Operator(Operator::Addi),
        Row::Mention(Mention {
            variable: 0,
            aspect: Aspect::Value,
            stage: Stage::Current,
        }),
        Row::Constant(1),
        Row::Mention(Mention {
            variable: 1,
            aspect: Aspect::Value,
            stage: Stage::Current,
        }),
        Row::Mention(Mention {
            variable: 1,
            aspect: Aspect::Value,
            stage: Stage::Current,
        }),
        Row::Operator(Operator::Not),
        Row::Mention(Mention {
            variable: 1,
            aspect: Aspect::Value,
            stage: Stage::Current,
        }),
        Row::Mention(Mention {
            variable: 2,
            aspect: Aspect::Shadow,
            stage: Stage::Current,
        }),
    ],
};
