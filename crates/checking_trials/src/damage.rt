// Tables that no reading leaves: each is refused, and the place says what it said before.

use super::tables::{Damage, SOUND, TEXT};
use checking::fault::CheckFault;
use checking::unit::CheckedUnit;
use jcode::mention::{Aspect, Mention, Stage};
use jcode::refusal::Refusal;
use jcode::span::Span;
use jcode::statement::{Listing, Statement, Term};
use jcode::variable::{Domain, Variable};
use terms::operator::Operator;
use terms::row::Row;

pub(super) const DAMAGE: CheckFault = CheckFault::Rule {
    refusal: Refusal::Tables,
    place: 0,
};

static DAMAGED: [Damage; 62] = [
    // rows that lack an operand
    Damage::Row(2, Row::Operator(Operator::Not)),
    // rows that write three terms
    Damage::Row(0, Row::Constant(1)),
    // rows that write two terms
    Damage::Row(9, Row::Operator(Operator::True)),
    // an operator alone
    Damage::Row(11, Row::Operator(Operator::Not)),
    // a mention past the last variable
    Damage::Row(
        7,
        Row::Mention(Mention {
            variable: 3,
            aspect: Aspect::Value,
            stage: Stage::Current,
        }),
    ),
    // and far past it
    Damage::Row(
        7,
        Row::Mention(Mention {
            variable: usize::MAX,
            aspect: Aspect::Value,
            stage: Stage::Current,
        }),
    ),
    // a shadow past the last variable
    Damage::Row(
        11,
        Row::Mention(Mention {
            variable: 3,
            aspect: Aspect::Shadow,
            stage: Stage::Current,
        }),
    ),
    // new! outside NEW
    Damage::Row(
        8,
        Row::Mention(Mention {
            variable: 1,
            aspect: Aspect::Value,
            stage: Stage::New,
        }),
    ),
    // new! of a variable that is not listed
    Damage::Row(
        1,
        Row::Mention(Mention {
            variable: 2,
            aspect: Aspect::Value,
            stage: Stage::New,
        }),
    ),
    // new! past the last variable
    Damage::Row(
        1,
        Row::Mention(Mention {
            variable: 3,
            aspect: Aspect::Value,
            stage: Stage::New,
        }),
    ),
    // constants out of range
    Damage::Row(6, Row::Constant(2_000_000_001)),
    Damage::Row(6, Row::Constant(-2_000_000_001)),
    Damage::Row(6, Row::Constant(i64::MIN)),
    // a term that overlaps the one before it
    Damage::Statement(
        3,
        Statement::Require {
            condition: Term { first: 6, rows: 2 },
            text: TEXT,
        },
    ),
    // a term with the rows of another
    Damage::Statement(
        5,
        Statement::When {
            condition: Term { first: 7, rows: 1 },
            label: 1,
        },
    ),
    // a term with the rows of all
    Damage::Statement(
        3,
        Statement::Require {
            condition: Term { first: 0, rows: 12 },
            text: TEXT,
        },
    ),
    // a term without a row
    Damage::Statement(
        3,
        Statement::Require {
            condition: Term { first: 7, rows: 0 },
            text: TEXT,
        },
    ),
    // rows between two terms
    Damage::Statement(3, Statement::Break { text: TEXT }),
    // rows after the last term
    Damage::Statement(10, Statement::Break { text: TEXT }),
    // rows past the last
    Damage::Statement(
        10,
        Statement::Proclaim {
            condition: Term { first: 11, rows: 2 },
        },
    ),
    // a first row past the last
    Damage::Statement(
        10,
        Statement::Proclaim {
            condition: Term { first: 12, rows: 1 },
        },
    ),
    // rows up to the greatest number
    Damage::Statement(
        10,
        Statement::Proclaim {
            condition: Term {
                first: 11,
                rows: usize::MAX,
            },
        },
    ),
    // a first row at the greatest number
    Damage::Statement(
        10,
        Statement::Proclaim {
            condition: Term {
                first: usize::MAX,
                rows: 1,
            },
        },
    ),
    // a shadow that takes its value's rows
    Damage::Statement(
        2,
        Statement::Assign {
            variable: 0,
            shadow: Term { first: 3, rows: 1 },
            value: Term { first: 3, rows: 3 },
        },
    ),
    // a list with one name twice
    Damage::Statement(
        1,
        Statement::New {
            listing: Listing {
                variables: [0, 0, 0, 0, 0, 0, 0, 0],
                count: 2,
            },
            condition: Term { first: 0, rows: 3 },
            text: TEXT,
        },
    ),
    // a variable past the last in a list
    Damage::Statement(
        1,
        Statement::New {
            listing: Listing {
                variables: [0, 3, 0, 0, 0, 0, 0, 0],
                count: 2,
            },
            condition: Term { first: 0, rows: 3 },
            text: TEXT,
        },
    ),
    // a listed place past the count that is not 0
    Damage::Statement(
        1,
        Statement::New {
            listing: Listing {
                variables: [0, 1, 0, 0, 0, 0, 0, 2],
                count: 2,
            },
            condition: Term { first: 0, rows: 3 },
            text: TEXT,
        },
    ),
    // the same, next to the count
    Damage::Statement(
        1,
        Statement::New {
            listing: Listing {
                variables: [0, 1, 2, 0, 0, 0, 0, 0],
                count: 2,
            },
            condition: Term { first: 0, rows: 3 },
            text: TEXT,
        },
    ),
    // a count above the places
    Damage::Statement(
        1,
        Statement::New {
            listing: Listing {
                variables: [0, 1, 0, 0, 0, 0, 0, 0],
                count: 9,
            },
            condition: Term { first: 0, rows: 3 },
            text: TEXT,
        },
    ),
    // the greatest count
    Damage::Statement(
        1,
        Statement::New {
            listing: Listing {
                variables: [0, 1, 0, 0, 0, 0, 0, 0],
                count: usize::MAX,
            },
            condition: Term { first: 0, rows: 3 },
            text: TEXT,
        },
    ),
    // ASSIGN of a variable past the last
    Damage::Statement(
        2,
        Statement::Assign {
            variable: 3,
            shadow: Term { first: 3, rows: 1 },
            value: Term { first: 4, rows: 3 },
        },
    ),
    // texts outside the bytes
    Damage::Statement(
        0,
        Statement::Break {
            text: Span {
                start: 100,
                length: 7,
            },
        },
    ),
    Damage::Statement(
        1,
        Statement::New {
            listing: Listing {
                variables: [0, 1, 0, 0, 0, 0, 0, 0],
                count: 2,
            },
            condition: Term { first: 0, rows: 3 },
            text: Span {
                start: 107,
                length: 0,
            },
        },
    ),
    Damage::Statement(
        3,
        Statement::Require {
            condition: Term { first: 7, rows: 1 },
            text: Span {
                start: usize::MAX,
                length: 1,
            },
        },
    ),
    Damage::Statement(
        6,
        Statement::Branch {
            text: Span {
                start: 1,
                length: usize::MAX,
            },
            label: 2,
        },
    ),
    // texts with a byte that they may not have
    Damage::Statement(
        0,
        Statement::Break {
            text: Span {
                start: 22,
                length: 1,
            },
        },
    ),
    Damage::Statement(
        3,
        Statement::Require {
            condition: Term { first: 7, rows: 1 },
            text: Span {
                start: 20,
                length: 3,
            },
        },
    ),
    Damage::Statement(
        8,
        Statement::Branch {
            text: Span {
                start: 23,
                length: 2,
            },
            label: 2,
        },
    ),
    // a text that ends too soon
    Damage::Statement(
        0,
        Statement::Break {
            text: Span {
                start: 14,
                length: 4,
            },
        },
    ),
    // a text of 81 bytes
    Damage::Statement(
        0,
        Statement::Break {
            text: Span {
                start: 25,
                length: 81,
            },
        },
    ),
    // names outside the bytes
    Damage::Name(Span {
        start: 106,
        length: 1,
    }),
    Damage::Name(Span {
        start: usize::MAX,
        length: 1,
    }),
    Damage::Variable(
        1,
        Variable {
            name: Span {
                start: 105,
                length: 2,
            },
            domain: Domain::Boolean,
        },
    ),
    // names with a byte that they may not have
    Damage::Name(Span {
        start: 5,
        length: 3,
    }),
    Damage::Variable(
        1,
        Variable {
            name: Span {
                start: 7,
                length: 2,
            },
            domain: Domain::Boolean,
        },
    ),
    // names that begin with no letter
    Damage::Name(Span {
        start: 19,
        length: 2,
    }),
    Damage::Variable(
        1,
        Variable {
            name: Span {
                start: 19,
                length: 1,
            },
            domain: Domain::Boolean,
        },
    ),
    // names of no byte
    Damage::Name(Span {
        start: 0,
        length: 0,
    }),
    Damage::Variable(
        1,
        Variable {
            name: Span {
                start: 7,
                length: 0,
            },
            domain: Domain::Boolean,
        },
    ),
    // names of 33 bytes
    Damage::Name(Span {
        start: 25,
        length: 33,
    }),
    Damage::Variable(
        1,
        Variable {
            name: Span {
                start: 25,
                length: 33,
            },
            domain: Domain::Boolean,
        },
    ),
    // a name declared twice, at its own bytes and at others
    Damage::Variable(
        1,
        Variable {
            name: Span {
                start: 5,
                length: 1,
            },
            domain: Domain::Boolean,
        },
    ),
    Damage::Variable(
        1,
        Variable {
            name: Span {
                start: 12,
                length: 1,
            },
            domain: Domain::Boolean,
        },
    ),
    // low above high
    Damage::Variable(
        2,
        Variable {
            name: Span {
                start: 9,
                length: 1,
            },
            domain: Domain::Subrange { low: 1, high: 0 },
        },
    ),
    // bounds out of range
    Damage::Variable(
        2,
        Variable {
            name: Span {
                start: 9,
                length: 1,
            },
            domain: Domain::Subrange {
                low: 0,
                high: 2_000_000_001,
            },
        },
    ),
    Damage::Variable(
        2,
        Variable {
            name: Span {
                start: 9,
                length: 1,
            },
            domain: Domain::Subrange {
                low: -2_000_000_001,
                high: 0,
            },
        },
    ),
    Damage::Variable(
        2,
        Variable {
            name: Span {
                start: 9,
                length: 1,
            },
            domain: Domain::Subrange {
                low: i64::MIN,
                high: i64::MAX,
            },
        },
    ),
    // labels out of range
    Damage::Statement(4, Statement::Split { label: 0 }),
    Damage::Statement(
        5,
        Statement::When {
            condition: Term { first: 8, rows: 1 },
            label: 0,
        },
    ),
    Damage::Statement(
        6,
        Statement::Branch {
            text: TEXT,
            label: 10_000,
        },
    ),
    Damage::Statement(9, Statement::Join { label: 10_000 }),
    Damage::Statement(9, Statement::Join { label: u16::MAX }),
];

// Changes that leave the tables sound.
static SPARED: [Damage; 8] = [
    // a text at the end of the bytes, of 80 bytes and of none
    Damage::Statement(
        0,
        Statement::Break {
            text: Span {
                start: 26,
                length: 80,
            },
        },
    ),
    Damage::Statement(
        0,
        Statement::Break {
            text: Span {
                start: 106,
                length: 0,
            },
        },
    ),
    // a name of 32 bytes, and one at the end of the bytes
    Damage::Name(Span {
        start: 25,
        length: 32,
    }),
    Damage::Name(Span {
        start: 105,
        length: 1,
    }),
    // a variable with the unit's name
    Damage::Variable(
        2,
        Variable {
            name: Span {
                start: 0,
                length: 4,
            },
            domain: Domain::Integer,
        },
    ),
    // the ends of the span
    Damage::Row(6, Row::Constant(1_999_999_991)),
    Damage::Variable(
        2,
        Variable {
            name: Span {
                start: 9,
                length: 1,
            },
            domain: Domain::Subrange {
                low: -2_000_000_000,
                high: 2_000_000_000,
            },
        },
    ),
    // a list of all variables
    Damage::Statement(
        1,
        Statement::New {
            listing: Listing {
                variables: [2, 1, 0, 0, 0, 0, 0, 0],
                count: 3,
            },
            condition: Term { first: 0, rows: 3 },
            text: TEXT,
        },
    ),
];

#[test]
fn damaged_tables_are_refused(rt: HostRuntime) {
    for (case, damage) in DAMAGED.iter().enumerate() {
        let (told, is_house) = SOUND.damaged(*damage).check();
        assert!(rt; told == Err(DAMAGE), "damage {case}");
        assert!(rt; is_house, "damage {case}");
    }
}

#[test]
fn sound_tables_pass(rt: HostRuntime) {
    assert!(rt; SOUND.check() == (Ok(()), false));
    for (case, change) in SPARED.iter().enumerate() {
        let (told, is_house) = SOUND.damaged(*change).check();
        assert!(rt; told == Ok(()), "change {case}");
        assert!(rt; !is_house, "change {case}");
    }
}

// The rule of reading comes ahead of all others.
#[test]
fn damage_ahead_of_order(rt: HostRuntime) {
    let disorder = SOUND.damaged(Damage::Statement(0, Statement::Hang));
    let first = CheckFault::Rule {
        refusal: Refusal::Order,
        place: 0,
    };
    assert!(rt; disorder.check() == (Err(first), true));
    let both = disorder.damaged(Damage::Name(Span {
        start: 0,
        length: 0,
    }));
    assert!(rt; both.check() == (Err(DAMAGE), true));
}

// A refused check leaves the unit that an earlier one has filled the place with.
#[test]
fn the_place_stays(rt: HostRuntime) {
    let sound = SOUND;
    let damaged = SOUND.damaged(Damage::Row(6, Row::Constant(i64::MAX)));
    let wide = SOUND.damaged(Damage::Row(6, Row::Constant(1_999_999_992)));
    let mut unit = CheckedUnit::house();
    assert!(rt; sound.fill(&mut unit) == Ok(()));
    let before = unit;
    assert!(rt; damaged.fill(&mut unit) == Err(DAMAGE));
    assert!(rt; unit == before);
    let fault = CheckFault::Rule {
        refusal: Refusal::Range,
        place: 2,
    };
    assert!(rt; wide.fill(&mut unit) == Err(fault));
    assert!(rt; unit == before);
    assert!(rt; unit.name() == b"Unit".as_slice());
    assert_eq!(rt; unit.paths(), 1);
}
