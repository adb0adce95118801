// Tables at the limits of a unit and past them.

use super::damage::DAMAGE;
use checking::fault::CheckFault;
use checking::unit::CheckedUnit;
use jcode::mention::UnitRow;
use jcode::refusal::Refusal;
use jcode::span::Span;
use jcode::statement::{Statement, Term};
use jcode::variable::{Domain, Variable};
use std::array;
use terms::operator::Operator;
use terms::part::part;
use terms::row::Row;

// A name for each of 33 variables.
static NAMES: [u8; 33] = *b"abcdefghijklmnopqrstuvwxyzABCDEFG";

const EMPTY: Span = Span {
    start: 0,
    length: 0,
};

// What a check of tables tells, whose unit is named `abc`.
fn told(
    variables: &[Variable],
    statements: &[Statement],
    rows: &[UnitRow],
) -> Result<(), CheckFault> {
    let name = Span {
        start: 0,
        length: 3,
    };
    CheckedUnit::house().check(&NAMES, name, variables, statements, rows)
}

#[test]
fn thirty_two_variables(rt: HostRuntime) {
    let statements = [Statement::Break { text: EMPTY }, Statement::Hang];
    let variables: [Variable; 33] = array::from_fn(|start| Variable {
        name: Span { start, length: 1 },
        domain: Domain::Integer,
    });
    assert!(rt; told(part(&variables, 0, 32), &statements, &[]) == Ok(()));
    assert!(rt; told(&variables, &statements, &[]) == Err(DAMAGE));
}

#[test]
fn two_hundred_statements(rt: HostRuntime) {
    let mut statements = [Statement::Break { text: EMPTY }; 201];
    statements[200] = Statement::Hang;
    assert!(rt; told(&[], &statements[1..], &[]) == Ok(()));
    assert!(rt; told(&[], &statements, &[]) == Err(DAMAGE));
}

#[test]
fn two_thousand_rows(rt: HostRuntime) {
    let rows: [UnitRow; 2_001] = array::from_fn(|i| Row::Operator(if i % 20 == 19 || i == 2_000 {
        Operator::True
    } else {
        Operator::Not
    }));
    let mut statements: [Statement; 103] = array::from_fn(|i| match i {
        0 => Statement::Break { text: EMPTY },
        1..=100 => Statement::Proclaim {
            condition: Term {
                first: 20 * (i - 1),
                rows: 20,
            },
        },
        _ => Statement::Hang,
    });
    assert!(rt; told(&[], part(&statements, 0, 102), part(&rows, 0, 2_000)) == Ok(()));
    statements[101] = Statement::Proclaim {
        condition: Term {
            first: 2_000,
            rows: 1,
        },
    };
    assert!(rt; told(&[], &statements, &rows) == Err(DAMAGE));
}

// BREAK, PROCLAIM of a term of so many rows, HANG.
fn proclaiming(rows: usize) -> [Statement; 3] {
    [
        Statement::Break { text: EMPTY },
        Statement::Proclaim {
            condition: Term { first: 0, rows },
        },
        Statement::Hang,
    ]
}

#[test]
fn nesting_thirty_two(rt: HostRuntime) {
    let mut rows: [UnitRow; 33] = [Row::Operator(Operator::Not); 33];
    rows[32] = Row::Operator(Operator::True);
    assert!(rt; told(&[], &proclaiming(32), &rows[1..]) == Ok(()));
    assert!(rt; told(&[], &proclaiming(33), &rows) == Err(DAMAGE));
}

#[test]
fn a_term_has_a_row(rt: HostRuntime) {
    let rows: [UnitRow; 1] = [Row::Operator(Operator::True)];
    assert!(rt; told(&[], &proclaiming(1), &rows) == Ok(()));
    assert!(rt; told(&[], &proclaiming(0), &[]) == Err(DAMAGE));
    assert!(rt; told(&[], &proclaiming(0), &rows) == Err(DAMAGE));
    assert!(rt; told(&[], &proclaiming(1), &[]) == Err(DAMAGE));
}

// Tables of no statement are those that reading leaves of a unit without one.
#[test]
fn no_statement(rt: HostRuntime) {
    let first = CheckFault::Rule {
        refusal: Refusal::Order,
        place: 0,
    };
    assert!(rt; told(&[], &[], &[]) == Err(first));
}
