// In which order the trier goes, and which cells count among its tries.

use super::tables::{asked, number, set};
use judges::trier::Trier;
use sheets::cell::{Cell, CellRow};
use sheets::judge::Answer;
use sheets::part::Part;
use terms::kind::Kind;
use terms::operator::Operator;
use terms::row::Row;

// (equal! next (addi! first 1)), and the goal (lti! (addi! next last) limit)
fn summed(limit: i64) -> [CellRow; 10] {
    [
        Row::Operator(Operator::Equal),
        Row::Mention(1),
        Row::Operator(Operator::Addi),
        Row::Mention(0),
        Row::Constant(1),
        Row::Operator(Operator::Lti),
        Row::Operator(Operator::Addi),
        Row::Mention(1),
        Row::Mention(2),
        Row::Constant(limit),
    ]
}

const SUMMED: [Part; 2] = [Part { first: 0, rows: 5 }, Part { first: 5, rows: 5 }];

// The first and the last are tried up to a high, and the next between them is set.
fn sums(first: i64, next: Cell, last: i64) -> [Cell; 3] {
    [number(0, first), next, number(0, last)]
}

fn next(low: i64, high: i64) -> Cell {
    set(Kind::Number, low, high, 0)
}

// What falsifies is 1 2 3, 2 3 2, 2 3 3, 3 4 1, 3 4 2 and 3 4 3.
#[test]
fn the_lowest_cell_is_slowest(rt: HostRuntime) {
    let found = asked(&mut Trier, &summed(5), &SUMMED, &sums(3, next(0, 4), 3));
    assert!(rt; found == Some((Answer::Fail, [1, 2, 3, 5])));
}

// Of these only those with 3 or more in the middle are left.
#[test]
fn tries_that_a_set_cell_ends_are_passed_by(rt: HostRuntime) {
    let found = asked(&mut Trier, &summed(5), &SUMMED, &sums(3, next(3, 4), 3));
    assert!(rt; found == Some((Answer::Fail, [2, 3, 2, 5])));
}

#[test]
fn only_cells_that_are_free_to_choose_count(rt: HostRuntime) {
    let idle = number(0, 2_000_000_000);
    let [first, middle, last] = sums(255, next(0, 256), 255);
    let most = asked(
        &mut Trier,
        &summed(600),
        &SUMMED,
        &[first, middle, last, idle],
    );
    assert!(rt; most == Some((Answer::Pass, [0, 0, 0, 0])));
    let more = asked(
        &mut Trier,
        &summed(600),
        &SUMMED,
        &sums(255, next(0, 256), 256),
    );
    assert!(rt; more == Some((Answer::Unsure, [0, 0, 0, 5])));
}

#[test]
fn without_cells_there_is_one_try(rt: HostRuntime) {
    let goal = [Row::Operator(Operator::False)];
    let alone = [Part { first: 0, rows: 1 }];
    let found = asked(&mut Trier, &goal, &alone, &[]);
    assert!(rt; found == Some((Answer::Fail, [5, 5, 5, 5])));
}
