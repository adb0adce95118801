// Terms evaluated over both reckonings.

use reckoning::evaluation::evaluate;
use reckoning::mark::{ANY, Mark};
use reckoning::mentions::Cells;
use reckoning::points::{Points, number_of};
use reckoning::ranges::Ranges;
use terms::operator::Operator;
use terms::row::Row;

fn range(low: i64, high: i64) -> Mark {
    Mark { low, high }
}

// (if! (lti! x 3) (subi! 10 x) (mul! x x)), with x the cell 0.
static CHOICE: [Row<usize>; 10] = [
    Row::Operator(Operator::If),
    Row::Operator(Operator::Lti),
    Row::Mention(0),
    Row::Constant(3),
    Row::Operator(Operator::Subi),
    Row::Constant(10),
    Row::Mention(0),
    Row::Operator(Operator::Mul),
    Row::Mention(0),
    Row::Mention(0),
];

#[test]
fn exactly_by_points(rt: HostRuntime) {
    let mut working = [ANY; 12];
    let cells = [range(2, 2)];
    assert!(rt; number_of(&Cells { marks: &cells }, &CHOICE, &mut working) == Some(8));
    let others = [range(5, 5)];
    assert!(rt; number_of(&Cells { marks: &others }, &CHOICE, &mut working) == Some(25));
    assert!(rt; working[0] == ANY && working[1] == ANY);
}

// The cell stands ahead of the stack.
fn in_one_slice(working: &mut [Mark]) -> Mark {
    if working.len() < 1 {
        return ANY;
    }
    let (cells, stack) = working.split_at_mut(1);
    evaluate(&Points, &Cells { marks: cells }, &CHOICE, stack)
}

#[test]
fn cells_and_stack_in_one_slice(rt: HostRuntime) {
    let mut working = [range(5, 5); 11];
    assert!(rt; in_one_slice(&mut working) == range(25, 25));
    assert!(rt; working[0] == range(5, 5));
}

#[test]
fn by_ranges(rt: HostRuntime) {
    let mut working = [ANY; 10];
    let cells = [range(0, 2)];
    assert!(rt; evaluate(&Ranges, &Cells { marks: &cells }, &CHOICE, &mut working) == range(8, 10));
    let others = [range(2, 4)];
    assert!(rt;
        evaluate(&Ranges, &Cells { marks: &others }, &CHOICE, &mut working) == range(4, 16)
    );
}

#[test]
fn unknown_mentions_and_too_few_marks(rt: HostRuntime) {
    let mut working = [ANY; 10];
    let none: [Mark; 0] = [];
    assert!(rt; evaluate(&Ranges, &Cells { marks: &none }, &CHOICE, &mut working) == ANY);
    let cells = [range(2, 2)];
    let mut few = [ANY; 9];
    assert!(rt; evaluate(&Points, &Cells { marks: &cells }, &CHOICE, &mut few) == ANY);
    assert!(rt; number_of(&Cells { marks: &cells }, &CHOICE, &mut few) == None);
}

#[test]
fn malformed_terms(rt: HostRuntime) {
    let mut working = [ANY; 4];
    let cells = [range(2, 2)];
    let none: [Row<usize>; 0] = [];
    assert!(rt; evaluate(&Points, &Cells { marks: &cells }, &none, &mut working) == ANY);
    let short: [Row<usize>; 2] = [Row::Operator(Operator::Addi), Row::Mention(0)];
    assert!(rt; evaluate(&Points, &Cells { marks: &cells }, &short, &mut working) == ANY);
    let long: [Row<usize>; 2] = [Row::Mention(0), Row::Constant(7)];
    assert!(rt; evaluate(&Points, &Cells { marks: &cells }, &long, &mut working) == range(2, 2));
}
