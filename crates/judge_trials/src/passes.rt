// What the pass finds part by part: sheets on which each of its ways to pass is the only one.

use super::tables::{asked, number, set};
use judges::pass::{Pass, pass_stands};
use reckoning::points::Points;
use reckoning::ranges::Ranges;
use sheets::cell::CellRow;
use sheets::judge::Answer;
use sheets::part::Part;
use terms::kind::Kind;
use terms::operator::Operator;
use terms::row::Row;

// A part of five rows, and the goal of three.
const STEP_AND_GOAL: [Part; 2] = [Part { first: 0, rows: 5 }, Part { first: 5, rows: 3 }];

// (equal! c1 (addi! c0 1)), which sets c1, and the goal (lei! c1 limit)
fn stepped(limit: i64) -> [CellRow; 8] {
    [
        Row::Operator(Operator::Equal),
        Row::Mention(1),
        Row::Operator(Operator::Addi),
        Row::Mention(0),
        Row::Constant(1),
        Row::Operator(Operator::Lei),
        Row::Mention(1),
        Row::Constant(limit),
    ]
}

// c0 goes from 0 to 9, so c0 + 1 from 1 to 10. From 10 to 19 that leaves c1 only 10, and from 11 on nothing. The goal (lei! c1 9) is false of all of these.
#[test]
fn nothing_at_a_meet_passes(rt: HostRuntime) {
    let mut by_ranges = Pass { reckoning: Ranges };
    let apart = [number(0, 9), set(Kind::Number, 11, 19, 0)];
    let passed = asked(&mut by_ranges, &stepped(9), &STEP_AND_GOAL, &apart);
    assert!(rt; passed == Some((Answer::Pass, [0, 0, 5, 5])));
    let touching = [number(0, 9), set(Kind::Number, 10, 19, 0)];
    let unsure = asked(&mut by_ranges, &stepped(9), &STEP_AND_GOAL, &touching);
    assert!(rt; unsure == Some((Answer::Unsure, [0, 0, 5, 5])));
    pass_stands(&by_ranges);
}

// (not! (lti! c0 least)), and the goal (lti! c0 0)
fn from(least: i64) -> [CellRow; 7] {
    [
        Row::Operator(Operator::Not),
        Row::Operator(Operator::Lti),
        Row::Mention(0),
        Row::Constant(least),
        Row::Operator(Operator::Lti),
        Row::Mention(0),
        Row::Constant(0),
    ]
}

// c0 goes from 0 to 9, so it is never 10 or more, and the first part is 'no'; of 9 or more it is not known. The goal is 'no', by which nothing passes.
#[test]
fn no_of_a_part_passes_and_of_the_goal_does_not(rt: HostRuntime) {
    let mut by_ranges = Pass { reckoning: Ranges };
    let parts = [Part { first: 0, rows: 4 }, Part { first: 4, rows: 3 }];
    let passed = asked(&mut by_ranges, &from(10), &parts, &[number(0, 9)]);
    assert!(rt; passed == Some((Answer::Pass, [0, 5, 5, 5])));
    let unsure = asked(&mut by_ranges, &from(9), &parts, &[number(0, 9)]);
    assert!(rt; unsure == Some((Answer::Unsure, [0, 5, 5, 5])));
}

// The bounds of c1 go from 0 to 99, and the first part narrows it to 1 to 10: by the bounds (lei! c1 10) is not known, and then it is 'yes'. (lei! c1 9) stays unknown.
#[test]
fn a_goal_is_certain_once_its_cell_is_narrowed(rt: HostRuntime) {
    let mut by_ranges = Pass { reckoning: Ranges };
    let cells = [number(0, 9), set(Kind::Number, 0, 99, 0)];
    let passed = asked(&mut by_ranges, &stepped(10), &STEP_AND_GOAL, &cells);
    assert!(rt; passed == Some((Answer::Pass, [0, 0, 5, 5])));
    let unsure = asked(&mut by_ranges, &stepped(9), &STEP_AND_GOAL, &cells);
    assert!(rt; unsure == Some((Answer::Unsure, [0, 0, 5, 5])));
}

// (equal! c1 (addi! c0 1)), (equal! c2 (addi! c1 c1)), each setting its cell, and the goal (lei! c2 limit)
fn doubled(limit: i64) -> [CellRow; 13] {
    [
        Row::Operator(Operator::Equal),
        Row::Mention(1),
        Row::Operator(Operator::Addi),
        Row::Mention(0),
        Row::Constant(1),
        Row::Operator(Operator::Equal),
        Row::Mention(2),
        Row::Operator(Operator::Addi),
        Row::Mention(1),
        Row::Mention(1),
        Row::Operator(Operator::Lei),
        Row::Mention(2),
        Row::Constant(limit),
    ]
}

// By ranges c1 is narrowed from 0 to 99 to 1 to 10, and c2 by it from 0 to 99 to 2 to 20. By points nothing is known of c0 until its bounds are 4 and 4: then c1 is 5 and c2 is 10.
#[test]
fn what_is_narrowed_narrows_on(rt: HostRuntime) {
    let mut by_ranges = Pass { reckoning: Ranges };
    let mut by_points = Pass { reckoning: Points };
    let parts = [
        Part { first: 0, rows: 5 },
        Part { first: 5, rows: 5 },
        Part { first: 10, rows: 3 },
    ];
    let mut cells = [
        number(0, 9),
        set(Kind::Number, 0, 99, 0),
        set(Kind::Number, 0, 99, 1),
    ];
    let passed = Some((Answer::Pass, [0, 0, 0, 5]));
    let unsure = Some((Answer::Unsure, [0, 0, 0, 5]));
    assert!(rt; asked(&mut by_ranges, &doubled(20), &parts, &cells) == passed);
    assert!(rt; asked(&mut by_ranges, &doubled(19), &parts, &cells) == unsure);
    assert!(rt; asked(&mut by_points, &doubled(20), &parts, &cells) == unsure);
    cells[0] = number(4, 4);
    assert!(rt; asked(&mut by_points, &doubled(10), &parts, &cells) == passed);
    assert!(rt; asked(&mut by_points, &doubled(9), &parts, &cells) == unsure);
}
