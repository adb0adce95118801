// What the reckonings answer at the ends of the span and outside of it, and of pairs that are no marks of theirs.

use reckoning::decision::Decision;
use reckoning::mark::{ANY, Mark};
use reckoning::points::Points;
use reckoning::ranges::Ranges;
use reckoning::reckoning::Reckoning;
use terms::number::{GREATEST, LEAST};
use terms::operator::Operator;

const TRUTHS: Mark = Mark { low: 0, high: 1 };

fn range(low: i64, high: i64) -> Mark {
    Mark { low, high }
}

fn point(number: i64) -> Mark {
    range(number, number)
}

#[test]
fn division_rounds_toward_zero(rt: HostRuntime) {
    assert!(rt; Points.apply(Operator::Divi, point(-7), point(2), ANY) == point(-3));
    assert!(rt; Points.apply(Operator::Mod, point(-7), point(2), ANY) == point(-1));
    assert!(rt; Points.apply(Operator::Divi, point(5), point(0), ANY) == point(0));
    assert!(rt; Points.apply(Operator::Mod, point(5), point(0), ANY) == point(5));
    assert!(rt; Ranges.apply(Operator::Divi, range(-7, 3), range(2, 2), ANY) == range(-7, 7));
    assert!(rt; Ranges.apply(Operator::Mod, range(-7, 3), range(0, 0), ANY) == range(-7, 7));
}

#[test]
fn squares_leave_the_span(rt: HostRuntime) {
    let most = range(0, 44721);
    let more = range(0, 44722);
    assert!(rt; Ranges.apply(Operator::Mul, most, most, ANY) == range(0, 1999967841));
    assert!(rt; Ranges.apply(Operator::Mul, more, more, ANY) == ANY);
    assert!(rt; Points.apply(Operator::Mul, point(44721), point(44721), ANY) == point(1999967841));
    assert!(rt; Points.apply(Operator::Mul, point(44722), point(44722), ANY) == ANY);
}

#[test]
fn ends_of_the_span(rt: HostRuntime) {
    assert!(rt; Points.constant(GREATEST) == point(GREATEST));
    assert!(rt; Points.constant(GREATEST + 1) == ANY);
    assert!(rt; Points.constant(i64::MIN) == ANY);
    assert!(rt; Ranges.constant(LEAST) == point(LEAST));
    assert!(rt; Ranges.constant(LEAST - 1) == ANY);
    assert!(rt; Ranges.bounds(LEAST, GREATEST) == range(LEAST, GREATEST));
    assert!(rt; Ranges.bounds(LEAST, GREATEST + 1) == ANY);
    assert!(rt;
        Ranges.apply(Operator::Negi, range(LEAST, GREATEST), ANY, ANY) == range(LEAST, GREATEST)
    );
    assert!(rt;
        Ranges.apply(Operator::Addi, range(0, GREATEST), point(0), ANY) == range(0, GREATEST)
    );
    assert!(rt; Ranges.apply(Operator::Addi, range(0, GREATEST), point(1), ANY) == ANY);
}

#[test]
fn pairs_that_are_any(rt: HostRuntime) {
    let turned = range(5, 4);
    let outside = range(0, GREATEST + 1);
    assert!(rt; Ranges.bounds(5, 4) == ANY);
    assert!(rt; Points.bounds(4, 5) == ANY);
    assert!(rt; Points.bounds(4, 4) == point(4));
    assert!(rt; Ranges.apply(Operator::Addi, turned, point(1), ANY) == ANY);
    assert!(rt; Ranges.apply(Operator::Lti, outside, point(-1), ANY) == TRUTHS);
    assert!(rt; Points.apply(Operator::Lti, range(0, 1), point(5), ANY) == ANY);
    assert!(rt; Ranges.apply(Operator::And, point(0), ANY, ANY) == TRUTHS);
    assert!(rt; Ranges.decide(turned) == Decision::Unknown);
    assert!(rt; Points.decide(range(2, 3)) == Decision::Unknown);
}

#[test]
fn truths_outside_zero_to_one(rt: HostRuntime) {
    assert!(rt; Ranges.apply(Operator::Not, range(2, 5), ANY, ANY) == TRUTHS);
    assert!(rt; Ranges.apply(Operator::Not, range(1, 5), ANY, ANY) == point(0));
    assert!(rt; Ranges.apply(Operator::Not, range(-5, 0), ANY, ANY) == point(1));
    assert!(rt; Ranges.apply(Operator::If, point(2), point(7), point(8)) == ANY);
    assert!(rt; Ranges.apply(Operator::If, range(-1, 0), point(7), point(8)) == point(8));
    assert!(rt; Points.apply(Operator::Not, point(2), ANY, ANY) == ANY);
    assert!(rt; Ranges.decide(range(2, 5)) == Decision::No);
    assert!(rt; Ranges.decide(range(1, 5)) == Decision::Yes);
    assert!(rt; Points.decide(point(2)) == Decision::No);
}

#[test]
fn meets(rt: HostRuntime) {
    assert!(rt; Ranges.meet(range(0, 5), range(3, 9)) == Some(range(3, 5)));
    assert!(rt; Ranges.meet(range(0, 5), range(6, 9)) == None);
    assert!(rt; Ranges.meet(range(5, 4), range(6, 9)) == Some(range(6, 9)));
    assert!(rt; Ranges.meet(range(6, 9), ANY) == Some(range(6, 9)));
    assert!(rt; Points.meet(point(3), point(3)) == Some(point(3)));
    assert!(rt; Points.meet(point(3), point(4)) == None);
    assert!(rt; Points.meet(ANY, point(4)) == Some(point(4)));
    assert!(rt; Points.meet(point(4), range(0, 9)) == Some(point(4)));
}
