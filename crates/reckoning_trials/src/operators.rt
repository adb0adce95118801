// Every operator: by a table of its own, and over small ranges and points compared with all choices by brute force. No number that is expected here comes from the program.

use reckoning::mark::{ANY, Mark};
use reckoning::points::Points;
use reckoning::ranges::Ranges;
use reckoning::reckoning::Reckoning;
use std::process::Abort;
use terms::kind::{Kind, Sort};
use terms::operator::{Operands, Operator, Signature, find};

const NUMBER: Sort = Sort::Of(Kind::Number);

const TRUTH: Sort = Sort::Of(Kind::Truth);

const SAME: Sort = Sort::Same;

// An operator with its word, what it takes and gives, and its results for some operands; none where that leaves the span.
struct Line {
    operator: Operator,
    word: &'static [u8],
    signature: Signature,
    results: &'static [([i64; 3], Option<i64>)],
}

// In the order of `Operator`.
static OPERATORS: [Line; 25] = [
    Line {
        operator: Operator::Addi,
        word: b"addi",
        signature: Signature {
            operands: Operands::Two(NUMBER, NUMBER),
            result: NUMBER,
        },
        results: &[
            ([7, -9, 0], Some(-2)),
            ([-7, -2, 0], Some(-9)),
            ([1999999999, 1, 0], Some(2000000000)),
            ([2000000000, 1, 0], None),
            ([-2000000000, -1, 0], None),
        ],
    },
    Line {
        operator: Operator::Subi,
        word: b"subi",
        signature: Signature {
            operands: Operands::Two(NUMBER, NUMBER),
            result: NUMBER,
        },
        results: &[
            ([7, 9, 0], Some(-2)),
            ([-7, -9, 0], Some(2)),
            ([-2000000000, 0, 0], Some(-2000000000)),
            ([-2000000000, 1, 0], None),
            ([2000000000, -1, 0], None),
        ],
    },
    Line {
        operator: Operator::Negi,
        word: b"negi",
        signature: Signature {
            operands: Operands::One(NUMBER),
            result: NUMBER,
        },
        results: &[
            ([7, 0, 0], Some(-7)),
            ([-2000000000, 0, 0], Some(2000000000)),
            ([0, 0, 0], Some(0)),
        ],
    },
    Line {
        operator: Operator::Mul,
        word: b"mul",
        signature: Signature {
            operands: Operands::Two(NUMBER, NUMBER),
            result: NUMBER,
        },
        results: &[
            ([-7, 9, 0], Some(-63)),
            ([-7, -9, 0], Some(63)),
            ([0, -9, 0], Some(0)),
            ([44721, 44721, 0], Some(1999967841)),
            ([44722, 44722, 0], None),
            ([-44722, 44722, 0], None),
        ],
    },
    Line {
        operator: Operator::Divi,
        word: b"divi",
        signature: Signature {
            operands: Operands::Two(NUMBER, NUMBER),
            result: NUMBER,
        },
        results: &[
            ([7, 2, 0], Some(3)),
            ([-7, 2, 0], Some(-3)),
            ([7, -2, 0], Some(-3)),
            ([-7, -2, 0], Some(3)),
            ([5, 0, 0], Some(0)),
            ([-5, 0, 0], Some(0)),
            ([1, 2, 0], Some(0)),
            ([-1, 2, 0], Some(0)),
        ],
    },
    Line {
        operator: Operator::Mod,
        word: b"mod",
        signature: Signature {
            operands: Operands::Two(NUMBER, NUMBER),
            result: NUMBER,
        },
        results: &[
            ([7, 2, 0], Some(1)),
            ([-7, 2, 0], Some(-1)),
            ([7, -2, 0], Some(1)),
            ([-7, -2, 0], Some(-1)),
            ([5, 0, 0], Some(5)),
            ([-5, 0, 0], Some(-5)),
            ([6, 3, 0], Some(0)),
            ([-6, 3, 0], Some(0)),
        ],
    },
    Line {
        operator: Operator::Odd,
        word: b"odd",
        signature: Signature {
            operands: Operands::One(NUMBER),
            result: TRUTH,
        },
        results: &[
            ([3, 0, 0], Some(1)),
            ([-3, 0, 0], Some(1)),
            ([4, 0, 0], Some(0)),
            ([-4, 0, 0], Some(0)),
            ([0, 0, 0], Some(0)),
        ],
    },
    Line {
        operator: Operator::Gei,
        word: b"gei",
        signature: Signature {
            operands: Operands::Two(NUMBER, NUMBER),
            result: TRUTH,
        },
        results: &[
            ([-3, 2, 0], Some(0)),
            ([2, 2, 0], Some(1)),
            ([2, -3, 0], Some(1)),
        ],
    },
    Line {
        operator: Operator::Lei,
        word: b"lei",
        signature: Signature {
            operands: Operands::Two(NUMBER, NUMBER),
            result: TRUTH,
        },
        results: &[
            ([-3, 2, 0], Some(1)),
            ([2, 2, 0], Some(1)),
            ([2, -3, 0], Some(0)),
        ],
    },
    Line {
        operator: Operator::Gti,
        word: b"gti",
        signature: Signature {
            operands: Operands::Two(NUMBER, NUMBER),
            result: TRUTH,
        },
        results: &[
            ([-3, 2, 0], Some(0)),
            ([2, 2, 0], Some(0)),
            ([2, -3, 0], Some(1)),
        ],
    },
    Line {
        operator: Operator::Lti,
        word: b"lti",
        signature: Signature {
            operands: Operands::Two(NUMBER, NUMBER),
            result: TRUTH,
        },
        results: &[
            ([-3, 2, 0], Some(1)),
            ([2, 2, 0], Some(0)),
            ([2, -3, 0], Some(0)),
        ],
    },
    Line {
        operator: Operator::Mini,
        word: b"mini",
        signature: Signature {
            operands: Operands::Two(NUMBER, NUMBER),
            result: NUMBER,
        },
        results: &[
            ([-3, 2, 0], Some(-3)),
            ([2, 2, 0], Some(2)),
            ([2, -3, 0], Some(-3)),
        ],
    },
    Line {
        operator: Operator::Maxi,
        word: b"maxi",
        signature: Signature {
            operands: Operands::Two(NUMBER, NUMBER),
            result: NUMBER,
        },
        results: &[
            ([-3, 2, 0], Some(2)),
            ([2, 2, 0], Some(2)),
            ([2, -3, 0], Some(2)),
        ],
    },
    Line {
        operator: Operator::True,
        word: b"true",
        signature: Signature {
            operands: Operands::None,
            result: TRUTH,
        },
        results: &[([0, 0, 0], Some(1))],
    },
    Line {
        operator: Operator::False,
        word: b"false",
        signature: Signature {
            operands: Operands::None,
            result: TRUTH,
        },
        results: &[([0, 0, 0], Some(0))],
    },
    Line {
        operator: Operator::And,
        word: b"and",
        signature: Signature {
            operands: Operands::Two(TRUTH, TRUTH),
            result: TRUTH,
        },
        results: &[
            ([0, 0, 0], Some(0)),
            ([0, 1, 0], Some(0)),
            ([1, 0, 0], Some(0)),
            ([1, 1, 0], Some(1)),
        ],
    },
    Line {
        operator: Operator::Or,
        word: b"or",
        signature: Signature {
            operands: Operands::Two(TRUTH, TRUTH),
            result: TRUTH,
        },
        results: &[
            ([0, 0, 0], Some(0)),
            ([0, 1, 0], Some(1)),
            ([1, 0, 0], Some(1)),
            ([1, 1, 0], Some(1)),
        ],
    },
    Line {
        operator: Operator::Not,
        word: b"not",
        signature: Signature {
            operands: Operands::One(TRUTH),
            result: TRUTH,
        },
        results: &[([0, 0, 0], Some(1)), ([1, 0, 0], Some(0))],
    },
    Line {
        operator: Operator::Implies,
        word: b"implies",
        signature: Signature {
            operands: Operands::Two(TRUTH, TRUTH),
            result: TRUTH,
        },
        results: &[
            ([0, 0, 0], Some(1)),
            ([0, 1, 0], Some(1)),
            ([1, 0, 0], Some(0)),
            ([1, 1, 0], Some(1)),
        ],
    },
    Line {
        operator: Operator::Impliedby,
        word: b"impliedby",
        signature: Signature {
            operands: Operands::Two(TRUTH, TRUTH),
            result: TRUTH,
        },
        results: &[
            ([0, 0, 0], Some(1)),
            ([0, 1, 0], Some(0)),
            ([1, 0, 0], Some(1)),
            ([1, 1, 0], Some(1)),
        ],
    },
    Line {
        operator: Operator::Notimplies,
        word: b"notimplies",
        signature: Signature {
            operands: Operands::Two(TRUTH, TRUTH),
            result: TRUTH,
        },
        results: &[
            ([0, 0, 0], Some(0)),
            ([0, 1, 0], Some(0)),
            ([1, 0, 0], Some(1)),
            ([1, 1, 0], Some(0)),
        ],
    },
    Line {
        operator: Operator::Notimpliedby,
        word: b"notimpliedby",
        signature: Signature {
            operands: Operands::Two(TRUTH, TRUTH),
            result: TRUTH,
        },
        results: &[
            ([0, 0, 0], Some(0)),
            ([0, 1, 0], Some(1)),
            ([1, 0, 0], Some(0)),
            ([1, 1, 0], Some(0)),
        ],
    },
    Line {
        operator: Operator::Equal,
        word: b"equal",
        signature: Signature {
            operands: Operands::Two(SAME, SAME),
            result: TRUTH,
        },
        results: &[
            ([0, 0, 0], Some(1)),
            ([0, 1, 0], Some(0)),
            ([1, 0, 0], Some(0)),
            ([1, 1, 0], Some(1)),
            ([-3, 3, 0], Some(0)),
            ([3, -3, 0], Some(0)),
            ([-3, -3, 0], Some(1)),
        ],
    },
    Line {
        operator: Operator::Notequal,
        word: b"notequal",
        signature: Signature {
            operands: Operands::Two(SAME, SAME),
            result: TRUTH,
        },
        results: &[
            ([0, 0, 0], Some(0)),
            ([0, 1, 0], Some(1)),
            ([1, 0, 0], Some(1)),
            ([1, 1, 0], Some(0)),
            ([-3, 3, 0], Some(1)),
            ([3, -3, 0], Some(1)),
            ([-3, -3, 0], Some(0)),
        ],
    },
    Line {
        operator: Operator::If,
        word: b"if",
        signature: Signature {
            operands: Operands::Three(TRUTH, SAME, SAME),
            result: SAME,
        },
        results: &[
            ([1, 5, -7], Some(5)),
            ([0, 5, -7], Some(-7)),
            ([1, 0, 1], Some(0)),
            ([0, 0, 1], Some(1)),
        ],
    },
];

const TRUTHS: Mark = Mark { low: 0, high: 1 };

// All ranges from -2 to 3, and 'any', which has no choice here.
static SMALL: [Mark; 22] = [
    ANY,
    Mark { low: -2, high: -2 },
    Mark { low: -2, high: -1 },
    Mark { low: -2, high: 0 },
    Mark { low: -2, high: 1 },
    Mark { low: -2, high: 2 },
    Mark { low: -2, high: 3 },
    Mark { low: -1, high: -1 },
    Mark { low: -1, high: 0 },
    Mark { low: -1, high: 1 },
    Mark { low: -1, high: 2 },
    Mark { low: -1, high: 3 },
    Mark { low: 0, high: 0 },
    Mark { low: 0, high: 1 },
    Mark { low: 0, high: 2 },
    Mark { low: 0, high: 3 },
    Mark { low: 1, high: 1 },
    Mark { low: 1, high: 2 },
    Mark { low: 1, high: 3 },
    Mark { low: 2, high: 2 },
    Mark { low: 2, high: 3 },
    Mark { low: 3, high: 3 },
];

static NONE: [Mark; 1] = [Mark { low: 0, high: 0 }];

fn arity(signature: Signature) -> usize {
    match signature.operands {
        Operands::None => 0,
        Operands::One(_) => 1,
        Operands::Two(_, _) => 2,
        Operands::Three(_, _, _) => 3,
    }
}

fn operands(signature: Signature, place: usize) -> &'static [Mark] {
    if place < arity(signature) {
        &SMALL
    } else {
        &NONE
    }
}

fn is_of(sort: Sort, number: i64) -> bool {
    sort != TRUTH || number == 0 || number == 1
}

fn is_suited(signature: Signature, numbers: [i64; 3]) -> bool {
    let [x, y, z] = numbers;
    match signature.operands {
        Operands::None => true,
        Operands::One(a) => is_of(a, x),
        Operands::Two(a, b) => is_of(a, x) && is_of(b, y),
        Operands::Three(a, b, c) => is_of(a, x) && is_of(b, y) && is_of(c, z),
    }
}

// What an operator whose result is a truth says of operands of its kinds.
fn says(operator: Operator, x: i64, y: i64) -> bool {
    match operator {
        Operator::Odd => x & 1 == 1,
        Operator::Gei | Operator::Impliedby => x >= y,
        Operator::Lei | Operator::Implies => x <= y,
        Operator::Gti | Operator::Notimplies => x > y,
        Operator::Lti | Operator::Notimpliedby => x < y,
        Operator::True => true,
        Operator::And => x.min(y) == 1,
        Operator::Or => x.max(y) == 1,
        Operator::Not => x == 0,
        Operator::Equal => x == y,
        Operator::Notequal => x != y,
        _ => false,
    }
}

// What an operator gives for small operands of its kinds: of two truths, the first implies the second if it is not the greater.
fn result(operator: Operator, numbers: [i64; 3]) -> i64 {
    let [x, y, z] = numbers;
    match operator {
        Operator::Addi => x.wrapping_add(y),
        Operator::Subi => x.wrapping_sub(y),
        Operator::Negi => x.wrapping_neg(),
        Operator::Mul => x.wrapping_mul(y),
        Operator::Divi => x.checked_div(y).unwrap_or(0),
        Operator::Mod => x.checked_rem(y).unwrap_or(x),
        Operator::Mini => if x < y { x } else { y },
        Operator::Maxi => if x < y { y } else { x },
        Operator::If => if x == 1 { y } else { z },
        _ => says(operator, x, y) as i64,
    }
}

fn widened(range: Option<Mark>, number: i64) -> Mark {
    let Mark { low, high } = range.unwrap_or(Mark {
        low: number,
        high: number,
    });
    Mark {
        low: low.min(number),
        high: high.max(number),
    }
}

// The least to the greatest result over all choices; all of them lie in the span.
fn hull(operator: Operator, signature: Signature, marks: [Mark; 3]) -> Option<Mark> {
    let [a, b, c] = marks;
    let mut range = None;
    for x in a.low..=a.high {
        for y in b.low..=b.high {
            for z in c.low..=c.high {
                if is_suited(signature, [x, y, z]) {
                    range = Some(widened(range, result(operator, [x, y, z])));
                }
            }
        }
    }
    range
}

fn magnitude(number: i64) -> i64 {
    number.max(number.wrapping_neg())
}

// A quotient and a remainder are only bounded by the dividend's ends.
fn expected(operator: Operator, signature: Signature, marks: [Mark; 3]) -> Mark {
    let [a, ..] = marks;
    let size = magnitude(a.low).max(magnitude(a.high));
    match (hull(operator, signature, marks), operator) {
        (None, _) => if signature.result == TRUTH {
            TRUTHS
        } else {
            ANY
        },
        (Some(_), Operator::Divi | Operator::Mod) => Mark {
            low: size.wrapping_neg(),
            high: size,
        },
        (Some(range), _) => range,
    }
}

// Points have one choice at most, and a mark that is no point has none for them.
fn expected_point(operator: Operator, signature: Signature, marks: [Mark; 3]) -> Mark {
    let [a, b, c] = marks;
    if a.low != a.high || b.low != b.high || c.low != c.high {
        return ANY;
    }
    hull(operator, signature, marks).unwrap_or(ANY)
}

// Whether a reckoning answers as expected for every operator over all those marks.
fn agrees<R: Reckoning, F: Fn(Operator, Signature, [Mark; 3]) -> Mark>(
    rt: &impl Abort,
    reckoning: &R,
    expected: F,
)
    requires { F.IsAlwaysCallable expected }
{
    for line in OPERATORS.iter() {
        let (operator, signature) = (line.operator, line.signature);
        for a in operands(signature, 0) {
            for b in operands(signature, 1) {
                for c in operands(signature, 2) {
                    assert!(rt;
                        reckoning.apply(operator, *a, *b, *c)
                            == expected(operator, signature, [*a, *b, *c])
                    );
                }
            }
        }
    }
}

#[test]
fn ranges_agree_with_all_choices(rt: HostRuntime) {
    agrees(
        &rt,
        &Ranges,
        |operator, signature, marks| expected(operator, signature, marks),
    );
}

#[test]
fn points_agree_with_the_one_choice(rt: HostRuntime) {
    agrees(
        &rt,
        &Points,
        |operator, signature, marks| expected_point(operator, signature, marks),
    );
}

fn point(number: i64) -> Mark {
    Mark {
        low: number,
        high: number,
    }
}

// Whether an operator gives this for these numbers, and so does its mark over their points.
fn gives(operator: Operator, numbers: [i64; 3], told: Option<i64>) -> bool {
    let [x, y, z] = numbers;
    let mark = Points.apply(operator, point(x), point(y), point(z));
    operator.compute(x, y, z) == told && mark == told.map_or(ANY, |number| point(number))
}

#[test]
fn each_is_as_its_line_says(rt: HostRuntime) {
    for (place, line) in OPERATORS.iter().enumerate() {
        let operator = line.operator;
        assert!(rt; operator as usize == place);
        assert!(rt; find(line.word) == Some(operator));
        assert!(rt; operator.signature() == line.signature);
        assert!(rt; operator.arity() == arity(line.signature));
        for (numbers, told) in line.results {
            assert!(rt; gives(operator, *numbers, *told));
        }
    }
}

// The arithmetic of this trial gives what the table says, too.
#[test]
fn the_trial_reckons_by_its_table(rt: HostRuntime) {
    for line in OPERATORS.iter() {
        for (numbers, told) in line.results {
            assert!(rt; told.is_none_or(|number| number == result(line.operator, *numbers)));
        }
    }
}
