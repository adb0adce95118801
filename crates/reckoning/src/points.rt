// Points: one number of the span, or any number; the abstract domain of constants.

ghost use Rattle.std.specs.Prelude.{◌≡◌, ◌-◌, ◌<◌, ◌≤◌, true, ◌&&◌, length, take};
ghost use Rattle.terms.specs.Terms.{Worked};
ghost use Rattle.reckoning.specs.Points.{is_point, point_holds, point_or, point_number, point_fits, points};
ghost use Rattle.reckoning.specs.Evaluation.{evaluated};
ghost use Rattle.reckoning.specs.Exactness.{Exact, Right};
ghost use Rattle.reckoning.specs.Pointwise;

use super::decision::Decision;
use super::evaluation::evaluate;
use super::mark::{ANY, Mark};
use super::reckoning::Reckoning;
use terms::fits::Fits;
use terms::kind::{Kind, Sort};
use terms::mentions::Mentions;
use terms::number::{in_span, spans};
use terms::operator::Operator;
use terms::row::Row;

#[derive(Clone, Copy, Debug, PartialEq, Eq)]
pub struct Points;

impl Mark {
    fn is_point(self) -> bool
        ensures { result ≡ is_point self }
    {
        self.low == self.high && spans(self.low)
    }

    // The number that it stands for, if it is one alone.
    fn number(self) -> Option<i64>
        ensures { result ≡ point_number self }
    {
        self.is_point().then_some(self.low)
    }

    fn point_or_any(number: Option<i64>) -> Mark
        ensures { result ≡ point_or number }
    {
        number.map_or(
            ANY,
            |number| Mark {
                low: number,
                high: number,
            },
        )
    }
}

fn holds(mark: Mark, number: i64) -> bool
    ensures { result ≡ point_holds mark number }
{
    !mark.is_point() || mark.low == number
}

// An operand is a point, and a truth where its place takes one.
impl Fits<Mark> for Points {
    ghost fits = { λ _. point_fits };

    fn fits(&self, sort: Sort, operand: Mark) -> bool {
        let is_truth = operand.low == 0 || operand.low == 1;
        operand.is_point() && (is_truth || sort != Sort::Of(Kind::Truth))
    }
}

impl Reckoning for Points {
    ghost covers = { λ _ m n. point_holds m n ≡ true };

    ghost meaning = { λ _. points };

    ghost lawful = { λ s. Pointwise.lawful };

    fn any(&self) -> Mark {
        ANY
    }

    fn constant(&self, number: i64) -> Mark {
        Mark::point_or_any(in_span(number as i128))
    }

    fn bounds(&self, low: i64, high: i64) -> Mark {
        if low == high { self.constant(low) } else { ANY }
    }

    fn apply(&self, operator: Operator, a: Mark, b: Mark, c: Mark) -> Mark {
        if operator.takes(self, a, b, c) {
            Mark::point_or_any(operator.compute(a.low, b.low, c.low))
        } else {
            ANY
        }
    }

    fn meet(&self, a: Mark, b: Mark) -> Option<Mark> {
        if !a.is_point() {
            Some(b)
        } else {
            holds(b, a.low).then_some(a)
        }
    }

    fn decide(&self, truth: Mark) -> Decision {
        Decision::of(holds(truth, 1), holds(truth, 0))
    }
}

// The number of a term, where the points of its mentions tell it. It touches the working marks as `evaluate` does.
pub fn number_of<M: Copy, N: Mentions<M, Mark>>(
    mentions: &N,
    rows: &[Row<M>],
    working: &mut [Mark],
) -> Option<i64>
    ensures number { result ≡ point_number (evaluated points (N.found mentions.now) rows.now (length working.old)) }
    ensures working { Worked (length rows.now) working.old working.new }
    ensures exact { length rows.now ≤ length working.old → Exact (N.found mentions.now) rows.now result }
    ensures right { Right (N.found mentions.now) rows.now result }
{
    evaluate(&Points, mentions, rows, working).number()
}
