// Ranges: the numbers from a low to a high within the span, or any number; the abstract domain of intervals.

ghost use Rattle.std.specs.Prelude.{◌≡◌, true};
ghost use Rattle.terms.specs.Operators.{result_of, truths};
ghost use Rattle.reckoning.specs.Points.{any_mark};
ghost use Rattle.reckoning.specs.Ranges.{is_range, within, range_holds, ranged, truth_range, unknown_of, range_decided, range_fits, least4, greatest4, products as products_of, divided, joined as joined_of, picked, range_computed, range_applied, overlap as overlap_of, ranges};
ghost use Rattle.reckoning.specs.Hulls.{Tightly};
ghost use Rattle.reckoning.specs.Rangewise;

use super::certain::{equal, less, odd};
use super::decision::Decision;
use super::mark::{ANY, Mark};
use super::reckoning::Reckoning;
use terms::fits::Fits;
use terms::kind::{Kind, Sort};
use terms::number::{GREATEST, LEAST, in_span, product};
use terms::operator::Operator;

#[derive(Clone, Copy, Debug, PartialEq, Eq)]
pub struct Ranges;

impl Mark {
    pub(super) fn is_range(self) -> bool
        ensures { result ≡ is_range self }
    {
        // What lies between two numbers of the span lies in it.
        LEAST <= self.low && self.low <= self.high && self.high <= GREATEST
    }

    fn contains(self, number: i64) -> bool
        ensures { result ≡ within self number }
    {
        (self.low..=self.high).contains(&number)
    }

    fn range_or_any(low: i128, high: i128) -> Mark
        ensures { result ≡ ranged low high }
    {
        let bounds = in_span(low).zip(in_span(high));
        bounds.map_or(ANY, |(low, high)| Mark { low, high })
    }

    fn truths(decision: Decision) -> Mark
        ensures { result ≡ truth_range decision }
    {
        match decision {
            Decision::Yes => Mark { low: 1, high: 1 },
            Decision::No => Mark { low: 0, high: 0 },
            Decision::Unknown => Mark { low: 0, high: 1 },
        }
    }
}

fn holds(mark: Mark, number: i64) -> bool
    ensures { result ≡ range_holds mark number }
{
    !mark.is_range() || mark.contains(number)
}

// What a range says of a truth, of which it may hold other numbers too. Points decide by the same words over their own `holds`, and a function over either would be longer.
fn decision(mark: Mark) -> Decision
    ensures { result ≡ range_decided mark }
{
    Decision::of(holds(mark, 1), holds(mark, 0))
}

// An operand is a range with a number of its sort.
impl Fits<Mark> for Ranges {
    ghost fits = { λ _. range_fits };

    fn fits(&self, sort: Sort, operand: Mark) -> bool {
        let is_truth = sort == Sort::Of(Kind::Truth);
        operand.is_range() && (!is_truth || operand.contains(0) || operand.contains(1))
    }
}

// The result of an operator without a choice: a truth is 0 to 1 all the same.
fn unknown(operator: Operator) -> Mark
    ensures { result ≡ unknown_of (result_of operator) }
{
    if operator.signature().result == Sort::Of(Kind::Truth) {
        Mark::truths(Decision::Unknown)
    } else {
        ANY
    }
}

// By `min` and `max` of two: those of an iterator give an Option, which four numbers never leave empty.
fn least(p: i128, q: i128, r: i128, s: i128) -> i128
    ensures { result ≡ least4 p q r s }
{
    p.min(q).min(r.min(s))
}

fn greatest(p: i128, q: i128, r: i128, s: i128) -> i128
    ensures { result ≡ greatest4 p q r s }
{
    p.max(q).max(r.max(s))
}

// A product grows or falls along each operand, so its ends are among those of the operands' ends.
fn products(a: Mark, b: Mark) -> Mark
    ensures { result ≡ products_of a b }
{
    let p = product(a.low, b.low);
    let q = product(a.low, b.high);
    let r = product(a.high, b.low);
    let s = product(a.high, b.high);
    Mark::range_or_any(least(p, q, r, s), greatest(p, q, r, s))
}

// A quotient and a remainder are no greater than the dividend, in magnitude.
fn within_dividend(a: Mark) -> Mark
    ensures { result ≡ divided a }
{
    let size = a.low.unsigned_abs().max(a.high.unsigned_abs()) as i128;
    Mark::range_or_any(-size, size)
}

fn joined(a: Mark, b: Mark) -> Mark
    ensures { result ≡ joined_of a b }
{
    Mark::range_or_any(a.low.min(b.low) as i128, a.high.max(b.high) as i128)
}

fn choice(condition: Decision, a: Mark, b: Mark) -> Mark
    ensures { result ≡ picked condition a b }
{
    match condition {
        Decision::Yes => a,
        Decision::No => b,
        Decision::Unknown => joined(a, b),
    }
}

fn overlap(a: Mark, b: Mark) -> Option<Mark>
    ensures { result ≡ overlap_of a b }
{
    // By `if`: with `then_some` the search for the proof comes to its limits.
    let low = a.low.max(b.low);
    let high = a.high.min(b.high);
    if low <= high {
        Some(Mark { low, high })
    } else {
        None
    }
}

// The decision of an operator whose result is a truth, for operands that have a choice.
fn decided(operator: Operator, a: Mark, b: Mark) -> Decision
    ensures { result_of operator ≡ truths → truth_range result ≡ range_computed operator a b any_mark }
{
    match operator {
        Operator::Odd => odd(a),
        Operator::Gei => less(a, b).negated(),
        Operator::Lei => less(b, a).negated(),
        Operator::Gti => less(b, a),
        Operator::Lti => less(a, b),
        Operator::True => Decision::Yes,
        Operator::And => decision(a).both(decision(b)),
        Operator::Or => decision(a).either(decision(b)),
        Operator::Not => decision(a).negated(),
        Operator::Implies => decision(a).negated().either(decision(b)),
        Operator::Impliedby => decision(a).either(decision(b).negated()),
        Operator::Notimplies => decision(a).both(decision(b).negated()),
        Operator::Notimpliedby => decision(a).negated().both(decision(b)),
        Operator::Equal => equal(a, b),
        Operator::Notequal => equal(a, b).negated(),
        _ => Decision::No,
    }
}

// The least to the greatest result over all choices, for operands that have one.
fn computed(operator: Operator, a: Mark, b: Mark, c: Mark) -> Mark
    ensures { result ≡ range_computed operator a b c }
{
    match operator {
        Operator::Addi => Mark::range_or_any(
            a.low as i128 + b.low as i128,
            a.high as i128 + b.high as i128,
        ),
        Operator::Subi => Mark::range_or_any(
            a.low as i128 - b.high as i128,
            a.high as i128 - b.low as i128,
        ),
        Operator::Negi => Mark::range_or_any(-(a.high as i128), -(a.low as i128)),
        Operator::Mul => products(a, b),
        Operator::Divi | Operator::Mod => within_dividend(a),
        Operator::Mini => Mark::range_or_any(a.low.min(b.low) as i128, a.high.min(b.high) as i128),
        Operator::Maxi => Mark::range_or_any(a.low.max(b.low) as i128, a.high.max(b.high) as i128),
        Operator::If => choice(decision(a), b, c),
        _ => Mark::truths(decided(operator, a, b)),
    }
}

// Apart from the stack that rows are read onto: in one piece the two take turns for the machine's registers.
#[inline(never)]
fn applied(operator: Operator, a: Mark, b: Mark, c: Mark) -> Mark
    ensures { result ≡ range_applied operator a b c }
{
    if operator.takes(&Ranges, a, b, c) {
        computed(operator, a, b, c)
    } else {
        unknown(operator)
    }
}

impl Reckoning for Ranges {
    ghost covers = { λ _ m n. range_holds m n ≡ true };

    ghost meaning = { λ _. ranges };

    ghost lawful = { λ s. Rangewise.lawful };

    fn any(&self) -> Mark {
        ANY
    }

    fn constant(&self, number: i64) -> Mark {
        Mark::range_or_any(number as i128, number as i128)
    }

    fn bounds(&self, low: i64, high: i64) -> Mark {
        let range = Mark { low, high };
        if range.is_range() { range } else { ANY }
    }

    fn apply(&self, operator: Operator, a: Mark, b: Mark, c: Mark) -> Mark
        ensures applied { result ≡ range_applied operator a b c }
        ensures tight { Tightly operator a b c result }
    {
        applied(operator, a, b, c)
    }

    fn meet(&self, a: Mark, b: Mark) -> Option<Mark> {
        if !a.is_range() {
            Some(b)
        } else if !b.is_range() {
            Some(a)
        } else {
            overlap(a, b)
        }
    }

    fn decide(&self, truth: Mark) -> Decision {
        decision(truth)
    }
}
