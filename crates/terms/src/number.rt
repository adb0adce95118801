// Whole numbers: exact arithmetic on 64 bits, and the span, outside of which no term may go.

ghost use Rattle.std.specs.Prelude.{◌≡◌, ◌*ℤ◌};
ghost use Rattle.terms.specs.Numbers.{spanned, in_span as spans, quotient as quotient_of, remainder as remainder_of};

// The least and the greatest number of the span.
pub const LEAST: i64 = -2_000_000_000;

pub const GREATEST: i64 = 2_000_000_000;

// Whether the number lies in the span.
pub fn spans(number: i64) -> bool
    ensures { result ≡ spans number }
{
    (LEAST..=GREATEST).contains(&number)
}

// The number where it lies in the span.
pub fn in_span(number: i128) -> Option<i64>
    ensures { result ≡ spanned number }
{
    i64::try_from(number).ok().filter(|&number| spans(number))
}

pub fn product(a: i64, b: i64) -> i128
    ensures { result ≡ a *ℤ b }
{
    a as i128 * b as i128
}

// Rounded toward zero, and 0 for the divisor 0.
pub fn quotient(a: i64, b: i64) -> i128
    ensures { result ≡ quotient_of a b }
{
    if b == 0 { 0 } else { a as i128 / b as i128 }
}

// What the quotient leaves of `a`.
pub fn remainder(a: i64, b: i64) -> i128
    ensures { result ≡ remainder_of a b }
{
    if b == 0 {
        a as i128
    } else {
        a as i128 % b as i128
    }
}
