// Certain truths: what is known of a comparison if each number is only known to lie from a low to a high.

ghost use Rattle.std.specs.Prelude.{◌≡◌};
ghost use Rattle.reckoning.specs.Certain.{certain_less, certain_equal, certain_odd};

use super::decision::Decision;
use super::mark::Mark;

// Whether a number of `a` is less than one of `b`.
pub(super) fn less(a: Mark, b: Mark) -> Decision
    ensures { result ≡ certain_less a b }
{
    match (a, b) {
        (Mark { high, .. }, Mark { low, .. }) if high < low => Decision::Yes,
        (Mark { low, .. }, Mark { high, .. }) if high <= low => Decision::No,
        _ => Decision::Unknown,
    }
}

// Whether a number of `a` is equal to one of `b`.
pub(super) fn equal(a: Mark, b: Mark) -> Decision
    ensures { result ≡ certain_equal a b }
{
    match (a, b) {
        (Mark { high, .. }, Mark { low, .. }) if high < low => Decision::No,
        (Mark { low, .. }, Mark { high, .. }) if high < low => Decision::No,
        _ if a.high == b.low && b.high == a.low => Decision::Yes,
        _ => Decision::Unknown,
    }
}

// Whether a number of `a` is odd.
pub(super) fn odd(a: Mark) -> Decision
    ensures { result ≡ certain_odd a }
{
    match a {
        Mark { low, high } if low < high => Decision::Unknown,
        Mark { low, .. } if low % 2 != 0 => Decision::Yes,
        _ => Decision::No,
    }
}
