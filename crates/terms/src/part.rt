// Parts of a slice.

ghost use Rattle.std.specs.Prelude.{◌≡◌, take, drop};

// So many of the elements from `start` on, as far as there are such.
pub fn part<T>(xs: &[T], start: usize, length: usize) -> &[T]
    ensures { result.now ≡ take length (drop start xs.now) }
{
    let from = start.min(xs.len());
    let count = length.min(xs.len() - from);
    &xs[from..from + count]
}
