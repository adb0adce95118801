// Elements of which no two are alike.

ghost use Rattle.std.specs.Prelude.{◌≡◌, Bool};
ghost use Rattle.checking.specs.Tests.{apart};

// Whether no two elements are alike.
pub(super) fn are_apart<T: Copy, F: Fn(T, T) -> bool>(xs: &[T], alike: F) -> bool
    requires { F.IsAlwaysCallable alike }
    ensures { (p : T → T → Bool) → ((x y : T) (b : Bool) → F.post alike x y b → b ≡ p x y) → result ≡ apart p xs.now }
{
    // By a `for`: in a chain one closure calls `alike` within another, where a proof no longer knows that it can always be called.
    for (i, x) in xs.iter().enumerate() {
        if xs[i + 1..].iter().any(|y| alike(*x, *y)) {
            return false;
        }
    }
    true
}
