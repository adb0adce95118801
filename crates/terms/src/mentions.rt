// Mentions: where what a term mentions is looked up.

ghost use Rattle.std.specs.Prelude.{◌≡◌, Option};

// `M` is what a term of this place can mention, and `X` what is known of it: its kind, or a mark of its number.
pub trait Mentions<M, X> {
    ghost found: { Self → M → Option X };

    // `None` for an unknown mention.
    fn find(&self, mention: M) -> Option<X>
        ensures { result ≡ found self.now mention };
}
