// Turns: a statement on the way along a path, and which of the ways that go on from it is wanted.

ghost use Rattle.std.specs.Prelude.{◌≡◌};

#[derive(Clone, Copy, Debug, PartialEq, Eq)]
pub struct Turn {
    pub(super) place: usize,
    pub(super) number: u16,
}

impl Turn {
    pub fn place(self) -> usize
        ensures { result ≡ self.place }
    {
        self.place
    }
}
