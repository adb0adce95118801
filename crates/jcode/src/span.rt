// Spans: where a name or a text stands in the bytes that were read.

ghost use Rattle.std.specs.Prelude.{◌≡◌};
ghost use Rattle.jcode.specs.Bytes.{slice};

use terms::part::part;

#[derive(Clone, Copy, Debug, Default, PartialEq, Eq)]
pub struct Span {
    pub start: usize,
    pub length: usize,
}

impl Span {
    // The bytes it spans, as far as there are such.
    pub fn of(self, bytes: &[u8]) -> &[u8]
        ensures { result.now ≡ slice bytes.now self }
    {
        part(bytes, self.start, self.length)
    }
}
