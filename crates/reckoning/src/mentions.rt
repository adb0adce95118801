// Mentions of cells, which a term mentions by number.

ghost use Rattle.std.specs.List.{slice_get};

use super::mark::Mark;
use terms::mentions::Mentions;

// The marks of cells.
#[derive(Clone, Copy, Debug)]
pub struct Cells<'a> {
    pub marks: &'a [Mark],
}

impl<'a> Mentions<usize, Mark> for Cells<'a> {
    ghost found = { λ s i. slice_get s.marks.now i };

    fn find(&self, mention: usize) -> Option<Mark> {
        self.marks.get(mention).copied()
    }
}
