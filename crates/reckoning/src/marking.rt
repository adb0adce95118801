// Marking: the rows of a term read as marks, over any reckoning.

ghost use Rattle.std.specs.Prelude.{◌≡◌};
ghost use Rattle.reckoning.specs.Evaluation.{marks_by};

use super::mark::Mark;
use super::reckoning::Reckoning;
use terms::fold::Interpretation;
use terms::mentions::Mentions;
use terms::operator::Operator;

// The marks of rows: what a reckoning answers, with the mark of each mention.
#[derive(Clone, Copy)]
pub struct Marking<'n, 'r, N, R> {
    pub mentions: &'n N,
    pub reckoning: &'r R,
}

impl<'n, 'r, M: Copy, N: Mentions<M, Mark>, R: Reckoning> Interpretation<M, Mark>
    for Marking<'n, 'r, N, R> {
    ghost algebra = { λ s. marks_by (R.Reckoning.meaning s.reckoning.now) (N.Mentions.found s.mentions.now) };

    fn constant(&self, number: i64) -> Mark {
        self.reckoning.constant(number)
    }

    fn mention(&self, mention: M) -> Mark {
        self.mentions.find(mention).unwrap_or(self.reckoning.any())
    }

    fn operator(&self, operator: Operator, a: Mark, b: Mark, c: Mark) -> Mark {
        self.reckoning.apply(operator, a, b, c)
    }

    fn absent(&self) -> Mark {
        self.reckoning.any()
    }
}
