// Nesting: which rows write one complete term, and how deep it nests.

ghost use Rattle.std.specs.Prelude.{◌≡◌, ℕ, ◌-◌, ◌&&◌, length, take, nat_le};
ghost use Rattle.terms.specs.Terms.{entries_for};
ghost use Rattle.checking.specs.Nesting.{deeper as deeper_of, deepest as deepest_of, raised, nesting, single, writes_term};

use terms::fold::{Interpretation, fold};
use terms::operator::{Operands, Operator};
use terms::row::Row;

// How deep a term nests, up to a limit.
#[derive(Clone, Copy, Debug, PartialEq, Eq)]
pub struct Nesting {
    pub limit: usize,
}

fn deeper(a: Option<usize>, b: Option<usize>) -> Option<usize>
    ensures { result ≡ deeper_of a b }
{
    Some(a?.max(b?))
}

// The deepest of an operator's own operands.
fn deepest(
    operands: Operands,
    a: Option<usize>,
    b: Option<usize>,
    c: Option<usize>,
) -> Option<usize>
    ensures { result ≡ deepest_of operands a b c }
{
    match operands {
        Operands::None => Some(0),
        Operands::One(_) => a,
        Operands::Two(_, _) => deeper(a, b),
        Operands::Three(_, _, _) => deeper(a, deeper(b, c)),
    }
}

impl Nesting {
    // One more, where that does not pass the limit.
    fn raise(self, depth: Option<usize>) -> Option<usize>
        ensures { result ≡ raised self.limit depth }
    {
        depth?.checked_add(1).filter(|&raised| raised <= self.limit)
    }
}

impl<M: Copy> Interpretation<M, Option<usize>> for Nesting {
    ghost algebra = { λ s. nesting s.limit };

    fn constant(&self, _number: i64) -> Option<usize> {
        self.raise(Some(0))
    }

    fn mention(&self, _mention: M) -> Option<usize> {
        self.raise(Some(0))
    }

    fn operator(
        &self,
        operator: Operator,
        a: Option<usize>,
        b: Option<usize>,
        c: Option<usize>,
    ) -> Option<usize> {
        self.raise(deepest(operator.signature().operands, a, b, c))
    }

    fn absent(&self) -> Option<usize> {
        None
    }
}

fn is_single(stack: &[Option<usize>]) -> bool
    ensures { result ≡ single stack.now }
{
    matches!(stack, [Some(_)])
}

// Whether the rows write exactly one term with nesting up to the limit. With fewer lent entries than reading them takes it says no. All but the last of them that reading takes stay.
pub fn writes_term<M: Copy>(limit: usize, rows: &[Row<M>], depths: &mut [Option<usize>]) -> bool
    ensures term { result ≡ (nat_le (entries_for rows.now) (length depths.old) && writes_term limit rows.now) }
    ensures others { take (length depths.old - entries_for rows.now) depths.new ≡ take (length depths.old - entries_for rows.now) depths.old }
{
    fold(&Nesting { limit }, rows, depths).is_some_and(|top| is_single(&depths[top..]))
}
