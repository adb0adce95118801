// What may stand in an operator's places.

ghost use Rattle.std.specs.Prelude.{◌≡◌, Bool};
ghost use Rattle.terms.specs.declared.kind.Sort.{Sort};

use super::kind::Sort;

// A test of operands, by the sort that their place asks for. A trait and no closure, since a public function asks nothing of its callers, and one that calls a closure has to ask that it may.
pub trait Fits<X> {
    ghost fits: { Self → Sort → X → Bool };

    fn fits(&self, sort: Sort, operand: X) -> bool
        ensures { result ≡ fits self.now sort operand };
}
