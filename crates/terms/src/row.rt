// Rows: a term is written as its rows in Polish notation, each operator ahead of its operands.

ghost use Rattle.terms.specs.Examples.{Examples};

use super::operator::Operator;

// One row of a term, with `M` what a term of this place can mention: a unit's variable, a condition's cell.
#[derive(Clone, Copy, Debug, PartialEq, Eq)]
pub enum Row<M> {
    Constant(i64),
    Mention(M),
    Operator(Operator),
}

// What terms come to, by examples.
pub fn examples_stand()
    ensures { Examples }
{}
