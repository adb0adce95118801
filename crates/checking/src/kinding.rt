// Kinding: the kind of a term, from the kinds of what it mentions.

ghost use Rattle.std.specs.Prelude.{◌≡◌, ◌-◌, length, take, if◌then◌else◌, None, nat_le};
ghost use Rattle.terms.specs.Terms.{entries_for};
ghost use Rattle.reckoning.specs.Kinds.{asked, is_kind, kind_given, kinds, kind_of};

use terms::fits::Fits;
use terms::fold::{Interpretation, newest};
use terms::kind::{Kind, Sort};
use terms::mentions::Mentions;
use terms::operator::Operator;
use terms::row::Row;

// The kinds of rows, over those of mentions.
#[derive(Clone, Copy)]
struct Kinding<'a, K> {
    mentions: &'a K,
}

// The kind that a place of an operator asks for, where places that share a kind share this one.
fn asked(sort: Sort, shared: Kind) -> Kind
    ensures { result ≡ asked shared sort }
{
    match sort {
        Sort::Of(kind) => kind,
        Sort::Same => shared,
    }
}

// The kind that places which share a kind share.
#[derive(Clone, Copy, Debug, PartialEq, Eq)]
struct Shared {
    kind: Kind,
}

impl Fits<Option<Kind>> for Shared {
    ghost fits = { λ s sort found. is_kind found (asked s.kind sort) };

    fn fits(&self, sort: Sort, operand: Option<Kind>) -> bool {
        operand == Some(asked(sort, self.kind))
    }
}

// The kind that an operator gives, `None` if its operands are not of its kinds.
fn given_kind(operator: Operator, a: Option<Kind>, b: Option<Kind>, c: Option<Kind>) -> Option<Kind>
    ensures { result ≡ kind_given operator a b c }
{
    [Kind::Number, Kind::Truth]
        .iter()
        .find(|&&kind| operator.takes(&Shared { kind }, a, b, c))
        .map(|&kind| asked(operator.signature().result, kind))
}

impl<'a, M: Copy, K: Mentions<M, Kind>> Interpretation<M, Option<Kind>> for Kinding<'a, K> {
    ghost algebra = { λ s. kinds (K.Mentions.found s.mentions.now) };

    fn constant(&self, _number: i64) -> Option<Kind> {
        Some(Kind::Number)
    }

    fn mention(&self, mention: M) -> Option<Kind> {
        self.mentions.find(mention)
    }

    fn operator(
        &self,
        operator: Operator,
        a: Option<Kind>,
        b: Option<Kind>,
        c: Option<Kind>,
    ) -> Option<Kind> {
        given_kind(operator, a, b, c)
    }

    fn absent(&self) -> Option<Kind> {
        None
    }
}

// The kind of a term, `None` if an operator stands before operands of other kinds, or if there are fewer lent entries than reading the rows takes. All but the last of them that reading takes stay.
pub fn kind_of<M: Copy, K: Mentions<M, Kind>>(
    mentions: &K,
    rows: &[Row<M>],
    stack: &mut [Option<Kind>],
) -> Option<Kind>
    ensures kind { result ≡ (if nat_le (entries_for rows.now) (length stack.old) then kind_of (K.found mentions.now) rows.now else None) }
    ensures others { take (length stack.old - entries_for rows.now) stack.new ≡ take (length stack.old - entries_for rows.now) stack.old }
{
    newest(&Kinding { mentions }, rows, stack)
}
