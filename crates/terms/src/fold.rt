// Folds: the rows of a term read from the last to the first onto a stack.

ghost use Rattle.std.specs.Prelude.{◌≡◌, ◌-◌, ◌<◌, ◌≤◌, length, take, drop, min, slice_index_or};
ghost use Rattle.std.specs.List.{slice_get};
ghost use Rattle.terms.specs.Terms.{Algebra, Replaced, FoldedRow, FoldedRowAt, Folded, Worked, entries_for, newest_in, outcome_in};

use super::operator::Operator;
use super::row::Row;

// What rows come to: an algebra of terms, over what they can mention.
pub trait Interpretation<M, X> {
    ghost algebra: { Self → Algebra M X };

    fn constant(&self, number: i64) -> X
        ensures { result ≡ (algebra self.now).constant number };

    fn mention(&self, mention: M) -> X
        ensures { result ≡ (algebra self.now).mention mention };

    // An operator ignores what stands past its last operand. The three are no array, so that no law of an operator speaks of lists.
    fn operator(&self, operator: Operator, a: X, b: X, c: X) -> X
        ensures { result ≡ (algebra self.now).operator operator a b c };

    // What stands for an operand that is not there.
    fn absent(&self) -> X
        ensures { result ≡ (algebra self.now).absent };
}

// There is no room on a stack.
#[derive(Clone, Copy, Debug, PartialEq, Eq)]
pub struct Full;

// A stack in lent entries: it stands from `top` on, its newest entry first, and grows toward their front.
#[derive(Drop)]
pub struct Stack<'a, X> {
    entries: &'a mut [X],
    pub top: usize,
    ghost inside: { top ≤ length entries.now },
}

impl<'a, X: Copy> Stack<'a, X> {
    // With no entry yet.
    pub fn new(entries: &'a mut [X]) -> Stack<'a, X>
        ensures same { result.entries.ghost_name ≡ entries.entry.ghost_name }
        ensures entries { result.entries.now ≡ entries.old }
        ensures empty { result.top ≡ length entries.old }
    {
        let top = entries.len();
        Stack { entries, top }
    }

    // With the entries from a place on; past their end there are none.
    pub fn at(entries: &'a mut [X], top: usize) -> Stack<'a, X>
        ensures same { result.entries.ghost_name ≡ entries.entry.ghost_name }
        ensures entries { result.entries.now ≡ entries.old }
        ensures top { result.top ≡ min top (length entries.old) }
    {
        let top = top.min(entries.len());
        Stack { entries, top }
    }

    // The entry that stands so many places after the newest.
    pub fn entry(&self, place: usize) -> Option<X>
        ensures { result ≡ slice_get (drop self.now.top self.now.entries.now) place }
    {
        self.entries[self.top..].get(place).copied()
    }

    // The same, or what stands for an entry that is not there.
    fn operand(&self, place: usize, absent: X) -> X
        ensures { result ≡ slice_index_or (drop self.now.top self.now.entries.now) place absent }
    {
        self.entry(place).unwrap_or(absent)
    }

    // Puts an entry in the place of so many, or of all that there are if they are fewer.
    fn replace(&mut self, taken: usize, entry: X) -> Result<X, Full>
        ensures same { self.new.entries.ghost_name ≡ self.old.entries.ghost_name }
        ensures replaced { Replaced taken entry self.old.entries.now self.old.top result self.new.entries.now self.new.top }
    {
        let rest = self.top.saturating_add(taken).min(self.entries.len());
        if rest == 0 {
            return Err(Full);
        }
        self.top = rest - 1;
        self.entries[self.top] = entry;
        Ok(entry)
    }

    // Reads one row, and tells its entry, which is the newest then. In one piece with what calls it, so that a loop over rows keeps the stack's place at hand.
    #[inline(always)]
    pub fn read<M: Copy, I: Interpretation<M, X>>(
        &mut self,
        interpretation: &I,
        row: Row<M>,
    ) -> Result<X, Full>
        ensures same { self.new.entries.ghost_name ≡ self.old.entries.ghost_name }
        ensures read { FoldedRow (I.algebra interpretation.now) row self.old.entries.now self.old.top result self.new.entries.now self.new.top }
    {
        if self.top == 0 {
            return Err(Full);
        }
        match row {
            Row::Constant(number) => self.replace(0, interpretation.constant(number)),
            Row::Mention(mention) => self.replace(0, interpretation.mention(mention)),
            Row::Operator(operator) => {
                let absent = interpretation.absent();
                let first = self.operand(0, absent);
                let second = self.operand(1, absent);
                let third = self.operand(2, absent);
                let entry = interpretation.operator(operator, first, second, third);
                self.replace(operator.arity(), entry)
            }
        }
    }
}

// Reads one row onto the stack that stands from a place on, and tells where it begins then; `None`, with all entries as they were, if there is no place in front of it or it begins past their end.
pub fn fold_row<M: Copy, X: Copy, I: Interpretation<M, X>>(
    interpretation: &I,
    row: Row<M>,
    entries: &mut [X],
    top: usize,
) -> Option<usize>
    ensures { FoldedRowAt (I.algebra interpretation.now) row entries.old top result entries.new }
{
    if top > entries.len() {
        return None;
    }
    let mut stack = Stack::at(entries, top);
    let read = stack.read(interpretation, row);
    read.is_ok().then_some(stack.top)
}

// Reads the rows onto a stack that stands at the end of the lent entries, its newest entry first, and tells where it begins; `None` if reading takes more entries.
pub fn fold<M: Copy, X: Copy, I: Interpretation<M, X>>(
    interpretation: &I,
    rows: &[Row<M>],
    entries: &mut [X],
) -> Option<usize>
    ensures { Folded (I.algebra interpretation.now) rows.now entries.old result entries.new }
{
    let mut stack = Stack::new(entries);
    for row in rows.iter().rev() {
        stack.read(interpretation, *row).ok()?;
    }
    Some(stack.top)
}

// What the first row of a term comes to, with the entries as `fold` leaves them; what stands for an absent operand if there are no rows, or reading them takes more entries.
pub fn newest<M: Copy, X: Copy, I: Interpretation<M, X>>(
    interpretation: &I,
    rows: &[Row<M>],
    entries: &mut [X],
) -> X
    ensures value { result ≡ newest_in (I.algebra interpretation.now) rows.now (length entries.old) }
    ensures others { take (length entries.old - entries_for rows.now) entries.new ≡ take (length entries.old - entries_for rows.now) entries.old }
{
    let newest = fold(interpretation, rows, entries).and_then(|top| entries.get(top).copied());
    newest.unwrap_or(interpretation.absent())
}

// The same with an entry for each row; with fewer it touches none.
pub fn outcome<M: Copy, X: Copy, I: Interpretation<M, X>>(
    interpretation: &I,
    rows: &[Row<M>],
    entries: &mut [X],
) -> X
    ensures value { result ≡ outcome_in (I.algebra interpretation.now) rows.now (length entries.old) }
    ensures working { Worked (length rows.now) entries.old entries.new }
{
    if entries.len() < rows.len() {
        return interpretation.absent();
    }
    newest(interpretation, rows, entries)
}
