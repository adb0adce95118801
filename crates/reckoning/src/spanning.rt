// Spanning: whether the rows of a term stay in the span, as far as ranges tell.

ghost use Rattle.std.specs.Prelude.{◌≡◌, ◌-◌, ◌<◌, ◌&&◌, length, take, nat_le};
ghost use Rattle.terms.specs.Terms.{Worked, entries_for};
ghost use Rattle.reckoning.specs.Spanning.{ranged_rows};

use super::mark::Mark;
use super::marking::Marking;
use super::ranges::Ranges;
use terms::fold::Stack;
use terms::mentions::Mentions;
use terms::row::Row;

// Whether the mark of every row is a range, and none 'any'. With fewer working marks than reading the rows takes it says no.
pub fn are_ranged<M: Copy, N: Mentions<M, Mark>>(
    mentions: &N,
    rows: &[Row<M>],
    working: &mut [Mark],
) -> bool
    ensures result { result ≡ (nat_le (entries_for rows.now) (length working.old) && ranged_rows (N.found mentions.now) rows.now) }
    ensures others { take (length working.old - entries_for rows.now) working.new ≡ take (length working.old - entries_for rows.now) working.old }
{
    let marking = Marking {
        mentions,
        reckoning: &Ranges,
    };
    let mut stack = Stack::new(working);
    // A `for`: a chain whose closure reads onto the stack would leave a proof nothing of what was read.
    for row in rows.iter().rev() {
        if !stack.read(&marking, *row).is_ok_and(Mark::is_range) {
            return false;
        }
    }
    true
}

// The same. It touches the working marks as `evaluate` does, and with fewer of them than rows it says no.
pub fn stays_in_span<M: Copy, N: Mentions<M, Mark>>(
    mentions: &N,
    rows: &[Row<M>],
    working: &mut [Mark],
) -> bool
    ensures result { result ≡ (nat_le (length rows.now) (length working.old) && ranged_rows (N.found mentions.now) rows.now) }
    ensures working { Worked (length rows.now) working.old working.new }
{
    if working.len() < rows.len() {
        return false;
    }
    are_ranged(mentions, rows, working)
}
