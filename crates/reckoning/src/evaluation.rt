// Evaluation: the mark of a term, over any reckoning.

ghost use Rattle.std.specs.Prelude.{◌≡◌, ◌-◌, ◌<◌, length, take};
ghost use Rattle.terms.specs.Terms.{Worked};
ghost use Rattle.reckoning.specs.Evaluation.{evaluated, Covering};

use super::mark::Mark;
use super::marking::Marking;
use super::reckoning::Reckoning;
use terms::fold::outcome;
use terms::mentions::Mentions;
use terms::row::Row;

// The mark of a term. It reads and writes only the last of the working marks, as many as the term has rows, and leaves the others alone. The rows, what is known of their mentions and the room have three owners, so they are three parameters.
pub fn evaluate<M: Copy, N: Mentions<M, Mark>, R: Reckoning>(
    reckoning: &R,
    mentions: &N,
    rows: &[Row<M>],
    working: &mut [Mark],
) -> Mark
    ensures mark { result ≡ evaluated (R.meaning reckoning.now) (N.found mentions.now) rows.now (length working.old) }
    ensures working { Worked (length rows.now) working.old working.new }
    ensures covering { Covering (R.covers reckoning.now) (N.found mentions.now) rows.now result }
{
    let marking = Marking {
        mentions,
        reckoning,
    };
    outcome(&marking, rows, working)
}
