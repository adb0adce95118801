// Reckonings: a reckoning is an abstract domain, and its laws make every answer safe to rely on.

ghost use Rattle.std.specs.Prelude.{◌≡◌, ℤ};
ghost use Rattle.reckoning.specs.declared.mark.Mark.{Mark};
ghost use Rattle.reckoning.specs.Reckonings.{Meaning, Lawful};

use super::decision::Decision;
use super::mark::Mark;
use terms::operator::Operator;

pub trait Reckoning {
    // The numbers that a mark stands for.
    ghost covers: { Self → Mark → ℤ → Type 0 };

    // What it answers to each question, the same however often it is put.
    ghost meaning: { Self → Meaning };

    // The mark of a number of which nothing is known.
    fn any(&self) -> Mark
        ensures { result ≡ (meaning self.now).anything };

    fn constant(&self, number: i64) -> Mark
        ensures { result ≡ (meaning self.now).marked number };

    fn bounds(&self, low: i64, high: i64) -> Mark
        ensures { result ≡ (meaning self.now).bounded low high };

    // An operator ignores what stands past its last operand. The three are no array, so that no law of an operator speaks of lists.
    fn apply(&self, operator: Operator, a: Mark, b: Mark, c: Mark) -> Mark
        ensures { result ≡ (meaning self.now).applied operator a b c };

    // What is known of a number that both marks stand for, `None` where there is no such number.
    fn meet(&self, a: Mark, b: Mark) -> Option<Mark>
        ensures { result ≡ (meaning self.now).met a b };

    fn decide(&self, truth: Mark) -> Decision
        ensures { result ≡ (meaning self.now).decided truth };

    // All that a new reckoning owes.
    ghost lawful: { (s : Self) → Lawful (covers s) (meaning s) };
}
