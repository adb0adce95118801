// Words, and tables that say what each stands for.

ghost use Rattle.std.specs.Prelude.{◌≡◌};
ghost use Rattle.terms.specs.Words.{same_word, found};

// A word and what it stands for.
#[derive(Clone, Copy, Debug, PartialEq, Eq)]
pub struct Entry<T>(pub &'static [u8], pub T);

pub fn same_word(a: &[u8], b: &[u8]) -> bool
    ensures { result ≡ same_word a.now b.now }
{
    a == b
}

// What the first entry of the table with this word stands for.
pub fn lookup<T: Copy>(word: &[u8], table: &[Entry<T>]) -> Option<T>
    ensures { result ≡ found word.now table.now }
{
    table
        .iter()
        .find(|line| same_word(word, line.0))
        .map(|line| line.1)
}
