// Pieces of the notation that stand alone.

ghost use Rattle.std.specs.Prelude.{◌≡◌};
ghost use Rattle.jcode.specs.Bytes.{is_word, is_text};

use super::class::Class;
use super::cursor::text_run;

// How many bytes a name may have.
pub const NAME_LIMIT: usize = 32;

// How many bytes a text may have.
pub const TEXT_LIMIT: usize = 80;

// Whether these bytes are a word: a letter, and nothing after it that no name may have.
pub fn is_word(bytes: &[u8]) -> bool
    ensures { result ≡ is_word bytes.now }
{
    Class::Letter.stands(bytes, 0) && Class::Name.fills(bytes)
}

// Whether these bytes are a text: all may stand in one, and no `/)` is among them.
pub fn is_text(bytes: &[u8]) -> bool
    ensures { result ≡ is_text bytes.now }
{
    text_run(bytes, 0) == bytes.len()
}
