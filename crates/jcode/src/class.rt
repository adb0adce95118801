// Classes of bytes.

ghost use Rattle.std.specs.Prelude.{◌≡◌, ◌+◌, ◌<◌, ◌≤◌, length, drop, take_while};
ghost use Rattle.std.specs.List.{list_all};
ghost use Rattle.jcode.specs.Bytes.{in_class, passes};

use terms::part::part;

#[derive(Clone, Copy, Debug, PartialEq, Eq)]
pub(super) enum Class {
    Separator,
    Letter,
    Digit,
    // What may follow the first letter of a name.
    Name,
    Text,
}

impl Class {
    // By ranges with a guard, so that each class stands beside the bytes it shares with others.
    pub(super) fn contains(self, byte: u8) -> bool
        ensures { result ≡ in_class self byte }
    {
        match (self, byte) {
            (Class::Separator, b' ' | b'\t' | b'\n') => true,
            (Class::Letter | Class::Name, b'a'..=b'z' | b'A'..=b'Z') => true,
            (Class::Text, b' '..=b'~') => true,
            (Class::Digit | Class::Name, b'0'..=b'9') => true,
            (_, b'.' | b'_' | b'~') if matches!(self, Class::Name) => true,
            _ => false,
        }
    }

    // Whether a byte of the class stands at a place.
    pub(super) fn stands(self, bytes: &[u8], at: usize) -> bool
        ensures { result ≡ passes (in_class self) bytes.now at }
    {
        bytes.get(at).is_some_and(|&byte| self.contains(byte))
    }

    // Whether all these bytes are of the class.
    pub(super) fn fills(self, bytes: &[u8]) -> bool
        ensures { result ≡ list_all (in_class self) bytes.now }
    {
        bytes.iter().all(|&byte| self.contains(byte))
    }

    // How many bytes of the class stand at the front.
    fn front(self, bytes: &[u8]) -> usize
        ensures value { result ≡ length (take_while (in_class self) bytes.now) }
        ensures within { result ≤ length bytes.now }
    {
        bytes
            .iter()
            .take_while(|&&byte| self.contains(byte))
            .count()
    }

    // How many bytes of the class stand from `start` on. By a part of the slice, since an iterator that skips bytes walks past each of them.
    pub(super) fn run(self, bytes: &[u8], start: usize) -> usize
        ensures value { result ≡ length (take_while (in_class self) (drop start bytes.now)) }
        ensures within { 0 < result → start + result ≤ length bytes.now }
    {
        self.front(part(bytes, start, bytes.len()))
    }
}
