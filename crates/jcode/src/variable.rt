// Variables, as a unit declares them.

ghost use Rattle.std.specs.Prelude.{◌≡◌};
ghost use Rattle.std.specs.List.{list_any};
ghost use Rattle.terms.specs.Words.{same_word};
ghost use Rattle.jcode.specs.Bytes.{slice};

use super::span::Span;
use terms::word::same_word;

// How many variables a unit may declare.
pub const VARIABLE_LIMIT: usize = 32;

// A variable's type.
#[derive(Clone, Copy, Debug, Default, PartialEq, Eq)]
pub enum Domain {
    // From -32768 to 32767.
    #[default]
    Integer,
    Boolean,
    // From `low` to `high`, both included.
    Subrange { low: i64, high: i64 },
}

#[derive(Clone, Copy, Debug, Default, PartialEq, Eq)]
pub struct Variable {
    pub name: Span,
    pub domain: Domain,
}

// Whether one of the variables has this name in the bytes.
pub(super) fn is_taken(variables: &[Variable], bytes: &[u8], name: &[u8]) -> bool
    ensures { result ≡ list_any (λ v. same_word name.now (slice bytes.now v.name)) variables.now }
{
    variables
        .iter()
        .any(|variable| variable.is_named(bytes, name))
}

impl Variable {
    // Whether this is its name in the bytes.
    pub(super) fn is_named(&self, bytes: &[u8], name: &[u8]) -> bool
        ensures { result ≡ same_word name.now (slice bytes.now self.now.name) }
    {
        same_word(name, self.name.of(bytes))
    }
}
