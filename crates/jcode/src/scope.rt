// Scopes: the variables that a term can mention.

ghost use Rattle.std.specs.Prelude.{◌≡◌, position};
ghost use Rattle.terms.specs.Words.{same_word};
ghost use Rattle.jcode.specs.Scopes.{index_of, name_in, member, scope_of, renews, renewed};

use super::statement::Listing;
use super::variable::Variable;

#[derive(Clone, Copy, Debug, PartialEq, Eq)]
pub struct Scope<'a> {
    pub bytes: &'a [u8],
    pub variables: &'a [Variable],
    // None outside of NEW.
    pub listing: Option<Listing>,
}

impl Scope<'_> {
    // The first variable with this name. Apart from `find`, which says the same of the list of names: a proof takes the two steps one by one.
    fn position(self, name: &[u8]) -> Option<usize>
        ensures { result ≡ position (λ v. same_word name.now (name_in self.entry.bytes.now v)) self.entry.variables.now }
    {
        self.variables
            .iter()
            .position(|variable| variable.is_named(self.bytes, name))
    }

    // The number of the variable with this name.
    #[tactic(auto, using(crate::proofs::Names::position_map))]
    pub(super) fn find(self, name: &[u8]) -> Option<usize>
        ensures { result ≡ index_of name.now (scope_of self.entry).names }
    {
        self.position(name)
    }

    // Whether NEW lists this variable.
    fn renews(self, variable: usize) -> bool
        ensures { result ≡ renews (scope_of self.entry) variable }
    {
        self.listing
            .is_some_and(|listing| contains(listing.listed(), variable))
    }

    // The number of the variable with this name, if NEW lists it.
    pub(super) fn renewed(self, name: &[u8]) -> Option<usize>
        ensures { result ≡ renewed (scope_of self.entry) name.now }
    {
        let variable = self.find(name)?;
        self.renews(variable).then_some(variable)
    }
}

// Whether a variable is among these.
pub fn contains(variables: &[usize], variable: usize) -> bool
    ensures { result ≡ member variable variables.now }
{
    variables.contains(&variable)
}
