// Types: what the declared types say of a unit's variables.

ghost use Rattle.std.specs.Prelude.{◌≡◌};
ghost use Rattle.std.specs.List.{slice_get};
ghost use Rattle.checking.specs.Types.{domain_kind, domain_bounds, domains_in, mention_domain, mention_kind, mention_bounds};

use jcode::mention::{Aspect, Mention};
use jcode::variable::{Domain, Variable};
use reckoning::mark::Mark;
use terms::kind::Kind;
use terms::mentions::Mentions;

#[derive(Clone, Copy, Debug, PartialEq, Eq)]
pub struct Types<'a> {
    pub variables: &'a [Variable],
}

// The kind of a type's values. No `From`, here and below: both types are of crates below.
pub fn domain_kind(domain: Domain) -> Kind
    ensures { result ≡ domain_kind domain }
{
    match domain {
        Domain::Boolean => Kind::Truth,
        _ => Kind::Number,
    }
}

// The least and the greatest value of a type.
pub fn domain_bounds(domain: Domain) -> Mark
    ensures { result ≡ domain_bounds domain }
{
    match domain {
        Domain::Integer => Mark {
            low: -32_768,
            high: 32_767,
        },
        Domain::Boolean => Mark { low: 0, high: 1 },
        Domain::Subrange { low, high } => Mark { low, high },
    }
}

impl Types<'_> {
    // The type of a variable, `None` for an unknown one.
    pub(super) fn domain(&self, variable: usize) -> Option<Domain>
        ensures { result ≡ slice_get (domains_in self.now.variables.now) variable }
    {
        self.variables.get(variable).map(|variable| variable.domain)
    }

    // The type of what is mentioned: a shadow is a truth.
    fn domain_of(&self, mention: Mention) -> Option<Domain>
        ensures { result ≡ mention_domain (domains_in self.now.variables.now) mention }
    {
        match mention.aspect {
            Aspect::Shadow => Some(Domain::Boolean),
            Aspect::Value => self.domain(mention.variable),
        }
    }
}

impl<'a> Mentions<Mention, Kind> for Types<'a> {
    ghost found = { λ s. mention_kind (domains_in s.variables.now) };

    fn find(&self, mention: Mention) -> Option<Kind> {
        self.domain_of(mention).map(domain_kind)
    }
}

impl<'a> Mentions<Mention, Mark> for Types<'a> {
    ghost found = { λ s. mention_bounds (domains_in s.variables.now) };

    fn find(&self, mention: Mention) -> Option<Mark> {
        self.domain_of(mention).map(domain_bounds)
    }
}
