//! What a resource may hold.
ghost use Rattle.std.specs.Prelude.{◌≡◌};
ghost use Rattle.std.specs.List.{list_all};
ghost use Rattle.config_terms.specs.declared.rules.Rule.TheVariants.{OptionWord};
ghost use Rattle.config_terms.specs.Rules.{obeys};
ghost use Rattle.config_terms.specs.Allowed.{fields_fit, is_allowed_limit, entry_allowed, is_kept_path, is_whole, is_allowed, options_passed};

use crate::{Entry, Kind, Limit, Resource, Rule};
use zn_base::{AbsPath, Text};

/// The greatest number of options of one fs.
pub(crate) const OPTIONS_MAX: usize = 32;

#[tactic(auto, unfolding(crate::specs::Allowed::fields_fit))]
fn fields_fit<T: Entry>(kind: Kind, entry: &T) -> bool
    ensures { result ≡ fields_fit kind (T.shown entry.now) }
{
    kind.fields()
        .iter()
        .all(|field| field.rule().fits(entry.shown(*field)))
}

/// Whether each text is an option.
pub(crate) fn are_options(texts: &[Text]) -> bool
    ensures { result ≡ list_all (obeys OptionWord) texts.now }
{
    texts
        .iter()
        .all(|text| Rule::OptionWord.allows(text.bytes()))
}

fn are_limits(values: &[Limit]) -> bool
    ensures { result ≡ list_all is_allowed_limit values.now }
{
    values.iter().all(|value| value.limit >= 1)
}

// Whether each property of a resource is unset or has a value that its rule allows. How many options there
// are is counted elsewhere.
#[tactic(auto, unfolding(crate::specs::Allowed::entry_allowed))]
fn entry_allowed<T: Entry>(kind: Kind, entry: &T) -> bool
    ensures { result ≡ entry_allowed kind (T.shown entry.now) (T.options entry.now) (T.values entry.now) }
{
    fields_fit(kind, entry) && are_options(entry.options()) && are_limits(entry.values())
}

fn is_kept_path(path: &Option<AbsPath>) -> bool
    ensures { result ≡ is_kept_path path.now }
{
    match path {
        None => true,
        Some(path) => !path.bytes().is_empty(),
    }
}

impl Resource {
    fn is_whole(&self) -> bool
        ensures { result ≡ is_whole self.now }
    {
        match self {
            Resource::Fs(fs) => is_kept_path(&fs.dir),
            _ => true,
        }
    }

    /// Whether the resource may stand in a configuration: each property is unset or has a value that its
    /// rule allows. It takes no memory.
    pub fn is_allowed(&self) -> bool
        ensures { result ≡ is_allowed self.now }
    {
        self.is_whole() && entry_allowed(self.kind(), self)
    }

    /// The limit that the resource's options pass, if they do.
    pub fn options_passed(&self) -> Option<usize>
        ensures { result ≡ options_passed self.now }
    {
        match self {
            Resource::Fs(fs) if fs.options.len() > OPTIONS_MAX => Some(OPTIONS_MAX),
            _ => None,
        }
    }
}
