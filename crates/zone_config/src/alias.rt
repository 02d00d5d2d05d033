//! Aliases, and the rctls that they are kept as.
ghost use Rattle.std.specs.Prelude.{◌≡◌, IfOk};
ghost use Rattle.zone_config.specs.Property.{rctl_name};
ghost use Rattle.zone_config.specs.Edits.{alias_rctl, holds, is_held, is_named_for, is_single, place_of};

use crate::Alias;
use config_terms::{Limit, Rctl};
use std::alloc::{AllocError, Global};
use zn_base::{Listing, Text};

fn is_single(deny: bool, values: &[Limit]) -> bool
    ensures { result ≡ is_single deny values.now }
{
    match values {
        [value] => value.deny == deny,
        _ => false,
    }
}

impl Alias {
    fn is_named(self, rctl: &Rctl) -> bool
        ensures { result ≡ is_named_for self rctl.now }
    {
        rctl.name.bytes() == self.rctl_name()
    }

    fn holds(self, rctl: &Rctl) -> bool
        ensures { result ≡ holds self rctl.now }
    {
        self.is_named(rctl) && !is_single(self.denies(), rctl.values.as_slice())
    }

    /// Whether an rctl of the alias's name has another form than the alias gives.
    pub(crate) fn is_held(self, rctls: &[Rctl]) -> bool
        ensures { result ≡ is_held self rctls.now }
    {
        rctls.iter().any(|rctl| self.holds(rctl))
    }

    /// Where the rctl of the alias's name stands.
    pub(crate) fn place(self, rctls: &[Rctl]) -> Option<usize>
        ensures { result ≡ place_of self rctls.now }
    {
        rctls.iter().position(|rctl| self.is_named(rctl))
    }

    fn rctl_text(self, alloc: Global) -> Result<Text, AllocError>
        ensures { IfOk result (λ text. text ≡ rctl_name self) }
    {
        Text::of(alloc, self.rctl_name())
    }

    /// The rctl that the alias with a limit is kept as.
    pub(crate) fn rctl(self, alloc: Global, limit: u64) -> Result<Rctl, AllocError>
        ensures { IfOk result (λ rctl. rctl ≡ alias_rctl self limit) }
    {
        let mut values = Listing::new(alloc);
        values.push(Limit {
            limit,
            deny: self.denies(),
        })?;
        Ok(Rctl {
            name: self.rctl_text(alloc)?,
            values,
        })
    }
}
