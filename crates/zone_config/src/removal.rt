//! The removal of the resources that match, and copies of those that stay.
ghost use Rattle.std.specs.Prelude.{◌≡◌, ◌<◌, ◌≤◌, IfOk};
ghost use Rattle.config_terms.specs.Edits.{ChangesSurely};
ghost use Rattle.zone_config.specs.Removal.{matches_at, resource_at, without_all, without_found, without_match_at, without_matches};
ghost use Rattle.zone_config.specs.Resources.{count_of};

use crate::kinds::resource_by_kind;
use crate::{Contents, ZoneConfig, by_kind};
use config_terms::{ConfigFault, Kind, Resource, has_all};
use std::alloc::{AllocError, Global};
use zn_base::{Pair, TryClone};

impl Contents {
    /// How many resources there are of a kind.
    pub fn count_of(&self, kind: Kind) -> usize
        ensures count { result ≡ count_of kind self.now }
        ensures bound { result ≤ 4294967295 }
    {
        by_kind!(kind, self, |list| list.len())
    }

    /// A copy of the resource of a kind at a place.
    pub fn copy_at(&self, alloc: Global, kind: Kind, place: usize) -> Result<Resource, AllocError>
        requires { place < count_of kind self.now }
        ensures { IfOk result (λ r. r ≡ resource_at kind place self.now) }
    {
        resource_by_kind!(kind, self, |list| list.at(place).try_clone(alloc))
    }

    fn matches_at(&self, kind: Kind, wanted: &[Pair], place: usize) -> bool
        requires { place < count_of kind self.now }
        ensures { result ≡ matches_at kind wanted.now place self.now }
    {
        by_kind!(
            kind,
            self,
            |kind, list| has_all(kind, list.at(place), wanted)
        )
    }
}

fn remove_match_at(config: &mut ZoneConfig, kind: Kind, wanted: &[Pair], place: usize)
    requires inside { place < count_of kind config.old }
    requires bound { place < 4294967296 }
    ensures { config.new ≡ without_match_at kind wanted.now place config.old }
{
    if config.matches_at(kind, wanted, place) {
        let _removed = config.remove_resource(kind, place as u32);
    }
}

// Removes all that match, from the last place to the first.
fn remove_all(config: &mut ZoneConfig, kind: Kind, wanted: &[Pair])
    ensures { config.new ≡ without_matches kind wanted.now config.old }
{
    let mut place = config.count_of(kind);
    while place > 0 {
        place -= 1;
        remove_match_at(config, kind, wanted, place);
    }
}

impl ZoneConfig {
    /// Takes the one resource of a kind out that each wanted pair matches, or 25, or 26 with how many there
    /// are. It takes no memory.
    pub fn remove_found(&mut self, kind: Kind, wanted: &[Pair]) -> Result<(), ConfigFault>
        ensures { ChangesSurely self.old self.new result (without_found kind wanted.now self.old) }
    {
        let place = self.find_resource(kind, wanted)?;
        let _removed = self.remove_resource(kind, place);
        Ok(())
    }

    /// Takes all resources of a kind out that each wanted pair matches, or 25. It takes no memory.
    pub fn remove_matches(&mut self, kind: Kind, wanted: &[Pair]) -> Result<(), ConfigFault>
        ensures { ChangesSurely self.old self.new result (without_all kind wanted.now self.old) }
    {
        if let Err(ConfigFault::NoMatch) = self.find_resource(kind, wanted) {
            return Err(ConfigFault::NoMatch);
        }
        remove_all(self, kind, wanted);
        Ok(())
    }
}
