//! The resources of a configuration, kind by kind.
ghost use Rattle.std.specs.Prelude.{◌≡◌, ◌<◌, ◌≤◌, IfErr, IfOk, IsTrue, OnErr, OnOk, Some, length, remove};
ghost use Rattle.config_terms.specs.Allowed.{are_told_apart, is_taken};
ghost use Rattle.config_terms.specs.Fields.{kind_of};
ghost use Rattle.zone_config.specs.Resources.{IsLengthOf, added, are_apart, count_of, found, has_taken, has_taken_but, kind_passed, limit_passed, removed, replaced, text_at};
ghost use Rattle.zone_config.specs.declared.limits.TheConstants.{RESOURCES_MAX};
ghost use Rattle.zone_config.specs.Sound.{count};

use crate::kinds::{
    by_resource, by_resource_mut, resource_by_kind_mut, resource_or_back, sum_of_kinds,
};
use crate::limits::{FS_MAX, RESOURCES_MAX};
use crate::{Contents, by_kind};
use config_terms::{
    ConfigFault, Entry, Kind, Resource, entry_length, find_apart, is_taken, is_taken_but, keeps_key,
};
use std::alloc::AllocFailed;
use zn_base::{Listing, Pair};

// Whether another resource of a kind than the one at a place has a resource's key. Where the key is that one's,
// no other has it, and none is looked at.
fn is_taken_beside<T: Entry>(kind: Kind, place: usize, entry: &T, list: &Listing<T>) -> bool
    requires place { place < length list.now }
    requires once { IsTrue (are_told_apart T.shown kind list.now) }
    ensures { result ≡ is_taken T.shown kind entry.now (remove list.now place) }
{
    if keeps_key(kind, entry, list.at(place)) {
        return false;
    }
    is_taken_but(kind, place, entry, list.as_slice())
}

impl Contents {
    #[tactic(auto, unfolding(crate::specs::Sound::count))]
    fn count(&self) -> usize
        requires { count self.now ≤ RESOURCES_MAX }
        ensures { result ≡ count self.now }
    {
        sum_of_kinds!(self, |list| list.len())
    }

    fn kind_passed(&self, resource: &Resource) -> Option<usize>
        ensures { result ≡ kind_passed resource.now self.now }
    {
        match resource {
            Resource::Fs(_) if self.fs.len() >= FS_MAX => Some(FS_MAX),
            _ => resource.options_passed(),
        }
    }

    /// The first limit that one more resource passes: 256, 100 or 32.
    pub(crate) fn limit_passed(&self, resource: &Resource) -> Option<usize>
        requires { count self.now ≤ RESOURCES_MAX }
        ensures { result ≡ limit_passed resource.now self.now }
    {
        if self.count() >= RESOURCES_MAX {
            return Some(RESOURCES_MAX);
        }
        self.kind_passed(resource)
    }

    /// Whether another resource of its kind has the resource's key.
    pub fn has_taken(&self, resource: &Resource) -> bool
        ensures { result ≡ has_taken resource.now self.now }
    {
        by_resource!(resource, self, |kind, entry, list| {
            is_taken(kind, entry, list.as_slice())
        })
    }

    /// The same of the resources but the one at a place.
    pub(crate) fn has_taken_but(&self, place: usize, resource: &Resource) -> bool
        requires place { place < count_of (kind_of resource.now) self.now }
        requires once { IsTrue (are_apart (kind_of resource.now) self.now) }
        ensures { result ≡ has_taken_but place resource.now self.now }
    {
        by_resource!(resource, self, |kind, entry, list| {
            is_taken_beside(kind, place, entry, list)
        })
    }

    /// Puts a resource last in its kind. Where memory runs out all is as before, and the resource comes back.
    pub(crate) fn add(&mut self, resource: Resource) -> Result<(), AllocFailed<Resource>>
        ensures ok { OnOk result (self.new ≡ added resource self.old) }
        ensures err { OnErr result (self.new ≡ self.old) }
        ensures back { IfErr result (λ failed. failed.value ≡ resource) }
    {
        resource_or_back!(resource, self, |entry, list| list.try_push(entry))
    }

    /// Puts a resource in the place of another of its kind.
    pub(crate) fn replace(&mut self, place: usize, resource: Resource)
        requires { place < count_of (kind_of resource) self.old }
        ensures { self.new ≡ replaced place resource self.old }
    {
        by_resource_mut!(resource, self, |entry, list| list.replace(place, entry))
    }

    /// Takes the resource of a kind at a place out.
    pub(crate) fn remove(&mut self, kind: Kind, place: usize) -> Resource
        requires { place < count_of kind self.old }
        ensures { removed kind place self.old ≡ Some (result, self.new) }
    {
        resource_by_kind_mut!(kind, self, |list| list.remove(place))
    }

    /// How long the text is of the resource of a kind at a place.
    pub(crate) fn length_at(&self, kind: Kind, place: usize) -> usize
        requires { place < count_of kind self.now }
        ensures { IsLengthOf result (text_at place kind self.now) }
    {
        by_kind!(kind, self, |kind, list| entry_length(kind, list.at(place)))
    }

    /// The place of the one resource of a kind that each wanted pair matches.
    pub(crate) fn find(&self, kind: Kind, wanted: &[Pair]) -> Result<usize, ConfigFault>
        requires { IsTrue (are_apart kind self.now) }
        ensures answer { result ≡ found kind wanted.now self.now }
        ensures inside { IfOk result (λ place. place < count_of kind self.now) }
    {
        by_kind!(
            kind,
            self,
            |kind, list| find_apart(kind, list.as_slice(), wanted)
        )
    }
}
