//! Configurations that are sound.
ghost use Rattle.std.specs.Prelude.{◌≡◌, ◌<◌, ◌≤◌, Err, IfErr, IfOk, IsTrue, None, Ok, OnErr, OnOk, Some, false, length};
ghost use Rattle.config_terms.specs.Allowed.{is_allowed, options_passed};
ghost use Rattle.config_terms.specs.Edits.{Changes, ChangesSurely};
ghost use Rattle.config_terms.specs.Fields.{kind_of};
ghost use Rattle.config_terms.specs.declared.fault.ConfigFault.TheVariants.{Memory};
ghost use Rattle.zone_config.specs.Edits.{alias_cleared, alias_set, property_set, with_property, without_property};
ghost use Rattle.zone_config.specs.Export.{export_text, sized};
ghost use Rattle.zone_config.specs.Property.{blank, without_value};
ghost use Rattle.zone_config.specs.Resources.{count_of, found, has_taken_but, length_of, removed, replaced, with_replaced, with_resource};
ghost use Rattle.zone_config.specs.Sound.{IsSound};
ghost use Rattle.zone_config.specs.declared.limits.TheConstants.{TEXT_MAX};

use crate::limits::TEXT_MAX;
use crate::sizes::{size_added, size_replaced, size_with};
use crate::{Alias, Contents, Property, Setting};
use config_terms::{ConfigFault, Entry, Kind, Resource, entry_length};
use std::alloc::{AllocFailed, Global};
use std::marker::Model;
use std::ops::Deref;
use zn_base::{Pair, Text, TryClone, Value, read_decimal};

/// A configuration: each property that is set has a value that its rule allows, no two rctls, attrs or
/// datasets have one name and no two devices one match, there are at most 256 resources, 100 of them file
/// systems with at most 32 options each, and the export text has at most 32,768 bytes. Contracts see its
/// contents, which anyone may read and only its own calls change.
#[derive(Drop)]
pub struct ZoneConfig {
    contents: Contents,
    size: usize,
}

impl Model for ZoneConfig {
    ghost use Rattle.zone_config.specs.declared.terms.Contents.{Contents};
    ghost use Rattle.zone_config.specs.Sound.{IsKept};

    ghost Value = { Contents };

    ghost view = { λ c. c.contents };

    ghost invariant = { λ c. IsKept c.contents c.size };
}

// The export text of a configuration in which nothing is set.
const BLANK: &[u8] = b"create -b\nset autoboot=false\nset ip-type=shared\n";

/// A configuration in which nothing is set. It takes no memory.
pub fn blank(alloc: Global) -> ZoneConfig
    ensures { result ≡ blank }
{
    ZoneConfig {
        contents: Contents::blank(alloc),
        size: BLANK.len(),
    }
}

impl Deref for ZoneConfig {
    type Target = Contents;

    ghost deref_gives = { λ c contents. contents ≡ c };

    fn deref(&self) -> &Contents {
        &self.contents
    }
}

impl ZoneConfig {
    /// The properties and the resources.
    pub fn contents(&self) -> &Contents
        ensures same { result.now ≡ self.now }
        ensures sound { IsSound result.now }
    {
        &self.contents
    }

    /// How many bytes the export text has. It takes no memory, and no look at the contents.
    pub fn text_length(&self) -> usize
        ensures same { result ≡ length (export_text self.now) }
        ensures bound { result ≤ TEXT_MAX }
    {
        self.size
    }

    /// An equal configuration.
    pub fn copy(&self, alloc: Global) -> Result<ZoneConfig, ConfigFault>
        ensures same { IfOk result (λ config. config ≡ self.now) }
        ensures memory { OnErr result (result ≡ Err ConfigFault.Memory) }
    {
        Ok(ZoneConfig {
            contents: self.contents.try_clone(alloc)?,
            size: self.size,
        })
    }

    /// Sets a property, as the line `set NAME=VALUE` of zonecfg(8) does. An empty text unsets what may be
    /// unset so. Faults come in the order 22, 23, 28, 27, 29, and after each all is as before.
    #[tactic(auto, unfolding(crate::specs::Edits::with_property))]
    pub fn set_property(
        &mut self,
        alloc: Global,
        name: &[u8],
        value: Value,
    ) -> Result<(), ConfigFault>
        ensures { Changes self.old self.new result (with_property name.now value self.old) }
    {
        let Some(setting) = Setting::named(name) else {
            return Err(ConfigFault::UnknownProperty);
        };
        let Value::Simple(text) = value else {
            return Err(ConfigFault::BadValue);
        };
        match setting {
            Setting::Kept(property) => self.set_kept(alloc, property, text),
            Setting::Aliased(alias) => self.set_alias(alloc, alias, &text),
        }
    }

    /// Clears a property, as the line `clear NAME` of zonecfg(8) does: it is as in a blank configuration,
    /// and the rctl of an alias is taken out. It takes no memory. Faults come in the order 22, 28, 29, and
    /// after each all is as before.
    #[tactic(auto, unfolding(crate::specs::Edits::without_property))]
    pub fn clear_property(&mut self, alloc: Global, name: &[u8]) -> Result<(), ConfigFault>
        ensures { ChangesSurely self.old self.new result (without_property name.now self.old) }
    {
        match Setting::named(name) {
            None => Err(ConfigFault::UnknownProperty),
            Some(Setting::Kept(property)) => self.clear_kept(alloc, property),
            Some(Setting::Aliased(alias)) => self.clear_alias(alias),
        }
    }

    /// Puts a resource last in its kind. Faults come in the order 23, 24, 27, 29, and after each all is as
    /// before.
    pub fn add_resource(&mut self, resource: Resource) -> Result<(), ConfigFault>
        ensures { Changes self.old self.new result (with_resource resource self.old) }
    {
        let size = self.check_added(&resource)?;
        self.put_added(resource, size)?;
        Ok(())
    }

    /// How many bytes the export text has once a resource is last in its kind, or why it may not be. It
    /// takes no memory.
    #[tactic(auto, unfolding(crate::specs::Resources::with_resource))]
    pub fn check_added(&self, resource: &Resource) -> Result<usize, ConfigFault>
        ensures { result ≡ length_of (with_resource resource.now self.now) }
    {
        if !resource.is_allowed() {
            return Err(ConfigFault::BadValue);
        }
        if self.contents.has_taken(resource) {
            return Err(ConfigFault::Duplicate);
        }
        if let Some(limit) = self.contents.limit_passed(resource) {
            return Err(ConfigFault::TooMany(limit));
        }
        let size = size_added(&self.contents, self.size, resource);
        if size > TEXT_MAX {
            return Err(ConfigFault::TooLarge(size));
        }
        Ok(size)
    }

    /// Puts a resource last in its kind, which `check_added` answers the length for. Where memory runs out
    /// all is as before, and the resource comes back.
    pub fn put_added(
        &mut self,
        resource: Resource,
        size: usize,
    ) -> Result<(), AllocFailed<Resource>>
        requires { length_of (with_resource resource self.old) ≡ Ok size }
        ensures ok { OnOk result (with_resource resource self.old ≡ Ok self.new) }
        ensures err { OnErr result (self.new ≡ self.old) }
        ensures back { IfErr result (λ failed. failed.value ≡ resource) }
    {
        self.contents.add(resource)?;
        self.size = size;
        Ok(())
    }

    /// Puts a resource in the place of another of its kind. It takes no memory. Faults come in the order
    /// 23, 24, 27, 29, and after each all is as before.
    pub fn replace_resource(&mut self, place: u32, resource: Resource) -> Result<(), ConfigFault>
        requires { place < count_of (kind_of resource) self.old }
        ensures { ChangesSurely self.old self.new result (with_replaced place resource self.old) }
    {
        let size = self.check_replaced(place, &resource)?;
        self.put_replaced(place, resource, size);
        Ok(())
    }

    /// How many bytes the export text has once a resource has the place of another of its kind, or why it
    /// may not have it. It takes no memory.
    #[tactic(auto, unfolding(crate::specs::Resources::with_replaced))]
    pub fn check_replaced(&self, place: u32, resource: &Resource) -> Result<usize, ConfigFault>
        requires { place < count_of (kind_of resource.now) self.now }
        ensures { result ≡ length_of (with_replaced place resource.now self.now) }
    {
        let place = place as usize;
        if !resource.is_allowed() {
            return Err(ConfigFault::BadValue);
        }
        if self.contents.has_taken_but(place, resource) {
            return Err(ConfigFault::Duplicate);
        }
        if let Some(limit) = resource.options_passed() {
            return Err(ConfigFault::TooMany(limit));
        }
        let size = size_replaced(&self.contents, self.size, place, resource);
        if size > TEXT_MAX {
            return Err(ConfigFault::TooLarge(size));
        }
        Ok(size)
    }

    /// Puts a resource in the place of another of its kind, which `check_replaced` answers the length for.
    pub fn put_replaced(&mut self, place: u32, resource: Resource, size: usize)
        requires place { place < count_of (kind_of resource) self.old }
        requires checked { length_of (with_replaced place resource self.old) ≡ Ok size }
        ensures { with_replaced place resource self.old ≡ Ok self.new }
    {
        self.contents.replace(place as usize, resource);
        self.size = size;
    }

    /// Takes the resource of a kind at a place out. It takes no memory.
    pub fn remove_resource(&mut self, kind: Kind, place: u32) -> Resource
        requires { place < count_of kind self.old }
        ensures { removed kind place self.old ≡ Some (result, self.new) }
    {
        self.take(kind, place as usize)
    }

    /// The place of the one resource of a kind that each wanted pair matches, or 25, or 26 with how many
    /// there are. It takes no memory.
    pub fn find_resource(&self, kind: Kind, wanted: &[Pair]) -> Result<u32, ConfigFault>
        ensures answer { result ≡ found kind wanted.now self.now }
        ensures inside { IfOk result (λ place. place < count_of kind self.now) }
    {
        let place = self.contents.find(kind, wanted)?;
        Ok(place as u32)
    }

    fn set_kept(
        &mut self,
        alloc: Global,
        property: Property,
        value: Text,
    ) -> Result<(), ConfigFault>
        ensures { Changes self.old self.new result (property_set property value self.old) }
    {
        if !property.rule().allows(value.bytes()) {
            return Err(ConfigFault::BadValue);
        }
        let size = size_with(&self.contents, self.size, property, value.bytes());
        if size > TEXT_MAX {
            return Err(ConfigFault::TooLarge(size));
        }
        self.contents.put(alloc, property, value)?;
        self.size = size;
        Ok(())
    }

    fn clear_kept(&mut self, alloc: Global, property: Property) -> Result<(), ConfigFault>
        ensures { ChangesSurely self.old self.new result (sized (without_value property self.old)) }
    {
        let size = size_with(&self.contents, self.size, property, property.unset_text());
        if size > TEXT_MAX {
            return Err(ConfigFault::TooLarge(size));
        }
        self.contents.unset(alloc, property);
        self.size = size;
        Ok(())
    }

    fn put_in_place(&mut self, place: usize, resource: Resource) -> Result<(), ConfigFault>
        requires place { place < count_of (kind_of resource) self.old }
        requires allowed { IsTrue (is_allowed resource) }
        requires free { has_taken_but place resource self.old ≡ false }
        requires few { options_passed resource ≡ None }
        ensures { ChangesSurely self.old self.new result (sized (replaced place resource self.old)) }
    {
        let size = size_replaced(&self.contents, self.size, place, &resource);
        if size > TEXT_MAX {
            return Err(ConfigFault::TooLarge(size));
        }
        self.contents.replace(place, resource);
        self.size = size;
        Ok(())
    }

    #[tactic(auto, unfolding(crate::specs::Edits::alias_set))]
    fn set_alias(&mut self, alloc: Global, alias: Alias, value: &Text) -> Result<(), ConfigFault>
        ensures { Changes self.old self.new result (alias_set alias value.now self.old) }
    {
        let Some(limit) = read_decimal(value.bytes(), u64::MAX) else {
            return Err(ConfigFault::BadValue);
        };
        if alias.is_held(self.contents.rctl.as_slice()) {
            return Err(ConfigFault::AliasHeld);
        }
        let rctl = Resource::Rctl(alias.rctl(alloc, limit)?);
        match alias.place(self.contents.rctl.as_slice()) {
            Some(place) => self.put_in_place(place, rctl),
            None => self.add_resource(rctl),
        }
    }

    #[tactic(auto, unfolding(crate::specs::Edits::alias_cleared))]
    fn clear_alias(&mut self, alias: Alias) -> Result<(), ConfigFault>
        ensures { ChangesSurely self.old self.new result (alias_cleared alias self.old) }
    {
        if alias.is_held(self.contents.rctl.as_slice()) {
            return Err(ConfigFault::AliasHeld);
        }
        if let Some(place) = alias.place(self.contents.rctl.as_slice()) {
            let _rctl = self.take(Kind::Rctl, place);
        }
        Ok(())
    }

    fn take(&mut self, kind: Kind, place: usize) -> Resource
        requires { place < count_of kind self.old }
        ensures { removed kind place self.old ≡ Some (result, self.new) }
    {
        let resource = self.contents.remove(kind, place);
        self.size -= entry_length(resource.kind(), &resource);
        resource
    }
}
