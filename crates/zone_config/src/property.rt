//! The names of the global scope, and what each stands for.
ghost use Rattle.std.specs.Prelude.{◌≡◌, ◌≤◌, length};
ghost use Rattle.zone_config.specs.Property.{alias_name, denies, property_name, property_rule, rctl_name, setting_name, setting_named, unset_text};

use crate::{Alias, Property, Setting};
use config_terms::Rule;

/// All kept properties of the global scope, in the order in which they are shown and printed (zonecfg(8),
/// PROPERTIES).
pub const PROPERTIES: [Property; 10] = [
    Property::Zonepath,
    Property::Brand,
    Property::Autoboot,
    Property::Bootargs,
    Property::Pool,
    Property::Limitpriv,
    Property::SchedulingClass,
    Property::IpType,
    Property::Hostid,
    Property::FsAllowed,
];

const ALIASES: [Alias; 3] = [Alias::CpuShares, Alias::MaxLwps, Alias::MaxProcesses];

impl Property {
    /// The property's name.
    pub fn name(self) -> &'static [u8]
        ensures name { result.now ≡ property_name self }
        ensures short { length result.now ≤ 16 }
    {
        match self {
            Property::Zonepath => b"zonepath",
            Property::Brand => b"brand",
            Property::Autoboot => b"autoboot",
            Property::Bootargs => b"bootargs",
            Property::Pool => b"pool",
            Property::Limitpriv => b"limitpriv",
            Property::SchedulingClass => b"scheduling-class",
            Property::IpType => b"ip-type",
            Property::Hostid => b"hostid",
            Property::FsAllowed => b"fs-allowed",
        }
    }

    /// What a value of the property may be.
    pub(crate) fn rule(self) -> Rule
        ensures { result ≡ property_rule self }
    {
        match self {
            Property::Zonepath => Rule::OwnPath,
            Property::Brand | Property::Pool | Property::SchedulingClass => Rule::ShortName,
            Property::Autoboot => Rule::Flag,
            Property::Bootargs | Property::Limitpriv | Property::FsAllowed => Rule::Simple,
            Property::IpType => Rule::IpWay,
            Property::Hostid => Rule::HostId,
        }
    }

    /// What the property shows while it is not set.
    pub(crate) fn unset_text(self) -> &'static [u8]
        ensures text { result.now ≡ unset_text self }
        ensures short { length result.now ≤ 16 }
    {
        match self {
            Property::Autoboot => b"false",
            Property::IpType => b"shared",
            _ => b"",
        }
    }
}

impl Alias {
    // The name under which the limit is set.
    fn name(self) -> &'static [u8]
        ensures { result.now ≡ alias_name self }
    {
        match self {
            Alias::CpuShares => b"cpu-shares",
            Alias::MaxLwps => b"max-lwps",
            Alias::MaxProcesses => b"max-processes",
        }
    }

    /// The name of the rctl that the alias is kept as.
    pub fn rctl_name(self) -> &'static [u8]
        ensures { result.now ≡ rctl_name self }
    {
        match self {
            Alias::CpuShares => b"zone.cpu-shares",
            Alias::MaxLwps => b"zone.max-lwps",
            Alias::MaxProcesses => b"zone.max-processes",
        }
    }

    /// Whether what goes past the limit is denied.
    pub(crate) fn denies(self) -> bool
        ensures { result ≡ denies self }
    {
        !matches!(self, Alias::CpuShares)
    }
}

impl Setting {
    fn name(self) -> &'static [u8]
        ensures { result.now ≡ setting_name self }
    {
        match self {
            Setting::Kept(property) => property.name(),
            Setting::Aliased(alias) => alias.name(),
        }
    }

    /// What a name of the global scope stands for.
    #[tactic(auto, unfolding(crate::specs::Property::setting_named))]
    pub fn named(name: &[u8]) -> Option<Setting>
        ensures { result ≡ setting_named name.now }
    {
        PROPERTIES
            .iter()
            .copied()
            .map(Setting::Kept)
            .chain(ALIASES.iter().copied().map(Setting::Aliased))
            .find(|setting| setting.name() == name)
    }
}
