//! The properties of a configuration: what each shows, and how it is given a value.
ghost use Rattle.std.specs.Prelude.{◌≡◌, ◌≢◌, ◌≤◌, IsTrue, OnErr, OnOk, length};
ghost use Rattle.config_terms.specs.Rules.{obeys};
ghost use Rattle.zone_config.specs.declared.terms.Property.TheVariants.{Zonepath};
ghost use Rattle.zone_config.specs.Parts.{with_boot, with_controls, with_devices, with_rights};
ghost use Rattle.zone_config.specs.Property.{blank, bool_text, ip_text, ip_type, property_rule, shown, with_value, without_value};

use crate::{Contents, Property};
use config_terms::{IpType, path_kept, path_text};
use std::alloc::{AllocError, Global};
use zn_base::{Listing, Text, TryClone};

fn bool_text(value: bool) -> &'static [u8]
    ensures { result.now ≡ bool_text value }
{
    if value { b"true" } else { b"false" }
}

fn ip_text(value: IpType) -> &'static [u8]
    ensures { result.now ≡ ip_text value }
{
    match value {
        IpType::Shared => b"shared",
        IpType::Exclusive => b"exclusive",
    }
}

fn ip_type(text: &[u8]) -> IpType
    ensures { result ≡ ip_type text.now }
{
    if text == b"exclusive".as_slice() {
        IpType::Exclusive
    } else {
        IpType::Shared
    }
}

impl Contents {
    /// Nothing is set. It takes no memory.
    pub(crate) fn blank(alloc: Global) -> Contents
        ensures { result ≡ blank }
    {
        Contents {
            zonepath: None,
            brand: Text::empty(alloc),
            autoboot: false,
            bootargs: Text::empty(alloc),
            pool: Text::empty(alloc),
            limitpriv: Text::empty(alloc),
            class: Text::empty(alloc),
            ip: IpType::Shared,
            hostid: Text::empty(alloc),
            fs_allowed: Text::empty(alloc),
            fs: Listing::new(alloc),
            net: Listing::new(alloc),
            device: Listing::new(alloc),
            rctl: Listing::new(alloc),
            attr: Listing::new(alloc),
            dataset: Listing::new(alloc),
        }
    }

    /// The text of a property: empty where it is not set.
    pub fn shown(&self, property: Property) -> &[u8]
        ensures text { result.now ≡ shown property self.now }
        ensures short { length result.now ≤ 4200 }
    {
        match property {
            Property::Zonepath => path_text(&self.zonepath),
            Property::Brand => self.brand.bytes(),
            Property::Autoboot => bool_text(self.autoboot),
            Property::Bootargs => self.bootargs.bytes(),
            Property::Pool => self.pool.bytes(),
            Property::Limitpriv => self.limitpriv.bytes(),
            Property::SchedulingClass => self.class.bytes(),
            Property::IpType => ip_text(self.ip),
            Property::Hostid => self.hostid.bytes(),
            Property::FsAllowed => self.fs_allowed.bytes(),
        }
    }

    /// Gives a property a value that its rule allows. After a fault all is as before.
    pub(crate) fn put(
        &mut self,
        alloc: Global,
        property: Property,
        value: Text,
    ) -> Result<(), AllocError>
        requires { IsTrue (obeys (property_rule property) value) }
        ensures ok { OnOk result (self.new ≡ with_value property value self.old) }
        ensures err { OnErr result (self.new ≡ self.old) }
    {
        match property {
            Property::Zonepath => self.zonepath = path_kept(alloc, value.bytes())?,
            _ => self.put_text(property, value),
        }
        Ok(())
    }

    // Gives any other property than zonepath a value.
    fn put_text(&mut self, property: Property, value: Text)
        requires { property ≢ Zonepath }
        ensures { self.new ≡ with_value property value self.old }
    {
        match property {
            Property::Zonepath => unreachable!(),
            Property::Brand => self.brand = value,
            Property::Autoboot => self.autoboot = value.bytes() == b"true".as_slice(),
            Property::Bootargs => self.bootargs = value,
            Property::Pool => self.pool = value,
            Property::Limitpriv => self.limitpriv = value,
            Property::SchedulingClass => self.class = value,
            Property::IpType => self.ip = ip_type(value.bytes()),
            Property::Hostid => self.hostid = value,
            Property::FsAllowed => self.fs_allowed = value,
        }
    }

    /// Makes a property as it is in a blank configuration. It takes no memory.
    pub(crate) fn unset(&mut self, alloc: Global, property: Property)
        ensures { self.new ≡ without_value property self.old }
    {
        match property {
            Property::Zonepath => self.zonepath = None,
            Property::Brand => self.brand = Text::empty(alloc),
            Property::Autoboot => self.autoboot = false,
            Property::Bootargs => self.bootargs = Text::empty(alloc),
            Property::Pool => self.pool = Text::empty(alloc),
            Property::Limitpriv => self.limitpriv = Text::empty(alloc),
            Property::SchedulingClass => self.class = Text::empty(alloc),
            Property::IpType => self.ip = IpType::Shared,
            Property::Hostid => self.hostid = Text::empty(alloc),
            Property::FsAllowed => self.fs_allowed = Text::empty(alloc),
        }
    }
}

// A copy takes one part after another, each by a function of its own: what owns no part of it has none to let go
// where memory runs out.
impl Contents {
    fn copy_boot(&mut self, alloc: Global, other: &Contents) -> Result<(), AllocError>
        ensures { OnOk result (self.new ≡ with_boot other.now self.old) }
    {
        self.zonepath = other.zonepath.try_clone(alloc)?;
        self.brand = other.brand.copy(alloc)?;
        self.autoboot = other.autoboot;
        self.bootargs = other.bootargs.copy(alloc)?;
        self.pool = other.pool.copy(alloc)?;
        Ok(())
    }

    fn copy_rights(&mut self, alloc: Global, other: &Contents) -> Result<(), AllocError>
        ensures { OnOk result (self.new ≡ with_rights other.now self.old) }
    {
        self.limitpriv = other.limitpriv.copy(alloc)?;
        self.class = other.class.copy(alloc)?;
        self.ip = other.ip;
        self.hostid = other.hostid.copy(alloc)?;
        self.fs_allowed = other.fs_allowed.copy(alloc)?;
        Ok(())
    }

    fn copy_devices(&mut self, alloc: Global, other: &Contents) -> Result<(), AllocError>
        ensures { OnOk result (self.new ≡ with_devices other.now self.old) }
    {
        self.fs = other.fs.try_clone(alloc)?;
        self.net = other.net.try_clone(alloc)?;
        self.device = other.device.try_clone(alloc)?;
        Ok(())
    }

    fn copy_controls(&mut self, alloc: Global, other: &Contents) -> Result<(), AllocError>
        ensures { OnOk result (self.new ≡ with_controls other.now self.old) }
    {
        self.rctl = other.rctl.try_clone(alloc)?;
        self.attr = other.attr.try_clone(alloc)?;
        self.dataset = other.dataset.try_clone(alloc)?;
        Ok(())
    }
}

impl TryClone for Contents {
    fn try_clone(&self, alloc: Global) -> Result<Self, AllocError> {
        let mut copy = Contents::blank(alloc);
        copy.copy_boot(alloc, self)?;
        copy.copy_rights(alloc, self)?;
        copy.copy_devices(alloc, self)?;
        copy.copy_controls(alloc, self)?;
        Ok(copy)
    }
}
