//! What a configuration consists of.
ghost use Rattle.std.specs.Prelude.{◌≡◌, IfOk};

use crate::kinds::each_kind;
use std::alloc::{AllocError, Global};
use zn_base::{AbsPath, Listing, Text, TryClone};

/// How a zone reaches its network (zones(7), ip-type).
#[derive(Clone, Copy, PartialEq, Eq)]
pub enum IpType {
    Shared,
    Exclusive,
}

/// The types of resources (zonecfg(8), RESOURCES), in the order in which an export text has them.
#[derive(Clone, Copy, Debug, PartialEq, Eq)]
pub enum Kind {
    Fs,
    Net,
    Device,
    Rctl,
    Attr,
    Dataset,
}

/// A file system that is mounted in the zone. A text that is empty is a property that is not set, here
/// and in every other resource.
#[derive(PartialEq, Eq)]
pub struct Fs {
    pub dir: Option<AbsPath>,
    pub special: Text,
    pub raw: Text,
    /// The property `type`.
    pub fstype: Text,
    pub options: Listing<Text>,
}

/// A network interface of the zone.
#[derive(PartialEq, Eq)]
pub struct Net {
    pub address: Text,
    /// The property `allowed-address`.
    pub allowed: Text,
    pub physical: Text,
    pub defrouter: Text,
}

/// One value of a resource control (resource_controls(7)): `(priv=privileged,limit=N,action=A)`.
#[derive(Clone, Copy, PartialEq, Eq)]
pub struct Limit {
    pub limit: u64,
    /// The action: `deny`, and else `none`.
    pub deny: bool,
}

/// A resource control of the zone.
#[derive(PartialEq, Eq)]
pub struct Rctl {
    pub name: Text,
    pub values: Listing<Limit>,
}

/// A generic attribute of the zone.
#[derive(PartialEq, Eq)]
pub struct Attr {
    pub name: Text,
    /// The property `type`.
    pub form: Text,
    pub value: Text,
}

/// A resource: of a device its match, of a dataset its name.
#[derive(Drop)]
pub enum Resource {
    Fs(Fs),
    Net(Net),
    Device(Text),
    Rctl(Rctl),
    Attr(Attr),
    Dataset(Text),
}

impl TryClone for Limit {
    fn try_clone(&self, _: Global) -> Result<Self, AllocError> {
        Ok(*self)
    }
}

impl TryClone for Fs {
    fn try_clone(&self, alloc: Global) -> Result<Self, AllocError> {
        Ok(Fs {
            special: self.special.copy(alloc)?,
            raw: self.raw.copy(alloc)?,
            fstype: self.fstype.copy(alloc)?,
            dir: self.dir.try_clone(alloc)?,
            options: self.options.try_clone(alloc)?,
        })
    }
}

impl TryClone for Net {
    fn try_clone(&self, alloc: Global) -> Result<Self, AllocError> {
        Ok(Net {
            address: self.address.copy(alloc)?,
            allowed: self.allowed.copy(alloc)?,
            physical: self.physical.copy(alloc)?,
            defrouter: self.defrouter.copy(alloc)?,
        })
    }
}

impl TryClone for Rctl {
    fn try_clone(&self, alloc: Global) -> Result<Self, AllocError> {
        Ok(Rctl {
            name: self.name.copy(alloc)?,
            values: self.values.try_clone(alloc)?,
        })
    }
}

impl TryClone for Attr {
    fn try_clone(&self, alloc: Global) -> Result<Self, AllocError> {
        Ok(Attr {
            name: self.name.copy(alloc)?,
            form: self.form.copy(alloc)?,
            value: self.value.copy(alloc)?,
        })
    }
}

macro_rules! clone_arms {
    (($resource:expr, $alloc:expr), $($name:ident $type:ident $put:ident),*) => {
        match $resource {
            $(Resource::$name(entry) => entry.try_clone($alloc).map(Resource::$name),)*
        }
    };
}

impl TryClone for Resource {
    fn try_clone(&self, alloc: Global) -> Result<Self, AllocError> {
        each_kind!(clone_arms, (self, alloc))
    }
}

// What resources consist of goes in one step each, so that a function that holds one has one step for it at each of
// its exits, and not one a field: its proof is as short.
impl Drop for Fs {
    fn drop(self) {
        let Fs {
            dir: _,
            special: _,
            raw: _,
            fstype: _,
            options: _,
        } = self;
    }
}

impl Drop for Net {
    fn drop(self) {
        let Net {
            address: _,
            allowed: _,
            physical: _,
            defrouter: _,
        } = self;
    }
}

impl Drop for Rctl {
    fn drop(self) {
        let Rctl { name: _, values: _ } = self;
    }
}

impl Drop for Attr {
    fn drop(self) {
        let Attr {
            name: _,
            form: _,
            value: _,
        } = self;
    }
}
