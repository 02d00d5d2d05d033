//! Why a configuration can't be installed.
ghost use Rattle.std.specs.Prelude.{◌≡◌};
ghost use Rattle.config_verify.specs.declared.flaw.Flaw.TheVariants.{Memory};

use config_terms::{Kind, Named};
use std::alloc::AllocError;
use std::fmt::{self, Debug, Formatter, Write};
use thiserror::Error;
use zn_base::{AbsPath, Text};

/// Why a configuration can't be installed.
#[derive(Drop, Error)]
pub enum Flaw {
    #[error("out of memory")]
    Memory,
    #[error("the zone has no zonepath")]
    NoZonepath,
    /// The kind of a resource, and the property that it lacks.
    #[error("a resource lacks a property")]
    MissingProperty(Kind, Named),
    /// The place of a net among the nets, from 0: its addresses don't suit the zone's ip-type, or an earlier
    /// one claims its address or interface.
    #[error("net {0} doesn't suit the zone's ip-type, or an earlier net claims its item")]
    NetForm(u32),
    #[error("a net has something else in the place of an address")]
    BadAddress(Text),
    /// The dir of a file system that is the root, or an earlier one's.
    #[error("a file system is mounted on the root or where an earlier one is")]
    SameDir(AbsPath),
    #[error("the brand is not known")]
    UnknownBrand(Text),
    /// The name of an attribute whose value isn't of its type.
    #[error("the value of an attribute is not of its type")]
    AttrForm(Text),
}

impl From<AllocError> for Flaw {
    ghost from_gives = { λ _ e. e ≡ Memory };

    fn from(_: AllocError) -> Self {
        Flaw::Memory
    }
}

impl Debug for Flaw {
    fn fmt<W: Write>(&self, f: &mut Formatter<W>) -> fmt::Result {
        f.write_str(match self {
            Flaw::Memory => "Memory",
            Flaw::NoZonepath => "NoZonepath",
            Flaw::MissingProperty(_, _) => "MissingProperty",
            Flaw::NetForm(_) => "NetForm",
            Flaw::BadAddress(_) => "BadAddress",
            Flaw::SameDir(_) => "SameDir",
            Flaw::UnknownBrand(_) => "UnknownBrand",
            Flaw::AttrForm(_) => "AttrForm",
        })
    }
}
