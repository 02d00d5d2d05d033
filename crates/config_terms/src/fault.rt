//! Why a call has not changed a configuration, or has found nothing in it.
ghost use Rattle.std.specs.Prelude.{◌≡◌};
ghost use Rattle.config_terms.specs.declared.fault.ConfigFault.TheVariants.{Memory};

use std::alloc::{AllocError, AllocFailed};
use thiserror::Error;

/// Why a call has not changed a configuration, has found no resource or has read no export text. Of
/// several causes the first is answered in the order 22, 23, 28, 24, 27, 29.
#[derive(Clone, Copy, Debug, PartialEq, Eq, Error)]
pub enum ConfigFault {
    #[error("out of memory")]
    Memory,
    /// 21: one more than the greatest number of leading lines that begin some export text.
    #[error("line {0} belongs to no export text")]
    NotExport(usize),
    /// 22
    #[error("no property has this name")]
    UnknownProperty,
    /// 23
    #[error("the property does not allow this value")]
    BadValue,
    /// 24: the rctl, attr or dataset has the name of another one, or the device its match.
    #[error("another resource has this name")]
    Duplicate,
    /// 25
    #[error("nothing matches")]
    NoMatch,
    /// 26: how many match.
    #[error("{0} resources match")]
    SeveralMatch(usize),
    /// 27: how many there may be: 256 resources, 100 fs, or 32 options of one fs.
    #[error("there may be at most {0}")]
    TooMany(usize),
    /// 28: the rctl of an alias has another form than the alias gives.
    #[error("the rctl of this alias has another form")]
    AliasHeld,
    /// 29: how many bytes the export text would have.
    #[error("the export text would have {0} bytes")]
    TooLarge(usize),
}

impl From<AllocError> for ConfigFault {
    ghost from_gives = { λ _ e. e ≡ Memory };

    fn from(_: AllocError) -> Self {
        ConfigFault::Memory
    }
}

impl<T: Drop> From<AllocFailed<T>> for ConfigFault {
    ghost from_gives = { λ _ e. e ≡ Memory };

    fn from(_: AllocFailed<T>) -> Self {
        ConfigFault::Memory
    }
}
