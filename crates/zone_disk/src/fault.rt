//! Why a bank can't be opened or appended to.
ghost use Rattle.std.specs.Prelude.{◌≡◌};
ghost use Rattle.zone_disk.specs.declared.fault.BankFault.TheVariants.{Memory, DiskFault};

use std::alloc::{AllocError, AllocFailed};
use thiserror::Error;
use zn_io::Failed;

/// Why a bank can't be opened or appended to.
#[derive(Clone, Copy, Debug, PartialEq, Eq, Error)]
pub enum BankFault {
    #[error("out of memory")]
    Memory,
    /// The first offset whose byte is wrong, or the disk's length where it is too short.
    #[error("not a store: wrong at {0}")]
    NotAStore(u64),
    /// The offset of an open gate with no whole record after it.
    #[error("bad record at {0}")]
    BadRecord(u64),
    #[error("the disk has failed")]
    DiskFault,
    #[error("the bank is full")]
    BankFull,
}

impl From<AllocError> for BankFault {
    ghost from_gives = { λ _ e. e ≡ Memory };

    fn from(_: AllocError) -> Self {
        BankFault::Memory
    }
}

impl<T: Drop> From<AllocFailed<T>> for BankFault {
    ghost from_gives = { λ _ e. e ≡ Memory };

    fn from(_: AllocFailed<T>) -> Self {
        BankFault::Memory
    }
}

impl From<Failed> for BankFault {
    ghost from_gives = { λ _ e. e ≡ DiskFault };

    fn from(_: Failed) -> Self {
        BankFault::DiskFault
    }
}
