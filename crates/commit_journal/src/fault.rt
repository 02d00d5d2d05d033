//! Why a store can't be opened or changed.
use std::alloc::{AllocError, AllocFailed};
use thiserror::Error;
use zone_disk::BankFault;

/// Why a store can't be opened or changed.
#[derive(Clone, Copy, Debug, PartialEq, Eq, Error)]
pub enum StoreFault {
    #[error("out of memory")]
    Memory,
    /// The first offset whose byte is wrong, or the disk's length where it is too short.
    #[error("not a store: wrong at {0}")]
    NotAStore(u64),
    /// The offset of an open gate with no whole record after it.
    #[error("bad record at {0}")]
    BadRecord(u64),
    #[error("the disk has failed")]
    DiskFault,
    #[error("the bank is full")]
    BankFull,
    /// The number, from 1, of the first record that is out of form, removes a zone that isn't stored, or
    /// stores a 257th.
    #[error("record {0} is out of form")]
    RecordForm(u32),
}

impl From<AllocError> for StoreFault {
    ghost use Rattle.std.specs.Prelude.{◌≡◌};
    ghost use Rattle.commit_journal.specs.declared.fault.StoreFault.TheVariants.{Memory};

    ghost from_gives = { λ _ e. e ≡ Memory };

    fn from(_: AllocError) -> Self {
        StoreFault::Memory
    }
}

impl<T: Drop> From<AllocFailed<T>> for StoreFault {
    ghost use Rattle.std.specs.Prelude.{◌≡◌};
    ghost use Rattle.commit_journal.specs.declared.fault.StoreFault.TheVariants.{Memory};

    ghost from_gives = { λ _ e. e ≡ Memory };

    fn from(_: AllocFailed<T>) -> Self {
        StoreFault::Memory
    }
}

impl From<BankFault> for StoreFault {
    ghost use Rattle.std.specs.Prelude.{◌≡◌};
    ghost use Rattle.commit_journal.specs.Faults.{of_bank};

    ghost from_gives = { λ fault e. e ≡ of_bank fault };

    fn from(fault: BankFault) -> Self {
        match fault {
            BankFault::Memory => StoreFault::Memory,
            BankFault::NotAStore(place) => StoreFault::NotAStore(place),
            BankFault::BadRecord(place) => StoreFault::BadRecord(place),
            BankFault::DiskFault => StoreFault::DiskFault,
            BankFault::BankFull => StoreFault::BankFull,
        }
    }
}
