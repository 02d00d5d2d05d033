//! What is refused, by mount(2) and umount(2).
ghost use Rattle.std.specs.Prelude.{◌≡◌};
ghost use Rattle.loopback_mounts.specs.declared.faults.MountFault.TheVariants.{Memory, Refused};

use kernel_objects::Errno;
use std::alloc::AllocError;
use thiserror::Error;

/// Why a call about mounts does nothing.
#[derive(Clone, Copy, Debug, PartialEq, Eq, Error)]
pub enum MountFault {
    #[error("out of memory")]
    Memory,
    #[error("{0:?}")]
    Refused(Errno),
    /// The zone has as many mounts as it may have.
    #[error("a zone has no more than 128 mounts")]
    TooManyMounts,
}

impl From<AllocError> for MountFault {
    ghost from_gives = { λ _ e. e ≡ Memory };

    fn from(_: AllocError) -> Self {
        MountFault::Memory
    }
}

impl From<Errno> for MountFault {
    ghost from_gives = { λ errno e. e ≡ Refused errno };

    fn from(errno: Errno) -> Self {
        MountFault::Refused(errno)
    }
}

/// Why a hold is not taken or not given up.
#[derive(Clone, Copy, Debug, PartialEq, Eq, Error)]
pub enum HoldFault {
    #[error("there is no such mount")]
    NoMount,
    /// It is held already, or it is not held.
    #[error("the mount is held already, or is not held")]
    HoldState,
}
