//! What is refused, by intro(2), and why a call that takes memory does nothing.
ghost use Rattle.std.specs.Prelude.{◌≡◌};
ghost use Rattle.kernel_objects.specs.declared.faults.KernelFault.TheVariants.{Memory, Refused};

use std::alloc::AllocError;
use thiserror::Error;

/// An error number of intro(2).
#[derive(Clone, Copy, Debug, PartialEq, Eq)]
pub enum Errno {
    /// There is no such process.
    ESRCH,
    /// The process may not.
    EPERM,
    /// There may be no more processes.
    EAGAIN,
    EINVAL,
    ENOENT,
    /// The file system is read-only.
    EROFS,
    EBUSY,
    ENAMETOOLONG,
}

/// Why a call does nothing.
#[derive(Clone, Copy, Debug, PartialEq, Eq, Error)]
pub enum KernelFault {
    #[error("out of memory")]
    Memory,
    #[error("{0:?}")]
    Refused(Errno),
    /// The device is declared already.
    #[error("declared already")]
    Duplicate,
    /// So many devices are declared, and there may be no more.
    #[error("no more than {0} devices are declared")]
    TooMany(usize),
}

impl From<AllocError> for KernelFault {
    ghost from_gives = { λ _ e. e ≡ Memory };

    fn from(_: AllocError) -> Self {
        KernelFault::Memory
    }
}

impl From<Errno> for KernelFault {
    ghost from_gives = { λ errno e. e ≡ Refused errno };

    fn from(errno: Errno) -> Self {
        KernelFault::Refused(errno)
    }
}
