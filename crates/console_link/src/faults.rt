//! Why a call does nothing.
ghost use Rattle.std.specs.Prelude.{◌≡◌};
ghost use Rattle.console_link.specs.declared.faults.ConsoleFault.TheVariants.{Memory};

use std::alloc::AllocError;
use thiserror::Error;

/// Why a call does nothing.
#[derive(Clone, Copy, Debug, PartialEq, Eq, Error)]
pub enum ConsoleFault {
    #[error("out of memory")]
    Memory,
    /// A session is attached to the console.
    #[error("another session has the console")]
    Taken,
}

impl From<AllocError> for ConsoleFault {
    ghost from_gives = { λ _ e. e ≡ Memory };

    fn from(_: AllocError) -> Self {
        ConsoleFault::Memory
    }
}
