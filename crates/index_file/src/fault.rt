//! Why a text is no index.
ghost use Rattle.std.specs.Prelude.{◌≡◌};
ghost use Rattle.index_file.specs.declared.fault.IndexFault.TheVariants.{Memory};

use std::alloc::{AllocError, AllocFailed};
use thiserror::Error;

/// Why bytes are no index text. The first wrong line is reported, and of one line that it is no row's line
/// before that its name stands in an earlier one. Lines count from 1.
#[derive(Clone, Copy, Debug, PartialEq, Eq, Error)]
pub enum IndexFault {
    #[error("out of memory")]
    Memory,
    /// The number of a line that no row has.
    #[error("line {0} is no line of an index")]
    IndexLine(usize),
    /// The number of a line with the name of an earlier one.
    #[error("line {0} names a zone again")]
    SameName(usize),
}

impl From<AllocError> for IndexFault {
    ghost from_gives = { λ _ e. e ≡ Memory };

    fn from(_: AllocError) -> Self {
        IndexFault::Memory
    }
}

impl<T: Drop> From<AllocFailed<T>> for IndexFault {
    ghost from_gives = { λ _ e. e ≡ Memory };

    fn from(_: AllocFailed<T>) -> Self {
        IndexFault::Memory
    }
}
