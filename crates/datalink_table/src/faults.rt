//! Why a call does nothing.
ghost use Rattle.std.specs.Prelude.{◌≡◌};
ghost use Rattle.datalink_table.specs.declared.faults.ClaimFault.TheVariants.{Memory};

use std::alloc::AllocError;
use std::fmt::{self, Debug, Display, Formatter, Write};
use thiserror::Error;
use zone_pools::Pool;

/// Why a call does nothing.
#[derive(Clone, Copy, PartialEq, Eq, Error)]
pub enum ClaimFault {
    #[error("out of memory")]
    Memory,
    /// The item isn't declared, or another zone holds it. The pool is that of the item's kind.
    #[error("not declared, or held by another zone")]
    Denied(Pool),
    /// The item is declared already.
    #[error("declared already")]
    Duplicate,
    /// So many items of the kind are declared, and there may be no more.
    #[error("no more than {0} items of a kind are declared")]
    TooMany(usize),
}

impl From<AllocError> for ClaimFault {
    ghost from_gives = { λ _ e. e ≡ Memory };

    fn from(_: AllocError) -> Self {
        ClaimFault::Memory
    }
}

impl Debug for ClaimFault {
    fn fmt<W: Write>(&self, f: &mut Formatter<W>) -> fmt::Result {
        Display::fmt(self, f)
    }
}
