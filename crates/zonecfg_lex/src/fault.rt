//! Why a line has no tokens, or tokens are no value.
ghost use Rattle.std.specs.Prelude.{◌≡◌};
ghost use Rattle.zonecfg_lex.specs.declared.fault.LexFault.TheVariants.{Memory};

use std::alloc::{AllocError, AllocFailed};
use thiserror::Error;

/// Why a line has no tokens, or tokens are no value. Places count from 0.
#[derive(Clone, Copy, Debug, PartialEq, Eq, Error)]
pub enum LexFault {
    #[error("out of memory")]
    Memory,
    /// The place of a quote that no other one ends.
    #[error("the quote at byte {0} has no end")]
    OpenQuote(usize),
    /// The place of a byte that may not stand there.
    #[error("byte {0} may not stand there")]
    StrayByte(usize),
    /// The place of a bracket that is not closed.
    #[error("the bracket at byte {0} is not closed")]
    OpenBracket(usize),
    /// The place of the first token with which no value goes on, or the length of the line where tokens
    /// are missing.
    #[error("no value at byte {0}")]
    NoValue(usize),
}

impl From<AllocError> for LexFault {
    ghost from_gives = { λ _ e. e ≡ Memory };

    fn from(_: AllocError) -> Self {
        LexFault::Memory
    }
}

impl<T: Drop> From<AllocFailed<T>> for LexFault {
    ghost from_gives = { λ _ e. e ≡ Memory };

    fn from(_: AllocFailed<T>) -> Self {
        LexFault::Memory
    }
}

impl LexFault {
    ghost use Rattle.zonecfg_lex.specs.Tokens.{place_of};

    /// Where the fault counts. Running out of memory counts at 0.
    pub fn place(self) -> usize
        ensures { result ≡ place_of self }
    {
        match self {
            LexFault::Memory => 0,
            LexFault::OpenQuote(place)
            | LexFault::StrayByte(place)
            | LexFault::OpenBracket(place)
            | LexFault::NoValue(place) => place,
        }
    }
}
