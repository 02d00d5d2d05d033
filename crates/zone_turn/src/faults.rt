//! Why no turn is made.
use std::fmt::{self, Debug, Display, Formatter, Write};
use thiserror::Error;

/// Why no turn is made. No other call of a turn fails.
#[derive(Clone, Copy, PartialEq, Eq, Error)]
pub enum TurnFault {
    #[error("out of memory")]
    Memory,
}

impl Debug for TurnFault {
    fn fmt<W: Write>(&self, f: &mut Formatter<W>) -> fmt::Result {
        Display::fmt(self, f)
    }
}
