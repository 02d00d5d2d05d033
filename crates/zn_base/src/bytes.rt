//! Bytes of any length and value.
ghost use Rattle.std.specs.Prelude.{◌≡◌, IfOk};

use crate::TryClone;
use std::alloc::{AllocError, Global};
use std::marker::Model;

/// A list of bytes, with no bound of its own. Contracts see the list.
#[derive(Drop)]
pub struct Bytes {
    bytes: Vec<u8>,
}

impl Model for Bytes {
    ghost use Rattle.std.specs.Prelude.{List, ℕ};

    ghost Value = { List ℕ };

    ghost view = { λ b. b.bytes.items };
}

impl Bytes {
    /// The bytes of a vector. It takes no memory.
    pub fn from_vec(bytes: Vec<u8>) -> Bytes
        ensures { result ≡ bytes.items }
    {
        Bytes { bytes }
    }

    /// A copy of some bytes.
    pub fn from_slice(alloc: Global, bytes: &[u8]) -> Result<Bytes, AllocError>
        ensures { IfOk result (λ copy. copy ≡ bytes.now) }
    {
        Ok(Bytes {
            bytes: Vec::from_slice(alloc, bytes)?,
        })
    }

    /// The bytes.
    pub fn as_slice(&self) -> &[u8]
        ensures { result.now ≡ self.now }
    {
        &self.bytes
    }
}

impl TryClone for Bytes {
    fn try_clone(&self, alloc: Global) -> Result<Self, AllocError> {
        Bytes::from_slice(alloc, self.as_slice())
    }
}
