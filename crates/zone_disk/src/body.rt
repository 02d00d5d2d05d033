//! Bodies, kept as they stand on the disk.
ghost use Rattle.std.specs.Prelude.{◌≡◌, ◌<◌, ◌^◌, ◌++◌, ◌-◌, IfOk, drop, length};
ghost use Rattle.zone_disk.specs.Bank.{framed};
ghost use Rattle.zone_disk.specs.Image.{four};

use std::alloc::{AllocError, Global};
use std::marker::Model;

/// A list of bytes. Contracts see the list.
#[derive(Drop)]
pub struct Body {
    bytes: Vec<u8>,
}

impl Model for Body {
    ghost use Rattle.std.specs.Prelude.{◌≡◌, List, ℕ};
    ghost use Rattle.zone_disk.specs.Bank.{body_in, framed};

    ghost Value = { List ℕ };

    ghost view = { λ b. body_in b.bytes.items };

    ghost invariant = { λ b. b.bytes.items ≡ framed (body_in b.bytes.items) };
}

// A length as four bytes, the most significant first.
fn four(length: usize) -> [u8; 4]
    requires { length < 2 ^ 32 }
    ensures { result ≡ four length }
{
    [
        (length / 256 / 256 / 256) as u8,
        (length / 256 / 256 % 256) as u8,
        (length / 256 % 256) as u8,
        (length % 256) as u8,
    ]
}

impl Body {
    /// The bytes.
    pub fn bytes(&self) -> &[u8]
        ensures { result.now ≡ self.now }
    {
        &self.bytes[4..self.bytes.len() - 1]
    }

    /// The length, the bytes and a closed gate.
    pub(crate) fn framed(&self) -> &[u8]
        ensures { result.now ≡ framed self.now }
    {
        &self.bytes
    }

    /// Begins a body of so many bytes, which are to be put behind what stands in the buffer. There is room for them and for what ends it.
    pub fn begun(alloc: Global, length: usize) -> Result<Vec<u8>, AllocError>
        requires { length < 2 ^ 32 }
        ensures { IfOk result (λ bytes. bytes.items ≡ four length) }
    {
        let mut bytes = Vec::with_capacity(alloc, length + 5)?;
        bytes.extend_from_slice(&four(length))?;
        Ok(bytes)
    }

    /// The body that was begun in a buffer, all of whose bytes have been put there.
    pub fn ended(bytes: Vec<u8>) -> Result<Body, AllocError>
        requires { bytes.items ≡ four (length bytes.items - 4) ++ drop 4 bytes.items }
        ensures { IfOk result (λ body. body ≡ drop 4 bytes.items) }
    {
        let mut bytes = bytes;
        bytes.push(0)?;
        Ok(Body { bytes })
    }

    /// The body of these bytes.
    pub fn of(alloc: Global, bytes: &[u8]) -> Result<Body, AllocError>
        requires { length bytes.now < 2 ^ 32 }
        ensures { IfOk result (λ body. body ≡ bytes.now) }
    {
        let mut framed = Body::begun(alloc, bytes.len())?;
        framed.extend_from_slice(bytes)?;
        Body::ended(framed)
    }
}
