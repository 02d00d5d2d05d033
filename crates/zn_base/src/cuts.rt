//! Bytes that are cut at a byte of a value, or at each newline.
ghost use Rattle.std.specs.Prelude.{◌≡◌, ◌<◌, ◌+◌, ◌==◌, IfOk, IfSome, drop, length, position, option_copied, take};
ghost use Rattle.zn_base.specs.Cuts.{after_byte, before_byte};
ghost use Rattle.zn_base.specs.Lines.{lines_of};

use crate::{Bytes, Listing};
use std::alloc::{AllocError, Global};

/// The place of the first byte of a value.
pub fn place_of_byte(bytes: &[u8], byte: u8) -> Option<usize>
    ensures place { result ≡ position (λ b. b == byte) bytes.now }
    ensures inside { IfSome result (λ at. at < length bytes.now) }
{
    bytes.iter().position(|other| *other == byte)
}

/// What stands before the first byte of a value, and what stands after it. Where there is none, all stands
/// before it.
pub fn split_at_byte(bytes: &[u8], byte: u8) -> (&[u8], Option<&[u8]>)
    ensures before { result.0.now ≡ before_byte byte bytes.now }
    ensures after { option_copied result.1 ≡ after_byte byte bytes.now }
{
    match place_of_byte(bytes, byte) {
        None => (bytes, None),
        Some(at) => (front(bytes, at), Some(tail(bytes, at))),
    }
}

fn front(bytes: &[u8], at: usize) -> &[u8]
    requires { at < length bytes.now }
    ensures { result.now ≡ take at bytes.now }
{
    &bytes[..at]
}

fn tail(bytes: &[u8], at: usize) -> &[u8]
    requires { at < length bytes.now }
    ensures { result.now ≡ drop (at + 1) bytes.now }
{
    &bytes[at + 1..]
}

/// The lines of a text, each without its newline. The last newline may be missing.
pub fn lines(alloc: Global, text: &[u8]) -> Result<Listing<Bytes>, AllocError>
    ensures { IfOk result (λ lines. lines ≡ lines_of text.now) }
{
    let mut lines = Listing::new(alloc);
    let mut rest = text;
    while let Some(at) = place_of_byte(rest, b'\n') {
        lines.push(Bytes::from_slice(alloc, front(rest, at))?)?;
        rest = tail(rest, at);
    }
    if !rest.is_empty() {
        lines.push(Bytes::from_slice(alloc, rest)?)?;
    }
    Ok(lines)
}
