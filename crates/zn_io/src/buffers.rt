//! Bytes put at offsets, in vectors that take no memory for it or say so.
ghost use Rattle.std.specs.Prelude.{◌≡◌, ◌+◌, ◌-◌, ◌<◌, ◌≤◌, ◌^◌, ◌++◌, [], ◌∷◌, All, IsOk, length, min, take, drop, IfOk, OnOk, replicate, vec_capacity};
ghost use Rattle.zn_io.specs.Disk.{patched};
ghost use Rattle.zn_io.specs.MemoryDisk.{filled};

use crate::room::Extent;
use std::alloc::{AllocError, Global};

// Some bytes, with capacity for more.
pub fn roomy(alloc: Global, bytes: &[u8], most: usize) -> Result<Vec<u8>, AllocError>
    requires { length bytes.now ≤ most }
    ensures items { IfOk result (λ v. v.items ≡ bytes.now) }
    ensures capacity { IfOk result (λ v. most ≤ vec_capacity v) }
{
    let mut copy = Vec::with_capacity(alloc, most)?;
    copy.extend_from_slice(bytes)?;
    Ok(copy)
}

// A push that takes no memory.
pub fn push<T: Drop>(list: &mut Vec<T>, item: T)
    requires { length list.old.items < vec_capacity list.old }
    ensures items { list.new.items ≡ list.old.items ++ item ∷ [] }
    ensures capacity { vec_capacity list.old ≤ vec_capacity list.new }
{
    list.push(item).unwrap();
}

// Appends without taking memory.
pub fn extend(list: &mut Vec<u8>, bytes: &[u8])
    requires { length list.old.items + length bytes.now ≤ vec_capacity list.old }
    ensures items { list.new.items ≡ list.old.items ++ bytes.now }
    ensures capacity { vec_capacity list.old ≤ vec_capacity list.new }
{
    list.extend_from_slice(bytes).unwrap();
}

// Lengthens to an end, with zeros.
fn stretch(disk: &mut Vec<u8>, end: usize) -> Result<(), AllocError>
    ensures items { OnOk result (disk.new.items ≡ disk.old.items ++ replicate (end - length disk.old.items) 0) }
    ensures succeeds { end ≤ vec_capacity disk.old → length disk.old.items ≤ vec_capacity disk.old → IsOk result }
    ensures capacity { vec_capacity disk.old ≤ vec_capacity disk.new }
{
    let most = disk.len().max(end);
    disk.resize(most, 0)
}

fn overwrite(disk: &mut [u8], at: usize, bytes: &[u8])
    requires { at + length bytes.now ≤ length disk.old }
    ensures { disk.new ≡ take at disk.old ++ bytes.now ++ drop (at + length bytes.now) disk.old }
{
    disk[at..at + bytes.len()].copy_from_slice(bytes);
}

fn overfill(disk: &mut [u8], at: usize, size: usize, byte: u8)
    requires { at + size ≤ length disk.old }
    ensures { disk.new ≡ take at disk.old ++ replicate size byte ++ drop (at + size) disk.old }
{
    disk[at..at + size].fill(byte);
}

// Puts bytes at an offset, after zeros where there is a gap.
pub fn put(disk: &mut Vec<u8>, at: usize, bytes: &[u8])
    requires { at + length bytes.now ≤ vec_capacity disk.old }
    ensures bytes { disk.new.items ≡ patched disk.old.items at bytes.now }
    ensures capacity { vec_capacity disk.old ≤ vec_capacity disk.new }
{
    stretch(disk, at + bytes.len()).unwrap();
    overwrite(disk, at, bytes);
}

// Puts a byte throughout a range, after zeros where there is a gap.
fn fill(disk: &mut Vec<u8>, range: Extent, byte: u8) -> Result<(), AllocError>
    requires { range.at + range.size < 2 ^ 64 }
    ensures { OnOk result (disk.new.items ≡ patched disk.old.items range.at (replicate range.size byte)) }
{
    let (at, size) = (range.at as usize, range.size as usize);
    stretch(disk, at + size)?;
    overfill(disk, at, size, byte);
    Ok(())
}

// An image with a byte in all of some ranges.
pub fn fill_all(
    alloc: Global,
    kept: &[u8],
    ranges: &[Extent],
    byte: u8,
) -> Result<Vec<u8>, AllocError>
    requires { All (λ r. r.at + r.size < 2 ^ 64) ranges.now }
    ensures { IfOk result (λ image. image.items ≡ filled byte kept.now ranges.now) }
{
    let mut image = Vec::from_slice(alloc, kept)?;
    for range in ranges {
        fill(&mut image, *range, byte)?;
    }
    Ok(image)
}

// Fills the front of `into` with the bytes from an offset on, and says with how many.
pub fn copy_from(bytes: &[u8], at: usize, into: &mut [u8]) -> usize
    ensures count { result ≡ min (length into.old) (length bytes.now - at) }
    ensures bytes { take result into.new ≡ take result (drop at bytes.now) }
{
    let rest = &bytes[at.min(bytes.len())..];
    let count = rest.len().min(into.len());
    into[..count].copy_from_slice(&rest[..count]);
    count
}
