//! Reading what stands on a disk, in large pieces, of which the one with the closed gate is the last.
ghost use Rattle.std.specs.Prelude.{◌≡◌, ◌≢◌, ◌⊎◌, ◌↔◌, ◌+◌, ◌-◌, ◌≤◌, ◌<◌, ◌^◌, ◌++◌, [], ◌∷◌, List, ℕ, length, min, take, drop, get_or, true, false, IfOk, IfErr, OnOk, OnErr, IsErrOf, IsTrue, MatchOption};
ghost use Rattle.zn_io.specs.Disk.{View, OnlyLooks};
ghost use Rattle.zn_io.specs.Streams.{Rose};
ghost use Rattle.zone_disk.specs.Image.{four, blocks, used_by, is_right, IsFormatted, IsCut};
ghost use Rattle.zone_disk.specs.Read.{IsFrontOf, HasHeaderOf, HasRecords, IsCutAt, Explains};

use crate::header::first_wrong;
use crate::{BANK_BYTES, BankFault, Body};
use std::alloc::{AllocError, Global};
use zn_io::{Disk, Failed};

// The sixteen bytes of the header, and the bank.
const END: usize = 16 + BANK_BYTES;

// How much is read at once.
const PIECE: usize = 65_536;

/// The bodies that stand on a disk, and how much of the bank they use.
#[derive(Drop)]
pub struct Records {
    pub bodies: Vec<Body>,
    pub used: usize,
}

fn from_place(bytes: &[u8], place: usize) -> &[u8]
    requires { place ≤ length bytes.now }
    ensures { result.now ≡ drop place bytes.now }
{
    &bytes[place..]
}

// Appends the next piece of the disk, and says whether there was more of it.
fn read_piece<D: Disk>(
    disk: &mut D,
    bytes: &mut Vec<u8>,
    piece: &mut [u8],
) -> Result<bool, BankFault>
    requires { length bytes.old.items ≤ END }
    ensures within { length bytes.new.items ≤ END }
    ensures kept { take (length bytes.old.items) bytes.new.items ≡ bytes.old.items }
    ensures more { IfOk result (λ more. IsTrue more ↔ length bytes.old.items < length bytes.new.items) }
    ensures bytes { (D.view disk.old).Keeps → IsFrontOf (D.view disk.old).reads bytes.old.items → OnOk result (bytes.new.items ≡ take (min END (length bytes.old.items + length piece.old)) (D.view disk.old).reads) }
    ensures looks { OnlyLooks (D.view disk.old) (D.view disk.new) }
    ensures cause { IsErrOf result BankFault.DiskFault → Rose (D.view disk.old).faults (D.view disk.new).faults }
    ensures only { IfErr result (λ e. (e ≡ BankFault.DiskFault) ⊎ (e ≡ BankFault.Memory)) }
{
    let at = bytes.len();
    let count = disk.read(at as u64, piece)?.min(END - at);
    bytes.extend_from_slice(&piece[..count])?;
    Ok(count > 0)
}

// The body after an open gate, and what begins with the next gate.
fn split_body(rest: &[u8]) -> Option<(&[u8], &[u8])>
    ensures split { MatchOption result (IsCut rest.now) (λ r. rest.now ≡ four (length r.0.now) ++ (r.0.now ++ r.1.now)) }
    ensures next { MatchOption result (IsCut rest.now) (λ r. 0 < length r.1.now) }
{
    match rest {
        [a, b, c, d, behind @ ..] => {
            let length = (((*a as usize) * 256 + *b as usize) * 256 + *c as usize) * 256
                + *d as usize;
            if length < behind.len() {
                Some(behind.split_at(length))
            } else {
                None
            }
        }
        _ => None,
    }
}

// Takes whole records off the front, and says how many bytes they had. A gate stands after them.
fn take_records(alloc: Global, bytes: &[u8], bodies: &mut Vec<Body>) -> Result<usize, AllocError>
    requires gate { 0 < length bytes.now }
    requires short { length bytes.now ≤ END }
    ensures records { IfOk result (λ n. blocks bodies.new.items ++ drop n bytes.now ≡ blocks bodies.old.items ++ bytes.now) }
    ensures inside { IfOk result (λ n. n < length bytes.now) }
    ensures stops { IfOk result (λ n. get_or bytes.now n 1 ≡ 1 → IsCut (drop (n + 1) bytes.now)) }
{
    let mut rest = bytes;
    while let [1, behind @ ..] = rest {
        let (body, next) = match split_body(behind) {
            Some(both) => both,
            None => return Ok(bytes.len() - rest.len()),
        };
        bodies.push(Body::of(alloc, body)?)?;
        rest = next;
    }
    Ok(bytes.len() - rest.len())
}

// Takes the whole records after a place, and says whether a closed gate stands after them.
fn advance(
    alloc: Global,
    bytes: &[u8],
    place: usize,
    bodies: &mut Vec<Body>,
) -> Result<(usize, bool), AllocError>
    requires records { HasRecords bytes.now bodies.old.items place }
    requires short { length bytes.now ≤ END }
    ensures records { IfOk result (λ r. HasRecords bytes.now bodies.new.items r.0) }
    ensures closed { IfOk result (λ r. IsTrue r.1 → get_or bytes.now r.0 1 ≢ 1) }
    ensures cut { IfOk result (λ r. r.1 ≡ false → IsCutAt bytes.now r.0) }
{
    let place = place + take_records(alloc, from_place(bytes, place), bodies)?;
    Ok((place, bytes[place] != 1))
}

// Reads on until a closed gate or the end.
fn read_records<D: Disk>(
    alloc: Global,
    disk: &mut D,
    bytes: &mut Vec<u8>,
    piece: &mut [u8],
) -> Result<Records, BankFault>
    requires header { (k : ℕ) → k < 17 → is_right bytes.old.items k ≡ true }
    requires short { length bytes.old.items ≤ END }
    requires piece { 0 < length piece.old }
    ensures ok { (D.view disk.old).Keeps → IsFrontOf (D.view disk.old).reads bytes.old.items → IfOk result (λ r. IsFormatted (D.view disk.old).reads r.bodies.items) }
    ensures err { (D.view disk.old).Keeps → IsFrontOf (D.view disk.old).reads bytes.old.items → IfErr result (λ e. Explains e (D.view disk.old).reads) }
    ensures counted { IfOk result (λ r. r.used ≡ used_by r.bodies.items) }
    ensures within { IfOk result (λ r. r.used ≤ BANK_BYTES) }
    ensures looks { OnlyLooks (D.view disk.old) (D.view disk.new) }
    ensures cause { IsErrOf result BankFault.DiskFault → Rose (D.view disk.old).faults (D.view disk.new).faults }
    ensures only { IfErr result (λ e. e ≢ BankFault.BankFull) }
{
    let mut bodies = Vec::new(alloc);
    let mut place = 16;
    'pieces: loop {
        let (next, is_closed) = advance(alloc, bytes, place, &mut bodies)?;
        place = next;
        if is_closed {
            return Ok(Records {
                bodies,
                used: place - 15,
            });
        }
        if !read_piece(disk, bytes, piece)? {
            return Err(BankFault::BadRecord(place as u64));
        }
    }
}

// The buffer for a piece.
fn new_piece(alloc: Global) -> Result<Vec<u8>, AllocError>
    ensures { IfOk result (λ piece. 17 ≤ length piece.items) }
{
    Vec::from_elem(alloc, 0, PIECE)
}

// Reads the first piece.
fn read_front<D: Disk>(alloc: Global, disk: &mut D, piece: &mut [u8]) -> Result<Vec<u8>, BankFault>
    requires { 17 ≤ length piece.old }
    ensures front { (D.view disk.old).Keeps → IfOk result (λ bytes. HasHeaderOf (D.view disk.old).reads bytes.items) }
    ensures short { IfOk result (λ bytes. length bytes.items ≤ END) }
    ensures looks { OnlyLooks (D.view disk.old) (D.view disk.new) }
    ensures cause { IsErrOf result BankFault.DiskFault → Rose (D.view disk.old).faults (D.view disk.new).faults }
    ensures only { IfErr result (λ e. (e ≡ BankFault.DiskFault) ⊎ (e ≡ BankFault.Memory)) }
{
    let mut bytes = Vec::new(alloc);
    read_piece(disk, &mut bytes, piece)?;
    Ok(bytes)
}

/// Reads the bodies that stand on a disk that is to be a store.
pub fn read_all<D: Disk>(alloc: Global, disk: &mut D) -> Result<Records, BankFault>
    ensures ok { (D.view disk.old).Keeps → IfOk result (λ r. IsFormatted (D.view disk.old).reads r.bodies.items) }
    ensures err { (D.view disk.old).Keeps → IfErr result (λ e. Explains e (D.view disk.old).reads) }
    ensures counted { IfOk result (λ r. r.used ≡ used_by r.bodies.items) }
    ensures within { IfOk result (λ r. r.used ≤ BANK_BYTES) }
    ensures looks { OnlyLooks (D.view disk.old) (D.view disk.new) }
    ensures cause { IsErrOf result BankFault.DiskFault → Rose (D.view disk.old).faults (D.view disk.new).faults }
    ensures only { IfErr result (λ e. e ≢ BankFault.BankFull) }
{
    let mut piece = new_piece(alloc)?;
    let mut bytes = read_front(alloc, disk, &mut piece)?;
    if let Some(place) = first_wrong(&bytes) {
        return Err(BankFault::NotAStore(place));
    }
    read_records(alloc, disk, &mut bytes, &mut piece)
}
