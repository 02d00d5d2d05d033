//! A disk in memory, which fails where it is told to, and says what a crash may have left.
ghost use Rattle.std.specs.Prelude.{◌≡◌, ◌⊎◌, ◌↔◌, ◌+◌, ◌-◌, ◌<◌, ◌≤◌, ◌^◌, ◌++◌, [], ◌∷◌, IsTrue, IsOk, IsErr, All, length, min, take, drop, IfOk, OnOk, OnErr, replicate, vec_capacity};
ghost use Rattle.zn_io.specs.Disk.{View, GoesOn, NoMore, Follows, Torn, IsDurable, patched};
ghost use Rattle.zn_io.specs.Streams.{one_more};
ghost use Rattle.zn_io.specs.MemoryDisk.{view_of, platter, IsTold, HasRoom, counted, with_change, crashed, filled};
ghost use Rattle.zn_io.specs.MemoryDisk.Change.{wrote, synced};
ghost use Rattle.zn_io.specs.MemoryDiskIsSound.{is_sound};

use crate::buffers::{copy_from, extend, fill_all, push, put, roomy};
use crate::room::{Entry, Extent, Fill, Room};
use crate::{Disk, Failed};
use std::alloc::{AllocError, Global};
use std::marker::Model;

/// A disk of known bytes that keeps each change, so that it can say what a crash at any moment may have
/// left. Contracts see a `MemoryDisk`: its opening bytes and the changes since.
#[derive(Drop)]
pub struct MemDisk {
    opening: Vec<u8>,
    bytes: Vec<u8>,
    kept: Vec<u8>,
    ranges: Vec<Extent>,
    entries: Vec<Entry>,
    written: Vec<u8>,
    room: Room,
    failing: Vec<u64>,
    stop: Option<u64>,
    calls: u64,
    faults: u64,
}

impl Model for MemDisk {
    ghost use Rattle.std.specs.Prelude.{◌+◌, ◌≤◌, All, length, vec_capacity};
    ghost use Rattle.zn_io.specs.MemoryDisk.{MemoryDisk, IsPlayed, IsWithin, IsRoomy, platter_of, changes_of};

    ghost Value = { MemoryDisk };

    ghost view = { λ m. record { opening = m.opening.items; changes = changes_of m.entries.items m.written.items; room = m.room; failing = m.failing.items; stop = m.stop; calls = m.calls; faults = m.faults } };

    ghost invariant = { λ m. IsPlayed (platter_of m.opening.items (changes_of m.entries.items m.written.items)) m.bytes.items m.kept.items m.ranges.items m.entries.items m.written.items
        × All (λ r. r.at + r.size ≤ m.room.length) m.ranges.items
        × IsWithin m.room (length m.bytes.items) (length m.kept.items) (length m.ranges.items) (length m.entries.items) (length m.written.items)
        × IsRoomy m.room (vec_capacity m.bytes) (vec_capacity m.kept) (vec_capacity m.ranges) (vec_capacity m.entries) (vec_capacity m.written) };
}

// Some bytes twice, with capacity for more.
fn two_roomy(alloc: Global, bytes: &[u8], most: usize) -> Result<(Vec<u8>, Vec<u8>), AllocError>
    requires { length bytes.now ≤ most }
    ensures items { IfOk result (λ r. (r.0.items ≡ bytes.now) × (r.1.items ≡ bytes.now)) }
    ensures capacity { IfOk result (λ r. (most ≤ vec_capacity r.0) × (most ≤ vec_capacity r.1)) }
{
    let first = roomy(alloc, bytes, most)?;
    let second = roomy(alloc, bytes, most)?;
    Ok((first, second))
}

// What is kept of calls, of none so far, with capacity for all that the room allows.
fn records_of(alloc: Global, room: Room) -> Result<(Vec<Extent>, Vec<Entry>, Vec<u8>), AllocError>
    ensures none { IfOk result (λ r. (r.0.items ≡ []) × (r.1.items ≡ []) × (r.2.items ≡ [])) }
    ensures capacity { IfOk result (λ r. (room.calls ≤ vec_capacity r.0) × (room.calls ≤ vec_capacity r.1) × (room.written ≤ vec_capacity r.2)) }
{
    let ranges = Vec::with_capacity(alloc, room.calls as usize)?;
    let entries = Vec::with_capacity(alloc, room.calls as usize)?;
    let written = Vec::with_capacity(alloc, room.written as usize)?;
    Ok((ranges, entries, written))
}

// A further change, which ends at a place and has this many bytes, stays within the room.
fn fits(room: Room, changes: usize, end: usize, written: usize, size: usize) -> bool
    requires { written ≤ room.written }
    ensures { IsTrue result ↔ (changes < room.calls × end ≤ room.length × written + size ≤ room.written) }
{
    (changes as u64) < room.calls
        && end as u64 <= room.length
        && size as u64 <= room.written - written as u64
}

impl MemDisk {
    /// Opens with `bytes`. The calls whose numbers, counted from 1, are in `failing` fail, and so do call
    /// `stop` and every call after it, and a write or sync that would pass the room. All memory is taken
    /// here, and none later.
    pub fn new(
        alloc: Global,
        bytes: Vec<u8>,
        room: Room,
        failing: Vec<u64>,
        stop: Option<u64>,
    ) -> Result<MemDisk, AllocError>
        requires { length bytes.items ≤ room.length }
        ensures { IfOk result (λ disk. disk ≡ record { opening = bytes.items; changes = []; room = room; failing = failing.items; stop = stop; calls = 0; faults = 0 }) }
    {
        let (reads, kept) = two_roomy(alloc, &bytes, room.length as usize)?;
        let (ranges, entries, written) = records_of(alloc, room)?;
        Ok(MemDisk {
            opening: bytes,
            bytes: reads,
            kept,
            ranges,
            entries,
            written,
            room,
            failing,
            stop,
            calls: 0,
            faults: 0,
        })
    }

    /// What a read gives.
    pub fn bytes(&self) -> &[u8]
        ensures { result.now ≡ (platter self.now).reads }
    {
        &self.bytes
    }

    /// The image that a crash now leaves by a fill: what the last good sync left, or the opening bytes
    /// before the first, with the ranges written since then filled.
    pub fn after_crash(&self, alloc: Global, fill: Fill) -> Result<Vec<u8>, AllocError>
        ensures image { IfOk result (λ image. image.items ≡ crashed fill (platter self.now)) }
        ensures may_be { IfOk result (λ image. (view_of self.now).Now image.items) }
    {
        self.crashed(alloc, fill)
    }

    fn crashed(&self, alloc: Global, fill: Fill) -> Result<Vec<u8>, AllocError>
        ensures { IfOk result (λ image. image.items ≡ crashed fill (platter self.now)) }
    {
        match fill {
            Fill::Old => Vec::from_slice(alloc, &self.kept),
            Fill::New => Vec::from_slice(alloc, &self.bytes),
            Fill::Byte(byte) => fill_all(alloc, &self.kept, &self.ranges, byte),
        }
    }

    // Counts a call, and says whether it is told to fail.
    fn count_call(&mut self) -> bool
        ensures told { IsTrue result ↔ IsTold self.old }
        ensures counted { self.new ≡ record self.old { calls = one_more self.old.calls } }
    {
        self.calls = self.calls.saturating_add(1);
        self.failing.contains(&self.calls) || self.stop.is_some_and(|stop| stop <= self.calls)
    }

    fn fail(&mut self) -> Failed
        ensures counted { self.new ≡ record self.old { faults = one_more self.old.faults } }
        ensures later { self.old.faults ≤ self.new.faults }
    {
        self.faults = self.faults.saturating_add(1);
        Failed
    }

    fn is_full(&self) -> bool
        ensures { IsTrue result ↔ (self.now.room.calls ≤ length self.now.changes) }
    {
        self.room.calls <= self.entries.len() as u64
    }

    fn has_room(&self, at: u64, size: usize) -> bool
        requires { at + size < 2 ^ 64 }
        ensures { IsTrue result ↔ HasRoom self.now at size }
    {
        fits(
            self.room,
            self.entries.len(),
            at as usize + size,
            self.written.len(),
            size,
        )
    }
}

impl MemDisk {
    // Makes a write that is within the room.
    fn change(&mut self, at: u64, bytes: &[u8])
        requires { HasRoom self.old at (length bytes.now) }
        ensures { self.new ≡ with_change self.old (wrote at bytes.now) }
    {
        let extent = Extent {
            at,
            size: bytes.len() as u64,
        };
        put(&mut self.bytes, at as usize, bytes);
        push(&mut self.ranges, extent);
        push(&mut self.entries, Entry::Wrote(extent));
        extend(&mut self.written, bytes);
    }

    // Makes a sync that is within the room.
    fn keep(&mut self)
        requires { length self.old.changes < self.old.room.calls }
        ensures { self.new ≡ with_change self.old synced }
    {
        self.kept.clear();
        extend(&mut self.kept, &self.bytes);
        self.ranges.clear();
        push(&mut self.entries, Entry::Synced);
    }
}

impl Disk for MemDisk {
    ghost view = { view_of };

    ghost sound = { is_sound };

    fn length(&mut self) -> Result<u64, Failed>
        ensures length { (view_of self.old).Keeps → IfOk result (λ n. n ≡ length (view_of self.old).reads) }
        ensures same { (view_of self.old).Keeps → (view_of self.new).reads ≡ (view_of self.old).reads }
        ensures crash { NoMore (view_of self.old) (view_of self.new) }
        ensures goes_on { GoesOn (view_of self.old) (view_of self.new) result }

        // It fails exactly where it is told to, and changes nothing.
        ensures fails { IsErr result ↔ IsTold self.old }
        ensures counted { self.new ≡ counted self.old result }
    {
        if self.count_call() {
            return Err(self.fail());
        }
        Ok(self.bytes.len() as u64)
    }

    fn read(&mut self, at: u64, into: &mut [u8]) -> Result<usize, Failed>
        ensures bound { IfOk result (λ n. n ≤ length into.old) }
        ensures count { (view_of self.old).Keeps → IfOk result (λ n. n ≡ min (length into.old) (length (view_of self.old).reads - at)) }
        ensures bytes { (view_of self.old).Keeps → IfOk result (λ n. take n into.new ≡ take n (drop at (view_of self.old).reads)) }
        ensures same { (view_of self.old).Keeps → (view_of self.new).reads ≡ (view_of self.old).reads }
        ensures crash { NoMore (view_of self.old) (view_of self.new) }
        ensures goes_on { GoesOn (view_of self.old) (view_of self.new) result }

        // It fails exactly where it is told to, and changes nothing.
        ensures fails { IsErr result ↔ IsTold self.old }
        ensures counted { self.new ≡ counted self.old result }
    {
        if self.count_call() {
            return Err(self.fail());
        }
        Ok(copy_from(&self.bytes, at as usize, into))
    }

    fn write_at(&mut self, at: u64, bytes: &[u8]) -> Result<(), Failed>
        requires { at + length bytes.now < 2 ^ 64 }
        ensures written { (view_of self.old).Keeps → OnOk result ((view_of self.new).reads ≡ patched (view_of self.old).reads at bytes.now) }
        ensures unsure { (view_of self.old).Keeps → OnErr result (((view_of self.new).reads ≡ (view_of self.old).reads) ⊎ ((view_of self.new).reads ≡ patched (view_of self.old).reads at bytes.now)) }
        ensures crash { Follows (Torn at (length bytes.now)) (view_of self.old) (view_of self.new) }
        ensures goes_on { GoesOn (view_of self.old) (view_of self.new) result }

        // It fails exactly where it is told to or has no room, and with room it counts as written.
        ensures fails { IsErr result ↔ (IsTold self.old ⊎ ¬ HasRoom self.old at (length bytes.now)) }
        ensures room { HasRoom self.old at (length bytes.now) → self.new ≡ counted (with_change self.old (wrote at bytes.now)) result }
        ensures full { (HasRoom self.old at (length bytes.now) → ⊥) → self.new ≡ counted self.old result }
    {
        let is_told = self.count_call();
        if !self.has_room(at, bytes.len()) {
            return Err(self.fail());
        }
        self.change(at, bytes);
        if is_told {
            return Err(self.fail());
        }
        Ok(())
    }

    fn sync(&mut self) -> Result<(), Failed>
        ensures durable { OnOk result (IsDurable (view_of self.new)) }
        ensures same { (view_of self.old).Keeps → (view_of self.new).reads ≡ (view_of self.old).reads }
        ensures crash { NoMore (view_of self.old) (view_of self.new) }
        ensures goes_on { GoesOn (view_of self.old) (view_of self.new) result }

        // It fails exactly where it is told to or has no room, and then counts as none.
        ensures fails { IsErr result ↔ (IsTold self.old ⊎ (self.old.room.calls ≤ length self.old.changes)) }
        ensures kept { OnOk result (self.new ≡ counted (with_change self.old synced) result) }
        ensures none { OnErr result (self.new ≡ counted self.old result) }
    {
        if self.count_call() || self.is_full() {
            return Err(self.fail());
        }
        self.keep();
        Ok(())
    }
}
