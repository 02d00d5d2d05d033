//! Disks: bytes that outlast a crash once they are synced.
ghost use Rattle.std.specs.Prelude.{◌≡◌, ◌⊎◌, ◌+◌, ◌-◌, ◌<◌, ◌≤◌, ◌^◌, ℕ, List, length, min, take, drop, IfOk, OnOk, OnErr};
ghost use Rattle.zn_io.specs.Disk.{View, IsSound, GoesOn, Follows, IsDurable, NoMore, PutsDurably, Torn, patched};

use crate::Failed;

/// Bytes at offsets. What was written is sure to outlast a crash once a sync after it has answered Ok.
///
/// Until then a crash may leave any bytes in each written range and past the old end, and any length
/// from the old one to the new one; bytes outside stay. A write that fails may count as written, a sync
/// that fails counts as none, and no failed call does more.
pub trait Disk {
    /// What it reads as, what a crash may leave, and how often it has failed. What it keeps to is said
    /// under `Keeps`, which a disk that says nothing never grants.
    ghost view: { Self → View };

    /// The number of its bytes.
    fn length(&mut self) -> Result<u64, Failed>
        ensures length { (view self.old).Keeps → IfOk result (λ n. n ≡ length (view self.old).reads) }
        ensures same { (view self.old).Keeps → (view self.new).reads ≡ (view self.old).reads }
        ensures crash { NoMore (view self.old) (view self.new) }
        ensures goes_on { GoesOn (view self.old) (view self.new) result };

    /// Fills the front of `into` with the bytes from `at` on, and says with how many. They are fewer
    /// than asked only at the disk's end.
    fn read(&mut self, at: u64, into: &mut [u8]) -> Result<usize, Failed>
        ensures bound { IfOk result (λ n. n ≤ length into.old) }
        ensures count { (view self.old).Keeps → IfOk result (λ n. n ≡ min (length into.old) (length (view self.old).reads - at)) }
        ensures bytes { (view self.old).Keeps → IfOk result (λ n. take n into.new ≡ take n (drop at (view self.old).reads)) }
        ensures same { (view self.old).Keeps → (view self.new).reads ≡ (view self.old).reads }
        ensures crash { NoMore (view self.old) (view self.new) }
        ensures goes_on { GoesOn (view self.old) (view self.new) result };

    /// Puts the bytes at an offset. Past the end it lengthens the disk, and a gap reads as zeros.
    fn write_at(&mut self, at: u64, bytes: &[u8]) -> Result<(), Failed>
        requires { at + length bytes.now < 2 ^ 64 }
        ensures written { (view self.old).Keeps → OnOk result ((view self.new).reads ≡ patched (view self.old).reads at bytes.now) }
        ensures unsure { (view self.old).Keeps → OnErr result (((view self.new).reads ≡ (view self.old).reads) ⊎ ((view self.new).reads ≡ patched (view self.old).reads at bytes.now)) }
        ensures crash { Follows (Torn at (length bytes.now)) (view self.old) (view self.new) }
        ensures goes_on { GoesOn (view self.old) (view self.new) result };

    /// Makes what was written outlast a crash: after Ok a crash leaves what a read gives.
    fn sync(&mut self) -> Result<(), Failed>
        ensures durable { OnOk result (IsDurable (view self.new)) }
        ensures same { (view self.old).Keeps → (view self.new).reads ≡ (view self.old).reads }
        ensures crash { NoMore (view self.old) (view self.new) }
        ensures goes_on { GoesOn (view self.old) (view self.new) result };

    /// What a disk reads as is one of the images that a crash now may leave, and this moment is the
    /// last of all moments.
    ghost sound: { (disk : Self) → IsSound (view disk) };
}

/// Writes and syncs. A crash meanwhile leaves what was there, with any bytes in the range.
pub fn put_durably<D: Disk>(disk: &mut D, at: u64, bytes: &[u8]) -> Result<(), Failed>
    requires { at + length bytes.now < 2 ^ 64 }
    ensures { PutsDurably at bytes.now (D.view disk.old) (D.view disk.new) result }
{
    disk.write_at(at, bytes)?;
    disk.sync()?;
    Ok(())
}
