//! What a disk in memory is given, and what it keeps of each call.

/// How much a disk in memory may take: the greatest length of the disk, the number of writes and
/// syncs, and the bytes written in all.
#[derive(Clone, Copy, Debug, PartialEq, Eq)]
pub struct Room {
    pub length: u64,
    pub calls: u64,
    pub written: u64,
}

/// What a crash makes of the ranges written since the last good sync.
#[derive(Clone, Copy, Debug, PartialEq, Eq)]
pub enum Fill {
    /// They and the length are as they were at that sync.
    Old,
    /// They are as written, and the length is the greater one.
    New,
    /// They hold this byte throughout, and the length is the greater one.
    Byte(u8),
}

/// A range that was written.
#[derive(Clone, Copy)]
pub struct Extent {
    pub at: u64,
    pub size: u64,
}

/// A change of the disk, without the bytes of a write.
#[derive(Clone, Copy)]
pub enum Entry {
    Wrote(Extent),
    Synced,
}
