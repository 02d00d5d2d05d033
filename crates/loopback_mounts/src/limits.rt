//! How much there may be.

/// How many mounts a zone has at most.
pub const MOUNTS_MAX: usize = 128;

/// The greatest length of a place, in bytes.
pub const PLACE_MAX: usize = 4096;
