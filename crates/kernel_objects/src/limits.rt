//! How much there may be.

/// How many devices are declared at most.
pub const DEVICES_MAX: usize = 1024;
