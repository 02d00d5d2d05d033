//! How much there may be.

/// How many items of a kind are declared at most.
pub const ITEMS_MAX: usize = 1024;
