//! How many passes a turn has at most.

/// How many passes may be out beside the first one.
pub const PASSES_OUT_MAX: u64 = 4_294_967_295;
