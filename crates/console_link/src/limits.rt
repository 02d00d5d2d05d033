//! How much there may be.

/// How many bytes a console keeps at most.
pub const OUTPUT_MAX: usize = 4096;
