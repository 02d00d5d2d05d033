//! How long an input may be. How long a line may be, the reader of lines says.

/// The greatest number of lines.
pub const LINES_MAX: u64 = 200_000;
