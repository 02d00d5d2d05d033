//! The exit statuses of `zones`.

/// All is done and nothing was refused.
pub const DONE: u8 = 0;

/// A line or the end of the input was refused.
pub const REFUSED: u8 = 1;

/// The words are no form of the command line.
pub const USAGE: u8 = 2;

/// A line is outside the grammar.
pub const GRAMMAR: u8 = 3;

/// The source failed.
pub const READ_FAULT: u8 = 4;

/// Standard output or standard error failed.
pub const WRITE_FAULT: u8 = 5;

/// The disk failed.
pub const DISK_FAULT: u8 = 6;

/// What is on the disk is no store.
pub const NOT_A_STORE: u8 = 7;

/// The input has too many lines, or a line has too many bytes.
pub const LIMIT: u8 = 8;

/// Memory ran out.
pub const NO_MEMORY: u8 = 9;
