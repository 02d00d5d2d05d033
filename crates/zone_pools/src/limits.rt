//! The greatest and least numbers that the pools give.

/// The least number of a zone's process. The system's first process has 1.
pub const PID_MIN: u32 = 2;

pub const PID_MAX: u32 = 29_999;

/// The least id of a zone. The global zone has 0.
pub const ZID_MIN: u32 = 1;

pub const ZID_MAX: u32 = 9_999;

/// How many zones are stored at most.
pub const ZONES_MAX: usize = 256;

/// The greatest number of a record of the store.
pub const SERIAL_MAX: u32 = u32::MAX;
