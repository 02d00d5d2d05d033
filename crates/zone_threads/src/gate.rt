//! What is called before each event.
use std::sync::Wait;

/// Is called before each event, with its zone's lock held, before what zones share is asked for. It may wait. So a test sees that
/// events of two zones are under way at once.
pub trait Gate {
    /// The place is that of the zone whose lock is held.
    fn pass<W: Wait>(&self, rt: &W, place: u32);
}
