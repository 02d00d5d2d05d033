//! What a record of sessions is that run at once, and what follows from that, over every list of entries. One list has the lines
//! of all sessions, each session's in their order, and the turns that were taken for them; the machine's definitions answer it
//! entry by entry. Each law is the contract of a function that does nothing.
#![tactic(auto)]

mod laws;
mod places;

pub use laws::{records_keep_to_scripts, run_records_are_legal, waits_are_of_sessions};
pub use places::{local_turns_stay_in_their_place, places_are_apart};
