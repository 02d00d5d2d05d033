//! What is left of sessions' scripts is run in one thread: for each session in order the turns for the ticket that it waits for, and
//! then each line that is left, each followed by the turns for its ticket. The entries that come make what was recorded a whole record
//! of the sessions, or up to a fault a part of one.
#![tactic(auto)]

mod far;
mod run;
mod steps;

pub use far::{Awaited, Far, Script};
pub use run::run_rest;
