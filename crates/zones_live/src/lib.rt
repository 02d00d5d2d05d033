//! The command `live`: sessions run at once, each on a thread of its own, over the store on a disk, and the record of what they did is
//! written, which anybody can check and replay.
#![tactic(auto)]

mod declaring;
mod opening;
mod record;
mod run;
mod sorting;
mod telling;
mod writing;

pub use run::run_live;
pub use sorting::Sorted;
