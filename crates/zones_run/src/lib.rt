//! The commands of `zones`, over any source, sinks and disk: zone configurations read, checked and written, traces and scripts
//! run by the zone machine over the store on the disk, and the index of the zones in it. Its one contract is that of `run_zones`: what a whole input comes to,
//! what each exit status means, and what a crash at any moment leaves on the disk.
#![tactic(auto)]

mod answers;
mod bulk;
mod due;
mod edit;
mod export;
mod fault;
mod index;
mod laws;
mod limits;
mod made;
mod outcome;
mod refusal;
mod run;
mod status;
mod trace;
mod turns;
mod words;

pub use answers::is_refusal;
pub use fault::RunFault;
pub use laws::{
    bulk_comes_to_its_end, crashes_leave_stored_states, declares_first, entries_are_the_machines,
    exports_what_is_denoted, only_script_puts_in, purged_traces_are_answered_alike,
    refuses_at_what_is_denoted, script_turns_end, turns_that_are_put_in_end,
};
pub use outcome::Complaint;
pub use run::{complain, fail, run_zones, tell};
pub use status::{
    DISK_FAULT, DONE, GRAMMAR, LIMIT, NO_MEMORY, NOT_A_STORE, READ_FAULT, REFUSED, USAGE,
    WRITE_FAULT,
};
pub use words::USAGE_LINE;
