//! The machine of all zones under sessions on threads: the definitions by which `zone_threads` sees it, their laws, and the machine
//! itself, in which each zone's cell lies apart from what zones share.
#![tactic(auto)]

mod begun;
mod cell;
mod dealing;
mod machine;
mod named;
mod names;
mod part;
mod past;
mod sessions;
mod told;

pub use cell::PlaceCell;
pub use machine::Daemons;
pub use names::Names;
pub use part::SharedPart;
pub use past::Past;
pub use sessions::{Live, run_sessions};
