//! The zone machine: sessions type lines, zones' daemons take turns, zones' processes make calls, the whole
//! system declares what zones may ask for, and each such event has one subject, one grant and one reply. The
//! definitions in `specs/` say what an event does to the state of all zones. A `Machine` stands for such a state:
//! its `step` answers the entry that they give, and leaves it standing for the state after. It keeps a `Cell` for
//! each zone that has something, a part that zones share, and the bank of records on a disk: an event of a zone needs
//! these three alone, by `cell_step`, and a turn that is local the cell alone, by `local_turn`. One of the global zone needs the
//! shared part and what the zones show of themselves, by `global_step`.
#![tactic(auto)]

mod faults;
mod laws;
mod machine;
mod worlds;

pub use faults::StepFault;
pub use laws::{
    allowed_by_what_is_common, busy_turns_are_not_idle, changes_what_is_common,
    is_stored_in_common, local_turns_touch_nothing_common, subject_by_what_is_common,
};
pub use machine::apart::{hear, is_busy};
pub use machine::global_steps::global_step;
pub use machine::local_turns::local_turn;
pub use machine::parting::Parted;
pub use machine::shared::Shared;
pub use machine::shown::{Shown, ShownZones};
pub use machine::steps::{cell_step, cell_step_given};
pub use machine::{Foreseen, Machine};
pub use worlds::{entries_move_worlds, local_turns_are_of_worlds};
