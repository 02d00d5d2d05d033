//! What the kernel has for zones: processes, ids with their limits, and devices. A `KernelCell` is what one zone has, and
//! the `KernelShared` what other zones may ask: who holds each number of a process or a zone, the last ones given, and
//! the declared devices. Each call's answer and change are those of the definitions in `specs/` on the zone's plain lists.
//! A call of a process is also there in two halves, for a caller that decides all before it does anything: one that only
//! looks, as `forking` and `check_exec`, and one that looks at nothing, as `begin` and `set_name`.
#![tactic(auto)]

mod calls;
mod cell;
mod devices;
mod faults;
mod laws;
mod limits;
mod objects;
mod processes;
mod shared;

pub use cell::KernelCell;
pub use faults::{Errno, KernelFault};
pub use laws::{
    an_empty_zone_has_nothing, cell_and_shared_part_agree, numbers_of_processes,
    sets_lie_within_the_limit,
};
pub use limits::DEVICES_MAX;
pub use objects::{ProcRow, Running, Signal};
pub use shared::KernelShared;
