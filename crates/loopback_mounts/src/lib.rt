//! The mounts of one zone, the holds of the global zone on them, the place of a path, and which types of file systems a zone
//! may mount. Each call's answer and change are those of the definitions in `specs/` on the zone's plain list of mounts,
//! which stands in byte order of their directories. A call that changes something is also there in two halves, for a caller
//! that decides all before it does anything: one that only looks, as `check_mount`, and one that looks at nothing, as
//! `put_reserved`.
#![tactic(auto)]

mod calls;
mod cell;
mod faults;
mod laws;
mod limits;
mod mount;
mod paths;
mod places;
mod search;
mod types;

pub use cell::MountCell;
pub use faults::{HoldFault, MountFault};
pub use laws::the_mount_over_a_path;
pub use limits::{MOUNTS_MAX, PLACE_MAX};
pub use mount::{Last, Mount, MountEntry};
pub use places::Place;
pub use types::may_mount_type;
