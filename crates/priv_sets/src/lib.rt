//! Sets of the privileges of privileges(7) that a zone's processes may have, and the limit set that a zone's
//! limitpriv property denotes. `limit_of` answers exactly the set of the definition, or its first fault.
#![tactic(auto)]

mod limit;
mod set;
mod table;

pub use limit::{PrivFault, limit_of};
pub use set::PrivSet;
pub use table::{PROC_EXEC, PROC_FORK, SYS_MOUNT, name_of, number_of};
