//! The text of a UUID: 36 bytes, hyphenated and in lower case. `read_uuid` answers just the UUID whose text some
//! bytes are, and no two UUIDs have one text.
#![tactic(auto)]

mod laws;
mod printing;
mod reading;

pub use laws::uuids_differ;
pub use printing::push_uuid;
pub use reading::read_uuid;
