//! Zones from the records of a store. A store stands for the zones that the bodies on its disk leave, and a
//! change of one zone is one record.
#![tactic(auto)]

mod bodies;
mod fault;
mod laws;
mod reading;
mod records;
mod replay;
mod rows;
mod sizes;
mod store;
mod stored_config;
mod uuids;

pub use fault::StoreFault;
pub use laws::{applies_one_by_one, one_commit_a_body, opens_store_one_way};
pub use records::{Commit, Record, Row};
pub use rows::Zones;
pub use sizes::{body_length, fits, record_length};
pub use store::{Store, append_record, record_count, reopen};
pub use stored_config::StoredConfig;
pub use uuids::uuid_of;
