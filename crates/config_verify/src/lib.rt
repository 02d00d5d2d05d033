//! Whether a configuration can be installed, as `zonecfg verify` asks (zonecfg(8)). `verify` answers the first
//! flaw of the list of all flaws, in their order, or Ok exactly where that list is empty.
#![tactic(auto)]

mod config;
mod flaw;
mod resources;
mod values;

pub use config::{matches, verify, verify_brand, verify_but_brand};
pub use flaw::Flaw;
pub use resources::claimed;
pub use values::is_plain_address;
