//! The configuration of a zone, as zonecfg(8) keeps it: its properties, its resources and its one export
//! text. Every `ZoneConfig` is sound by its type (allowed values, distinct names, bounded counts and a bounded
//! text), and each call changes it as one definition says or leaves it as it was.
#![tactic(auto)]

mod alias;
mod config;
mod contents;
mod kinds;
mod laws;
mod limits;
mod printing;
mod property;
mod removal;
mod resources;
mod same;
mod sizes;
mod terms;

pub use config::{ZoneConfig, blank};
pub use config_terms::{Attr, ConfigFault, Fs, IpType, Kind, Limit, Net, Rctl, Resource};
// Here `each_kind!` looks for what it is given.
use kinds::{arms_or_back, entry_arms, entry_arms_mut, kind_sum, resource_arms, resource_arms_mut};
pub use laws::{clears_where_named, sets_where_allowed};
pub use printing::{export, push_export};
pub use property::PROPERTIES;
pub use same::same_contents;
pub use terms::{Alias, Contents, Property, Setting};
