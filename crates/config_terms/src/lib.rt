//! The terms of a zone's configuration, as zonecfg(8) has them: lists, the rules of values, the tables of
//! properties, and resources with their texts, matches and edits. Each public call gives what a definition
//! over the tables says, with its refusals in their order, and a refused edit leaves its resource as it was.
#![tactic(auto)]

mod allowed;
mod entry;
mod fault;
mod fields;
mod given;
mod kinds;
mod laws;
mod lines;
mod lists;
mod matches;
mod printing;
mod resources;
mod rules;
mod terms;
mod texts;

pub use entry::{Entry, path_text};
pub use fault::ConfigFault;
pub use fields::{Field, KINDS, Named};
pub use given::path_kept;
pub use laws::{edits_stay_allowed, resources_are_edited};
pub use lines::{push_limit, push_options};
pub use matches::{find_apart, find_entry, has_all, has_key, is_taken, is_taken_but, keeps_key};
pub use printing::{entry_length, push_entries, push_entry};
pub use rules::Rule;
pub use terms::{Attr, Fs, IpType, Kind, Limit, Net, Rctl, Resource};
pub use texts::{push_setting, setting_length};
