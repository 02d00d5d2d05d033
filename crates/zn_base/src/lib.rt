//! What every crate of `zones` stands on: texts, paths and zone names of checked form, values, lists and bytes,
//! decimal numbers, cuts and pieces of text, patterns of paths, and the states of a zone. `read` of a text, a path
//! or a name is exact, with each fault and its place.
#![tactic(auto)]

mod bytes;
mod copies;
mod cuts;
mod decimals;
mod listing;
mod name;
mod path;
mod pattern;
mod pieces;
mod state;
mod text;
mod values;

pub use bytes::Bytes;
pub use copies::TryClone;
pub use cuts::{lines, place_of_byte, split_at_byte};
pub use decimals::read_decimal;
pub use listing::{Listing, try_clone_all};
pub use name::{NameFault, ZoneName, is_name_byte};
pub use path::{AbsPath, PathFault, is_path};
pub use pattern::glob;
pub use pieces::{push_both, push_decimal, push_numbered, push_pieces};
pub use state::{ZoneState, may_move};
pub use text::{Text, TextFault, is_text_byte};
pub use values::{Pair, Value};
