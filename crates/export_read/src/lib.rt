//! The exact reader of export texts (zonecfg(8), export): `read_export` answers the configuration whose
//! export text the bytes are, and else the line at which they stop being the beginning of any. It reads each line
//! loosely as one command, puts that into a draft by the calls of `zone_config`, and compares with what is then
//! printed.
#![tactic(auto)]

mod command;
mod complete;
mod draft;
mod halt;
mod laws;
mod lines;
mod names;
mod reader;
mod reading;

pub use laws::{export_texts_differ, lines_say_their_commands};
pub use reader::read_export;
