//! What a line of an editing session of zonecfg(8) does, but for what only the zone's store can do: commit, delete
//! and leave, for which it asks. A line makes of the editor, tells and asks exactly what its run says, which its
//! subcommands make from left to right.
#![tactic(auto)]

mod laws;
mod line;
mod obey;
mod order;
mod refusal;
mod reply;

pub use laws::{line_denotes, refused_line_stands};
pub use line::{type_alone, type_line};
pub use refusal::LineRefusal;
pub use reply::{Ending, LineReply, Stored};
