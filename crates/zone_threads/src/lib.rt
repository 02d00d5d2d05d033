//! Sessions on threads, over any machine of zones each of which has a cell: each zone's cell lies under a lock of its own, and
//! what zones share goes round between them. What was done is one history, of which each zone's log is exactly its entries.
#![tactic(auto)]

mod end;
mod gate;
mod history;
mod live;
mod machine;
mod notes;
mod part;
mod run;
mod step;
mod tally;
mod zone;

pub use gate::Gate;
pub use history::History;
pub use live::{Ending, Lived, run_scripts};
pub use machine::{Machine, Said, Stop, Told, Zoned};
pub use notes::Note;
pub use part::{Outset, Part, Place, Start};
pub use run::Script;
pub use tally::{Progress, Ticket};
pub use zone::Back;
