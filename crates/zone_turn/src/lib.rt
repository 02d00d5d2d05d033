//! A turn lends a shared part to the holders of passes, one at a time, and keeps one history of what they did while they
//! had it. Its one contract: whoever takes the part finds it standing for all that was given so far, of which what belongs
//! to the pass is what the pass gave; and what `close` hands back stands for all that was ever given, each entry once.
#![tactic(auto)]

mod faults;
mod laws;
mod limits;
mod plays;
mod story;
mod turn;
mod views;

pub use faults::TurnFault;
pub use laws::one_holder;
pub use limits::PASSES_OUT_MAX;
pub use plays::Batch;
pub use story::Storied;
pub use turn::{Pass, PassOf, Turn};
pub use views::{Role, Roster, Stage, View};
