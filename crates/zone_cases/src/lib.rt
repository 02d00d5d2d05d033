//! Events, and what an event of a zone comes to. Sessions type lines, processes make calls, and the zone's daemon takes
//! turns; what each comes to is decided over the zone's cell, before anything is changed, as a `Case` that holds all that
//! its event needs. The definitions in `specs/` say what an event decides in the view that a zone has of the system, and
//! contracts say that a case is that decision. Whoever keeps cells carries cases out.
#![tactic(auto)]

mod calls;
mod cases;
mod cell;
mod copies;
mod events;
mod maps;
mod replies;
mod session;

pub use calls::decide_call;
pub use cases::{
    AtConsole, Case, Committed, Committer, ConsoleEdit, Entering, Errand, Login, Manner, Novelty,
    Removed, Seat, Seated, Sitting,
};
pub use cell::Cell;
pub use events::{Answer, Declaration, Entry, Event, SESSION_MAX, Subject, Whose};
pub use maps::put;
pub use replies::{Body, Head, Refusal, Reply};
pub use session::doings::{Doing, Doings, Ended, begin_doing, doing_of, end_doings, stop_doing};
pub use session::held::{HeldConfig, HeldEditor};
pub use session::line_cases::decide_line;
pub use session::lines::{Command, Line, line_of};
pub use session::listing::{
    Form, Options, ZoneRow, bare_row, cell_row, help, is_listed, list_global, push_line,
};
