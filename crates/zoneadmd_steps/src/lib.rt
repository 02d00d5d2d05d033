//! The daemon of a zone, zoneadmd(8): the requests that it is given, the plan of each, and what its turns do. A turn is a
//! function of the zone's desk and objects, what is stored of it, and what the daemon finds on the system: the declared
//! devices and the brands. It is decided before anything is changed, as a `TurnCase`, by `local_case` where it touches
//! nothing that other zones may ask, and else by `decide_turn`; it is settled on the desk under a grant, and what else is to
//! be done is told as a `TurnWork`. No session is its subject: it tells which ticket ended. The brand is asked outside:
//! `Desk::next_hook` tells of which change, and its answer is given to the turn.
#![tactic(auto)]

mod ahead;
mod cases;
mod checks;
mod configs;
mod desks;
mod job_config;
mod local_cases;
mod objects;
mod plan_steps;
mod plans;
mod queued;
mod requests;
mod settling;
mod shared_cases;
mod turn_cases;

pub use cases::{JobCase, Pass, TurnCase};
pub use desks::{Desk, Job};
pub use local_cases::local_case;
pub use objects::changes::{Came, Limits, ObjectEdit};
pub use objects::{Objects, System};
pub use queued::QueuedRequest;
pub use requests::{Failure, Gone, Outcome, Request, RequestKind, Step, TurnReply};
pub use settling::{Stored, TurnWork, settle_turn};
pub use turn_cases::decide_turn;
