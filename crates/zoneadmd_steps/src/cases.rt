//! What a turn of a zone's daemon comes to. A case is decided before anything is changed, and holds all that its turn
//! needs. What is large and rare in it is boxed, so that it is handed on at little cost.
use crate::desks::Job;
use crate::objects::changes::{Came, ObjectEdit};
use crate::requests::{Failure, Outcome, Step};
use datalink_table::Claim;
use std::snapshot::Snapshot;
use zn_base::AbsPath;

/// A step that is done: the place of the next one, what becomes of the objects, and the step as it is told.
#[derive(Drop)]
pub struct Pass {
    pub next: usize,
    pub objects: ObjectEdit,
    pub shown: Step,
}

/// What a turn of the request under way comes to.
#[derive(Drop)]
pub enum JobCase {
    /// The request ends.
    Finish(Outcome),
    /// A step is done.
    Pass(Pass),
    /// The last mount goes, and the plan stays at this place. Its directory is in no memory here: it is told as the mount
    /// goes.
    Unmounts(Snapshot<AbsPath>, usize),
    /// The latest claim ends, and the plan stays at this place. It is told as it ends.
    Releases(Snapshot<Claim>, usize),
    /// A step asks pools for what comes; then the plan goes on at this place.
    Ask(Came, usize),
    /// A step fails.
    Fail(Failure),
    /// The latest step that is to be undone is undone.
    Undo(ObjectEdit),
    /// The next unmount is of a mount that is held, and nothing changes.
    Stuck,
}

/// What a turn of a zone's daemon comes to.
#[derive(Drop)]
pub enum TurnCase {
    /// No request waits or is under way.
    Idle,
    /// The first request that waits begins.
    Begin(Box<Job>),
    /// The first request that waits is a halt, and begins; the zone's brand stands at this place.
    BeginHalt(Option<usize>),
    /// The first request that waits, of this ticket, doesn't begin.
    Refuse(u32, Outcome),
    /// A reboot goes on as a boot.
    Again(Box<Job>),
    /// The request under way goes on.
    GoOn(JobCase),
}
