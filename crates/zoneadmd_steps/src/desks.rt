//! A zone's desk: the requests that wait, and the one under way.
ghost use Rattle.std.specs.Prelude.{◌+◌, ◌-◌, ◌<◌, ◌≤◌, ◌∷◌, ◌≡◌, [], IsSomeAnd, None, OnOk, Some, drop, false, is_ok, length, reverse, slice_get, true};
ghost use Rattle.zoneadmd_steps.specs.Code.Cases.{IsInPlan, IsTurnOf, turn_decision_of};
ghost use Rattle.zoneadmd_steps.specs.Code.Rooms.{HasRequestRoom, HasRoomToKeep, HasTurnRoom, is_undone, takes_room, turn_takes_room};
ghost use Rattle.zoneadmd_steps.specs.Desks.{Fails, Goes, empty_desk, has_request, is_full, with_request};
ghost use Rattle.zoneadmd_steps.specs.Turns.{with_step};
ghost use Rattle.zoneadmd_steps.specs.Code.Desks.{as_desk, as_job, as_outcome};
ghost use Rattle.zoneadmd_steps.specs.Plans.{made_after};

use crate::cases::{JobCase, TurnCase};
use crate::job_config::JobConfig;
use crate::plan_steps::Plan;
use crate::queued::QueuedRequest;
use crate::requests::{Failure, Request, Step};
use std::alloc::{AllocError, Global};
use zn_base::ZoneState;

/// How many requests wait on a desk at most.
pub(crate) const REQUESTS_MAX: usize = 8;

/// The greatest ticket.
pub(crate) const TICKET_MAX: u32 = u32::MAX;

/// A request under way.
#[derive(Drop)]
pub struct Job {
    pub(crate) ticket: u32,
    pub(crate) request: Request,
    /// The place of the zone's brand among the brands, as the request last began.
    pub(crate) brand: Option<usize>,
    /// The configuration as the request last began. A halt keeps none.
    pub(crate) config: JobConfig,
    /// The whole plan, and the place of the next step in it. A step that a failure undoes is taken out once it is done.
    pub(crate) steps: Plan,
    pub(crate) at: usize,
    /// The number of the next step, from 1. It stands still at its type's end.
    pub(crate) place: u32,
    /// What a failure undoes, the latest last.
    pub(crate) made: Vec<Step>,
    /// Why the request will end, once a step failed.
    pub(crate) failure: Option<Failure>,
}

/// A zone's desk.
#[derive(Drop)]
pub struct Desk {
    /// The last ticket given.
    pub(crate) last: u32,
    pub(crate) waiting: Vec<(u32, QueuedRequest)>,
    pub(crate) job: Option<Job>,
    /// The zone's state, where it is none of the stored ones.
    pub(crate) active: Option<ZoneState>,
}

impl Desk {
    /// A desk on which nothing was ever put. It takes no memory.
    pub fn new(alloc: Global) -> Self
        ensures { as_desk result ≡ empty_desk }
    {
        Self {
            last: 0,
            waiting: Vec::new(alloc),
            job: None,
            active: None,
        }
    }

    /// Whether it is as a new one.
    pub fn is_new(&self) -> bool
        ensures { result ≡ true → as_desk self.now ≡ empty_desk }
    {
        self.last == 0 && self.waiting.is_empty() && self.job.is_none() && self.active.is_none()
    }

    /// The zone's state, where it is none of the stored ones.
    pub fn active(&self) -> Option<ZoneState>
        ensures { result ≡ (as_desk self.now).active }
    {
        self.active
    }

    /// Whether as many requests wait as may, or the tickets are used up.
    pub fn is_full(&self) -> bool
        ensures { result ≡ is_full (as_desk self.now) }
    {
        self.waiting.len() >= REQUESTS_MAX || self.last == TICKET_MAX
    }

    /// Whether a request waits or is under way.
    pub fn has_request(&self) -> bool
        ensures { result ≡ has_request (as_desk self.now) }
    {
        self.job.is_some() || !self.waiting.is_empty()
    }

    /// Room for one more request that waits. Nothing is changed by it, whether or not memory runs out.
    pub fn reserve(&mut self) -> Result<(), AllocError>
        ensures desk { as_desk self.new ≡ as_desk self.old }
        ensures same { self.new ≡ record self.old { waiting = self.new.waiting } }
        ensures room { OnOk result (HasRequestRoom self.new) }
    {
        self.waiting.reserve(1)
    }

    /// Room for what a turn puts there, a step that a failure undoes. Nothing is changed by it, whether or not memory runs
    /// out. No turn of a halt takes any.
    pub fn reserve_turn(&mut self, case: &TurnCase) -> Result<(), AllocError>
        ensures desk { as_desk self.new ≡ as_desk self.old }
        ensures same { turn_decision_of self.new case.now ≡ turn_decision_of self.old case.now }
        ensures of { IsTurnOf self.old case.now → IsTurnOf self.new case.now }
        ensures room { OnOk result (HasTurnRoom self.new case.now) }
        ensures none { turn_takes_room case.now ≡ false → is_ok result ≡ true }
    {
        match (case, &mut self.job) {
            (TurnCase::GoOn(case), Some(job)) if takes_room(case) => job.made.reserve(1),
            _ => Ok(()),
        }
    }

    /// One more request waits, under the ticket that is answered.
    pub fn put(&mut self, request: QueuedRequest) -> u32
        requires of { is_full (as_desk self.old) ≡ false }
        requires room { HasRequestRoom self.old }
        ensures desk { as_desk self.new ≡ with_request (as_desk self.old) request }
        ensures ticket { result ≡ (as_desk self.old).last + 1 }
    {
        let ticket = self.last + 1;
        self.waiting.push_reserved((ticket, request));
        self.last = ticket;
        ticket
    }
}

// Whether a failure may undo a step.
fn is_undone(shown: &Step) -> bool
    ensures { result ≡ is_undone shown.now }
{
    matches!(
        shown,
        Step::Zid(_)
            | Step::Limits
            | Step::Devices(_)
            | Step::Root
            | Step::Mounted(_)
            | Step::Claimed(_)
    )
}

// Whether a case takes room on a desk.
fn takes_room(case: &JobCase) -> bool
    ensures { result ≡ takes_room case.now }
{
    match case {
        JobCase::Pass(pass) => is_undone(&pass.shown),
        JobCase::Ask(_, _) => true,
        _ => false,
    }
}

impl Job {
    // What a failure undoes of a step that is done.
    fn keep(&mut self, next: usize, shown: &Step)
        requires room { HasRoomToKeep self.old shown.now }
        requires planned { IsInPlan self.old.steps next shown.now }
        ensures made { reverse self.new.made.items ≡ made_after shown.now (reverse self.old.made.items) }
        ensures rest { drop next self.new.steps ≡ drop next self.old.steps }
        ensures same { self.new ≡ record self.old { steps = self.new.steps; made = self.new.made } }
    {
        match shown {
            Step::Zid(number) => self.made.push_reserved(Step::Zid(*number)),
            Step::Limits => self.made.push_reserved(Step::Limits),
            Step::Devices(count) => self.made.push_reserved(Step::Devices(*count)),
            Step::Root => self.made.push_reserved(Step::Root),
            Step::Mounted(_) | Step::Claimed(_) => {
                let done = self.steps.take(next);
                self.made.push_reserved(done);
            }
            Step::State(ZoneState::Ready) => self.made.clear(),
            _ => {}
        }
    }

    /// A step is done: the plan goes on at a place, and a failure may have to undo the step.
    pub(crate) fn pass(&mut self, next: usize, shown: &Step)
        requires goes { self.old.failure ≡ None }
        requires room { HasRoomToKeep self.old shown.now }
        requires planned { IsInPlan self.old.steps next shown.now }
        ensures { as_job self.new ≡ record (as_job self.old) { done = with_step shown.now (as_job self.old).done; stage = Goes (drop next self.old.steps) } }
    {
        self.keep(next, shown);
        self.place = self.place.saturating_add(1);
        self.at = next;
    }

    /// A step failed, and the request will end so.
    pub(crate) fn fail(&mut self, failure: Failure)
        requires { self.old.failure ≡ None }
        ensures { as_job self.new ≡ record (as_job self.old) { done = record (as_job self.old).done { made = [] }; stage = Fails (as_outcome failure) (as_job self.old).done.made } }
    {
        self.failure = Some(failure);
    }

    /// The latest step that is to be undone is taken off.
    pub(crate) fn take_made(&mut self) -> Step
        requires { IsSomeAnd self.old.failure (λ f. 0 < length self.old.made.items) }
        ensures { IsSomeAnd self.old.failure (λ f. ((as_job self.old).stage ≡ Fails (as_outcome f) (result ∷ reverse self.new.made.items))
            × (as_job self.new ≡ record (as_job self.old) { stage = Fails (as_outcome f) (reverse self.new.made.items) })) }
    {
        self.made.take_last()
    }
}
