//! How a turn is settled: the desk changes, and what else is to be done is told. No memory is taken, and nothing fails.
ghost use Rattle.std.specs.Prelude.{◌<◌, ◌≤◌, ◌≡◌, ◌∷◌, IfSome, None, Option, Some, drop, length, true, ℕ};
ghost use Rattle.zn_base.specs.Names.{Name};
ghost use Rattle.zone_pools.specs.Decisions as decisions;
ghost use Rattle.zoneadmd_steps.specs.Arrivals.{arrived, in_store};
ghost use Rattle.zoneadmd_steps.specs.Code.Cases.{IsJobCase, IsMoved, IsNamedCame, IsNamedJobCase, IsNamedTurn, IsNumberedCame, IsNumberedJobCase, IsNumberedTurn, IsTurnOf, IsHaltFirst, No_premise, active_with, comes_of, edits_under, halt_begun, job_active, job_objects, job_turn, object_edits, premise_of, shown_under, turn_active, turn_decision_of, turn_objects};
ghost use Rattle.zoneadmd_steps.specs.Code.Desks.{as_desk, as_job};
ghost use Rattle.zoneadmd_steps.specs.Code.Rooms.{HasJobRoom, HasMadeRoom, HasTurnRoom};
ghost use Rattle.zoneadmd_steps.specs.Code.Works.{arrival_of, rest_of_turn, turn_work, unless_ended};
ghost use Rattle.zoneadmd_steps.specs.Desks as desks;
ghost use Rattle.std.specs.List.{list_all};
ghost use Rattle.zoneadmd_steps.specs.Local.{is_of_own};
ghost use Rattle.zoneadmd_steps.specs.Plans.{kind_of};
ghost use Rattle.zoneadmd_steps.specs.Turns.{active_after};

use crate::cases::{JobCase, TurnCase};
use crate::desks::{Desk, Job};
use crate::job_config::JobConfig;
use crate::objects::changes::{Came, ObjectEdit};
use crate::queued::QueuedRequest;
use crate::requests::{Failure, Outcome, Request, RequestKind, Step, TurnReply};
use commit_journal::Row;
use std::alloc::Global;
use zn_base::{ZoneName, ZoneState};
use zone_pools::{Grant, number_in};

/// A record that is stored, and the name of the zone whose it is.
#[derive(Drop)]
pub struct Stored {
    pub row: Box<Row>,
    pub owner: ZoneName,
}

/// What a turn does beside its change of the desk, and once what comes to the kernel is there. Where the last mount or the
/// latest claim goes, the reply lacks its directory or item until it is filled.
#[derive(Drop)]
pub struct TurnWork {
    pub stored: Option<Stored>,
    pub objects: ObjectEdit,
    /// The ticket that ended.
    pub ended: Option<u32>,
    pub reply: TurnReply,
}

impl TurnWork {
    // A turn that does this to the objects.
    fn turned(objects: ObjectEdit, reply: TurnReply) -> Self
        ensures { result ≡ record { stored = None; objects = objects; ended = None; reply = reply } }
    {
        Self {
            stored: None,
            objects,
            ended: None,
            reply,
        }
    }

    // A turn with which a request ends.
    fn finished(ticket: u32, outcome: Outcome) -> Self
        ensures { result ≡ record { stored = None; objects = ObjectEdit.Nothing; ended = Some ticket; reply = TurnReply.Finished ticket outcome } }
    {
        Self {
            stored: None,
            objects: ObjectEdit::Nothing,
            ended: Some(ticket),
            reply: TurnReply::Finished(ticket, outcome),
        }
    }
}

fn active_after(to: ZoneState) -> Option<ZoneState>
    ensures { result ≡ active_after to }
{
    match to {
        ZoneState::Installed => None,
        _ => Some(to),
    }
}

// The zone's state on its desk after a step.
fn active_with(shown: &Step, active: Option<ZoneState>) -> Option<ZoneState>
    ensures { result ≡ active_with shown.now active }
{
    match shown {
        Step::State(to) => active_after(*to),
        _ => active,
    }
}

// The step that asked for what comes, as it is told under the number, what it does beside, and what is stored. A process, an id
// and a claim have come to the kernel already.
fn given(it: Came, number: u32) -> (Step, ObjectEdit, Option<Stored>)
    requires { IsMoved it → 1 ≤ number }
    ensures shown { result.0 ≡ shown_under it number }
    ensures edits { object_edits result.1 ≡ edits_under it }
    ensures premise { premise_of result.1 ≡ No_premise }
    ensures own { list_all is_of_own (object_edits result.1) ≡ true }
    ensures stored { arrival_of result.2 ≡ in_store (Some (arrived (comes_of it) number)) }
    ensures named { (z : Name) → IsNamedCame z it → IfSome result.2 (λ s. s.owner ≡ z) }
{
    match it {
        Came::Process(_, args) => (
            Step::Init(Some(number)),
            ObjectEdit::SetBootargs(args),
            None,
        ),
        Came::Id => (Step::Zid(Some(number)), ObjectEdit::Nothing, None),
        Came::Claim(claim) => (Step::Claimed(claim), ObjectEdit::Nothing, None),
        Came::Record(row, owner) => (
            Step::Record(row.state),
            ObjectEdit::Nothing,
            Some(Stored { row, owner }),
        ),
        Came::Moved(mut row, owner, _) => {
            row.set_revision(number);
            (
                Step::Moved,
                ObjectEdit::Nothing,
                Some(Stored { row, owner }),
            )
        }
        Came::Source(source) => (Step::Source(source), ObjectEdit::Nothing, None),
    }
}

// A step asks pools for what comes.
fn ask(job: &mut Job, it: Came, next: usize, grant: Grant) -> TurnWork
    requires of { IsJobCase job.old (JobCase.Ask it next) }
    requires room { HasMadeRoom job.old }
    requires numbered { IsNumberedCame it grant }
    ensures act { (d : desks.Desk) → rest_of_turn (decisions.act_of arrived (job_turn d job.old (JobCase.Ask it next)) grant) ≡ turn_work result (record d { job = unless_ended result.ended (as_job job.new) }) }
    ensures premise { premise_of result.objects ≡ No_premise }
    ensures own { list_all is_of_own (object_edits result.objects) ≡ true }
    ensures named { (z : Name) → IsNamedCame z it → IfSome result.stored (λ s. s.owner ≡ z) }
{
    match number_in(grant) {
        Ok(number) => {
            let (shown, objects, stored) = given(it, number);
            job.pass(next, &shown);
            TurnWork {
                stored,
                ..TurnWork::turned(objects, TurnReply::Stepped(shown))
            }
        }
        Err(pool) => {
            let failure = Failure::Denied(pool);
            job.fail(failure);
            TurnWork::turned(
                ObjectEdit::Nothing,
                TurnReply::Failed(job.place, failure.outcome()),
            )
        }
    }
}

// The request under way goes on, or ends.
#[tactic(auto, using(crate::proofs::Telling::told_as_is))]
fn settle_job(
    job: &mut Job,
    active: &mut Option<ZoneState>,
    case: JobCase,
    grant: Grant,
) -> TurnWork
    requires of { IsJobCase job.old case }
    requires room { HasJobRoom job.old case }
    requires numbered { IsNumberedJobCase case grant }
    ensures act { (d : desks.Desk) → d.job ≡ Some (as_job job.old) → d.active ≡ active.old → rest_of_turn (decisions.act_of arrived (job_turn d job.old case) grant) ≡ turn_work result (record d { job = unless_ended result.ended (as_job job.new); active = active.new }) }
    ensures premise { premise_of result.objects ≡ premise_of (job_objects case) }
    ensures own { list_all is_of_own (object_edits (job_objects case)) ≡ true → list_all is_of_own (object_edits result.objects) ≡ true }
    ensures active { active.new ≡ job_active case active.old }
    ensures named { (z : Name) → IsNamedJobCase z case → IfSome result.stored (λ s. s.owner ≡ z) }
{
    match case {
        JobCase::Finish(outcome) => TurnWork::finished(job.ticket, outcome),
        JobCase::Pass(pass) => {
            job.pass(pass.next, &pass.shown);
            *active = active_with(&pass.shown, *active);
            TurnWork::turned(pass.objects, TurnReply::Stepped(pass.shown))
        }
        JobCase::Unmounts(dir, next) => {
            job.pass(next, &Step::Unmount(None));
            TurnWork::turned(
                ObjectEdit::UnmountLast(dir),
                TurnReply::Stepped(Step::Unmount(None)),
            )
        }
        JobCase::Releases(claim, next) => {
            job.pass(next, &Step::Release(None));
            TurnWork::turned(
                ObjectEdit::ReleaseLast(claim),
                TurnReply::Stepped(Step::Release(None)),
            )
        }
        JobCase::Ask(it, next) => ask(job, it, next, grant),
        JobCase::Fail(failure) => {
            job.fail(failure);
            TurnWork::turned(
                ObjectEdit::Nothing,
                TurnReply::Failed(job.place, failure.outcome()),
            )
        }
        JobCase::Undo(objects) => {
            let shown = job.take_made();
            TurnWork::turned(objects, TurnReply::Undone(shown))
        }
        JobCase::Stuck => TurnWork::turned(ObjectEdit::Nothing, TurnReply::Stuck),
    }
}

fn take_first(waiting: &mut Vec<(u32, QueuedRequest)>) -> (u32, QueuedRequest)
    requires { 0 < length waiting.old.items }
    ensures { waiting.old.items ≡ result ∷ waiting.new.items }
{
    waiting.remove(0)
}

fn drop_first(waiting: &mut Vec<(u32, QueuedRequest)>)
    requires { 0 < length waiting.old.items }
    ensures { waiting.new.items ≡ drop 1 waiting.old.items }
{
    take_first(waiting);
}

// The first request that waits is a halt, and is under way from now on. It keeps no configuration.
#[inline(never)]
fn begin_halt(alloc: Global, desk: &mut Desk, brand: Option<usize>) -> TurnWork
    requires { IsHaltFirst desk.old.waiting.items }
    ensures act { (grant : Grant) → rest_of_turn (decisions.act_of arrived (halt_begun desk.old desk.old.waiting.items brand) grant) ≡ turn_work result (as_desk desk.new) }
    ensures premise { premise_of result.objects ≡ No_premise }
    ensures own { list_all is_of_own (object_edits result.objects) ≡ true }
    ensures active { desk.new.active ≡ desk.old.active }
    ensures stored { result.stored ≡ None }
{
    let (ticket, queued) = take_first(&mut desk.waiting);
    desk.job = Some(Job {
        ticket,
        request: Request::Halt,
        brand,
        config: JobConfig::blank(alloc),
        steps: queued.into_halt_plan(),
        at: 0,
        place: 1,
        made: Vec::new(alloc),
        failure: None,
    });
    TurnWork::turned(
        ObjectEdit::Nothing,
        TurnReply::Began(ticket, RequestKind::Halt),
    )
}

// A request is under way from now on: what is told.
#[inline(never)]
fn put_job(desk: &mut Desk, job: Box<Job>) -> TurnWork
    ensures desk { desk.new ≡ record desk.old { job = Some job.value } }
    ensures work { result ≡ record { stored = None; objects = ObjectEdit.Nothing; ended = None; reply = TurnReply.Began job.value.ticket (kind_of job.value.request) } }
{
    let ticket = job.ticket;
    let kind = job.request.kind();
    desk.job = Some(Box::into_inner(job));
    TurnWork::turned(ObjectEdit::Nothing, TurnReply::Began(ticket, kind))
}

// No request is under way any more.
#[inline(never)]
fn end_job(desk: &mut Desk)
    ensures { desk.new ≡ record desk.old { job = None } }
{
    desk.job = None;
}

/// A turn is settled on the desk under a grant: what else is to be done. It takes no memory. Where the last mount or the
/// latest claim goes, the reply is to be filled with what goes.
pub fn settle_turn(alloc: Global, desk: &mut Desk, case: TurnCase, grant: Grant) -> TurnWork
    requires of { IsTurnOf desk.old case }
    requires room { HasTurnRoom desk.old case }
    requires numbered { IsNumberedTurn case grant }
    ensures act { rest_of_turn (decisions.act_of arrived (turn_decision_of desk.old case) grant) ≡ turn_work result (as_desk desk.new) }
    ensures premise { premise_of result.objects ≡ premise_of (turn_objects case) }
    ensures own { list_all is_of_own (object_edits (turn_objects case)) ≡ true → list_all is_of_own (object_edits result.objects) ≡ true }
    ensures active { desk.new.active ≡ turn_active case desk.old.active }
    ensures named { (z : Name) → IsNamedTurn z case → IfSome result.stored (λ s. s.owner ≡ z) }
{
    match case {
        TurnCase::Idle => TurnWork::turned(ObjectEdit::Nothing, TurnReply::Idle),
        TurnCase::Begin(job) => {
            drop_first(&mut desk.waiting);
            put_job(desk, job)
        }
        TurnCase::BeginHalt(brand) => begin_halt(alloc, desk, brand),
        TurnCase::Refuse(ticket, outcome) => {
            drop_first(&mut desk.waiting);
            end_job(desk);
            TurnWork::finished(ticket, outcome)
        }
        TurnCase::Again(job) => put_job(desk, job),
        TurnCase::GoOn(case) => match &mut desk.job {
            Some(job) => {
                let work = settle_job(job, &mut desk.active, case, grant);
                if work.ended.is_some() {
                    end_job(desk);
                }
                work
            }
            None => unreachable!(),
        },
    }
}
