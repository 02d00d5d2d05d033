//! What the next turn of a zone's daemon comes to.
ghost use Rattle.std.specs.Prelude.{◌≡◌, ◌∷◌, [], IfOk, IfSome, List, MatchOption, None, Option, Some, drop, false, true};
ghost use Rattle.std.specs.List.{list_all};
ghost use Rattle.std.specs.Option.{option_map};
ghost use Rattle.brand_hooks.specs.Brands.{place_of};
ghost use Rattle.datalink_table.specs.declared.claims.Claim as claim_types;
ghost use Rattle.loopback_mounts.specs.declared.mount.MountEntry as entries;
ghost use Rattle.zn_base.specs.Names.{Name};
ghost use Rattle.zone_pools.specs.Decisions.{Just};
ghost use Rattle.zoneadmd_steps.specs.Code.Cases.{IsFreeFor, IsJobCase, IsNamedJobCase, IsNamedTurn, IsTurnOf, as_objects, is_last, job_objects, job_turn, next_answer, object_edits, turn_decision_of, turn_objects};
ghost use Rattle.zoneadmd_steps.specs.Code.Desks.{as_desk, as_job};
ghost use Rattle.zoneadmd_steps.specs.Code.Rooms.{IsFree, takes_room, turn_takes_room};
ghost use Rattle.zoneadmd_steps.specs.Code.Shareds.{begun_or, case_turn, is_apart, seen_by};
ghost use Rattle.zoneadmd_steps.specs.Desks as desks;
ghost use Rattle.zoneadmd_steps.specs.Desks.{Goes};
ghost use Rattle.zoneadmd_steps.specs.Halts.{is_halt, is_halt_first, is_halt_job, is_halting, is_of_halt};
ghost use Rattle.zoneadmd_steps.specs.Plans.{kind_of, plan, refusal};
ghost use Rattle.zoneadmd_steps.specs.Turns as turns;
ghost use Rattle.zoneadmd_steps.specs.Turns.{begin, local_turn, next, next_request, no_progress, over, shared_next, shared_stage, shared_turn, started, turn, undo_edits};
ghost use Rattle.zoneadmd_steps.specs.declared.desks.Desk as desk_types;
ghost use Rattle.zoneadmd_steps.specs.declared.desks.Job as job_types;

use crate::ahead::{Ahead, find_ahead};
use crate::cases::{JobCase, TurnCase};
use crate::checks::refusal;
use crate::desks::{Desk, Job};
use crate::job_config::JobConfig;
use crate::local_cases::{latest, local_case};
use crate::objects::changes::ObjectEdit;
use crate::objects::{Objects, System};
use crate::plans::{may_begin, plan};
use crate::queued::QueuedRequest;
use crate::requests::{Failure, Outcome, Request, RequestKind, Step};
use crate::shared_cases::{release, step_case};
use brand_hooks::{BrandTables, HookAnswer};
use commit_journal::Row;
use std::alloc::{AllocError, Global};
use zn_base::{Text, ZoneName, ZoneState};

// The request that begins in a state.
#[inline(never)]
fn new_job(
    alloc: Global,
    brands: &BrandTables,
    ticket: u32,
    request: Request,
    state: ZoneState,
    row: &Row,
) -> Result<Box<Job>, AllocError>
    ensures { IfOk result (λ job. as_job job.value ≡ record { ticket = ticket; request = request; brand = place_of row.now.config.brand brands.now; config = row.now.config; done = no_progress; stage = Goes (plan request state row.now.config) }) }
{
    let config = JobConfig::stored(row.config.share()?);
    let steps = plan(alloc, &request, state, row.config.as_config())?;
    let job = Job {
        ticket,
        request,
        brand: brands.place(row.config.brand.bytes()),
        config,
        steps,
        at: 0,
        place: 1,
        made: Vec::new(alloc),
        failure: None,
    };
    Ok(Box::new(alloc, job)?)
}

// A request that is no halt begins in a state, or why it doesn't.
#[tactic(auto, using(crate::proofs::Keeping::others_keep))]
fn begin(
    alloc: Global,
    brands: &BrandTables,
    ticket: u32,
    request: Request,
    state: ZoneState,
    row: &Row,
) -> Result<Result<Box<Job>, Outcome>, AllocError>
    requires { is_halt request ≡ false }
    ensures { IfOk result (λ r. (d : desks.Desk) → started brands.now d ticket request state row.now (refusal brands.now (kind_of request) state row.now.config) ≡ begun_or d ticket r) }
{
    match refusal(alloc, brands, request.kind(), state, &row.config)? {
        Some(outcome) => Ok(Err(outcome)),
        None => Ok(Ok(new_job(alloc, brands, ticket, request, state, row)?)),
    }
}

fn first_waiting(waiting: &[(u32, QueuedRequest)]) -> Option<(u32, &Request)>
    ensures { MatchOption result (waiting.now ≡ []) (λ w. waiting.now ≡ (w.0, w.1.now) ∷ drop 1 waiting.now) }
{
    match waiting {
        [] => None,
        [first, ..] => Some((first.0, first.1.request())),
    }
}

// A halt is the first request that waits: it begins, or doesn't. It takes no memory.
#[inline(never)]
fn halt_case(desk: &Desk, ticket: u32, row: &Row, brands: &BrandTables) -> TurnCase
    requires { desk.now.waiting.items ≡ (ticket, Request.Halt) ∷ drop 1 desk.now.waiting.items }
    ensures decides { next_request brands.now (as_desk desk.now) (as_desk desk.now).waiting (Some row.now) ≡ turn_decision_of desk.now result }
    ensures of { IsTurnOf desk.now result }
    ensures free { (ms : List entries.MountEntry) (cs : List claim_types.Claim) → IsFreeFor (turn_objects result) ms cs }
    ensures named { (z : Name) → IsNamedTurn z result }
    ensures room { turn_takes_room result ≡ false }
{
    let state = desk.active.unwrap_or(row.state);
    if may_begin(RequestKind::Halt, state) {
        TurnCase::BeginHalt(brands.place(row.config.brand.bytes()))
    } else {
        TurnCase::Refuse(ticket, Outcome::WrongState(state))
    }
}

// The first request that waits is no halt: it begins, or doesn't.
#[inline(never)]
fn begin_case(
    alloc: Global,
    desk: &Desk,
    ticket: u32,
    request: &Request,
    row: &Row,
    brands: &BrandTables,
) -> Result<TurnCase, AllocError>
    requires first { desk.now.waiting.items ≡ (ticket, request.now) ∷ drop 1 desk.now.waiting.items }
    requires other { is_halt request.now ≡ false }
    ensures decides { IfOk result (λ c. next_request brands.now (as_desk desk.now) (as_desk desk.now).waiting (Some row.now) ≡ turn_decision_of desk.now c) }
    ensures of { IfOk result (IsTurnOf desk.now) }
    ensures free { IfOk result (λ c. (ms : List entries.MountEntry) (cs : List claim_types.Claim) → IsFreeFor (turn_objects c) ms cs) }
    ensures named { IfOk result (λ c. (z : Name) → IsNamedTurn z c) }
{
    let request = request.copy(alloc)?;
    let state = desk.active.unwrap_or(row.state);
    match begin(alloc, brands, ticket, request, state, row)? {
        Ok(job) => Ok(TurnCase::Begin(job)),
        Err(outcome) => Ok(TurnCase::Refuse(ticket, outcome)),
    }
}

// The first request that waits begins, or doesn't.
fn first_case(
    alloc: Global,
    desk: &Desk,
    row: &Row,
    brands: &BrandTables,
) -> Result<TurnCase, AllocError>
    ensures decides { IfOk result (λ c. next_request brands.now (as_desk desk.now) (as_desk desk.now).waiting (Some row.now) ≡ turn_decision_of desk.now c) }
    ensures of { IfOk result (IsTurnOf desk.now) }
    ensures free { IfOk result (λ c. (ms : List entries.MountEntry) (cs : List claim_types.Claim) → IsFreeFor (turn_objects c) ms cs) }
    ensures named { IfOk result (λ c. (z : Name) → IsNamedTurn z c) }
    ensures room { is_halt_first desk.now.waiting.items ≡ true → IsFree turn_takes_room result }
{
    match first_waiting(&desk.waiting) {
        None => Ok(TurnCase::Idle),
        Some((ticket, Request::Halt)) => Ok(halt_case(desk, ticket, row, brands)),
        Some((ticket, request)) => begin_case(alloc, desk, ticket, request, row, brands),
    }
}

// A reboot goes on as a boot of the zone as it is stored then, or ends.
#[inline(never)]
#[tactic(auto, using(crate::proofs::Goings::on_it))]
fn again(
    alloc: Global,
    desk: &Desk,
    job: &Job,
    args: &Text,
    row: &Row,
    brands: &BrandTables,
) -> Result<TurnCase, AllocError>
    requires { desk.now.job ≡ Some job.now }
    ensures decides { IfOk result (λ c. Just (begin brands.now (as_desk desk.now) job.now.ticket (Request.Boot args.now) row.now) ≡ turn_decision_of desk.now c) }
    ensures of { IfOk result (IsTurnOf desk.now) }
    ensures free { IfOk result (λ c. (ms : List entries.MountEntry) (cs : List claim_types.Claim) → IsFreeFor (turn_objects c) ms cs) }
    ensures named { IfOk result (λ c. (z : Name) → IsNamedTurn z c) }
{
    let request = Request::Boot(args.copy(alloc)?);
    let state = desk.active.unwrap_or(row.state);
    match begin(alloc, brands, job.ticket, request, state, row)? {
        Ok(job) => Ok(TurnCase::Again(job)),
        Err(outcome) => Ok(TurnCase::GoOn(JobCase::Finish(outcome))),
    }
}

// A plan is over: a reboot goes on as a boot, and any other request ends.
#[tactic(auto, using(crate::proofs::Goings::on_it))]
fn over_case(
    alloc: Global,
    desk: &Desk,
    job: &Job,
    row: Option<&Row>,
    brands: &BrandTables,
) -> Result<TurnCase, AllocError>
    requires { desk.now.job ≡ Some job.now }
    ensures decides { IfOk result (λ c. over brands.now (as_desk desk.now) (as_job job.now) (option_map (λ r. r.now) row.entry) job.now.request ≡ turn_decision_of desk.now c) }
    ensures of { IfOk result (IsTurnOf desk.now) }
    ensures free { IfOk result (λ c. (ms : List entries.MountEntry) (cs : List claim_types.Claim) → IsFreeFor (turn_objects c) ms cs) }
    ensures named { IfOk result (λ c. (z : Name) → IsNamedTurn z c) }
    ensures room { is_halt job.now.request ≡ true → IsFree turn_takes_room result }
{
    if let (Request::Reboot(args), Some(row)) = (&job.request, row) {
        return again(alloc, desk, job, args, row, brands);
    }
    Ok(TurnCase::GoOn(JobCase::Finish(Outcome::Done)))
}

// The request under way goes on; without a case there is no work.
fn go_on(case: Option<JobCase>) -> TurnCase
    ensures decides { (d : desk_types.Desk) (j : job_types.Job) → d.job ≡ Some j → case_turn (as_desk d) j case ≡ turn_decision_of d result }
    ensures of { (d : desk_types.Desk) (j : job_types.Job) → d.job ≡ Some j → IfSome case (IsJobCase j) → IsTurnOf d result }
    ensures free { (ms : List entries.MountEntry) (cs : List claim_types.Claim) → IfSome case (λ c. IsFreeFor (job_objects c) ms cs) → IsFreeFor (turn_objects result) ms cs }
    ensures named { (z : Name) → IfSome case (IsNamedJobCase z) → IsNamedTurn z result }
    ensures room { IfSome case (λ c. takes_room c ≡ false) → turn_takes_room result ≡ false }
{
    match case {
        Some(case) => TurnCase::GoOn(case),
        None => TurnCase::Idle,
    }
}

// What the plan of a request comes to, where that is no local turn.
fn plan_turn(
    alloc: Global,
    zone: &ZoneName,
    desk: &Desk,
    job: &Job,
    row: Option<&Row>,
    objects: Objects<'_>,
    system: System<'_>,
) -> Result<TurnCase, AllocError>
    requires job { desk.now.job ≡ Some job.now }
    requires goes { job.now.failure ≡ None }
    requires apart { is_apart (next (as_objects objects) (drop job.now.at job.now.steps)) ≡ true }
    ensures decides { IfOk result (λ c. shared_next (seen_by desk.now (option_map (λ r. r.now) row.entry) objects.entry system.entry) (as_job job.now) (next (as_objects objects.entry) (drop job.now.at job.now.steps)) ≡ turn_decision_of desk.now c) }
    ensures of { IfOk result (IsTurnOf desk.now) }
    ensures free { IfOk result (λ c. (ms : List entries.MountEntry) → IsFreeFor (turn_objects c) ms objects.entry.claims.now.claims) }
    ensures named { IfOk result (IsNamedTurn zone.now) }
    ensures room { is_halt job.now.request ≡ true → list_all is_of_halt (drop job.now.at job.now.steps) ≡ true → IsFree turn_takes_room result }
{
    match find_ahead(job.steps.as_slice(), job.at, objects.mounts, objects.claims) {
        Ahead::Nothing => over_case(alloc, desk, job, row, system.brands),
        Ahead::Step(planned, next) => {
            let case = step_case(alloc, zone, job, planned, next, row, objects, system)?;
            Ok(go_on(case))
        }
        Ahead::Claim(claim, at) => { Ok(go_on(Some(release(at, claim)))) }
        Ahead::Mount(_, _) => unreachable!(),
    }
}

// What undoes a step that is no local undo.
fn undo_edit(shown: &Step) -> ObjectEdit
    ensures edits { object_edits result ≡ undo_edits shown.now }
    ensures last { is_last result ≡ false }
    ensures free { (ms : List entries.MountEntry) (cs : List claim_types.Claim) → IsFreeFor result ms cs }
{
    match shown {
        Step::Zid(_) => ObjectEdit::EndIds,
        Step::Claimed(_) => ObjectEdit::EndClaim,
        _ => ObjectEdit::Nothing,
    }
}

// One step back, or the end of the request where none is left.
fn undo_turn(job: &Job, failure: Failure) -> JobCase
    requires { job.now.failure ≡ Some failure }
    ensures decides { (v : turns.Seen) → shared_stage v (as_job job.now) (as_job job.now).stage ≡ job_turn v.desk job.now result }
    ensures of { IsJobCase job.now result }
    ensures free { (ms : List entries.MountEntry) (cs : List claim_types.Claim) → IsFreeFor (job_objects result) ms cs }
    ensures named { (z : Name) → IsNamedJobCase z result }
    ensures room { takes_room result ≡ false }
{
    match latest(job) {
        Some(shown) => JobCase::Undo(undo_edit(shown)),
        None => JobCase::Finish(failure.outcome()),
    }
}

// The request under way goes on, where that is no local turn.
fn job_turn(
    alloc: Global,
    zone: &ZoneName,
    desk: &Desk,
    job: &Job,
    row: Option<&Row>,
    objects: Objects<'_>,
    system: System<'_>,
) -> Result<TurnCase, AllocError>
    requires job { desk.now.job ≡ Some job.now }
    requires apart { job.now.failure ≡ None → is_apart (next (as_objects objects) (drop job.now.at job.now.steps)) ≡ true }
    ensures decides { IfOk result (λ c. shared_stage (seen_by desk.now (option_map (λ r. r.now) row.entry) objects.entry system.entry) (as_job job.now) (as_job job.now).stage ≡ turn_decision_of desk.now c) }
    ensures of { IfOk result (IsTurnOf desk.now) }
    ensures free { IfOk result (λ c. (ms : List entries.MountEntry) → IsFreeFor (turn_objects c) ms objects.entry.claims.now.claims) }
    ensures named { IfOk result (IsNamedTurn zone.now) }
    ensures room { is_halt_job (as_job job.now) ≡ true → IsFree turn_takes_room result }
{
    match job.failure {
        None => plan_turn(alloc, zone, desk, job, row, objects, system),
        Some(failure) => Ok(go_on(Some(undo_turn(job, failure)))),
    }
}

// A turn that is not local.
#[tactic(auto, using(crate::proofs::Turn_kinds::nothing_stored))]
fn shared_case(
    alloc: Global,
    zone: &ZoneName,
    desk: &Desk,
    row: Option<&Row>,
    objects: Objects<'_>,
    system: System<'_>,
) -> Result<TurnCase, AllocError>
    requires { local_turn system.brands.now (as_objects objects) (as_desk desk.now) ≡ None }
    ensures decides { IfOk result (λ c. shared_turn (seen_by desk.now (option_map (λ r. r.now) row.entry) objects.entry system.entry) (as_desk desk.now).job ≡ turn_decision_of desk.now c) }
    ensures of { IfOk result (IsTurnOf desk.now) }
    ensures free { IfOk result (λ c. (ms : List entries.MountEntry) → IsFreeFor (turn_objects c) ms objects.entry.claims.now.claims) }
    ensures named { IfOk result (IsNamedTurn zone.now) }
    ensures room { is_halting (as_desk desk.now) ≡ true → IsFree turn_takes_room result }
{
    if let Some(job) = &desk.job {
        return job_turn(alloc, zone, desk, job, row, objects, system);
    }
    match row {
        Some(row) => first_case(alloc, desk, row, system.brands),
        None => Ok(TurnCase::Idle),
    }
}

/// What the next turn of a zone's daemon comes to, by the zone's desk and objects, what is stored of it, and what its daemon
/// finds on the system. The brand of the request under way answers `answer` where it is asked. On the turns of a halt it takes
/// no memory, and nor does what comes of it: a zone whose halt was accepted is not kept from going down by its daemon.
pub fn decide_turn(
    alloc: Global,
    zone: &ZoneName,
    desk: &Desk,
    row: Option<&Row>,
    objects: Objects<'_>,
    system: System<'_>,
    answer: HookAnswer,
) -> Result<TurnCase, AllocError>
    requires { answer ≡ next_answer system.brands.now (as_objects objects) (as_desk desk.now) }
    ensures decides { IfOk result (λ c. turn (record { desk = as_desk desk.now; objects = as_objects objects.entry; stored = option_map (λ r. r.now) row.entry; declared = system.entry.kernel.now.devices; brands = system.entry.brands.now }) ≡ turn_decision_of desk.now c) }
    ensures of { IfOk result (IsTurnOf desk.now) }
    ensures free { IfOk result (λ c. IsFreeFor (turn_objects c) objects.entry.mounts.now.list objects.entry.claims.now.claims) }
    ensures named { IfOk result (IsNamedTurn zone.now) }
    ensures room { is_halting (as_desk desk.now) ≡ true → IsFree turn_takes_room result }
{
    match local_case(alloc, desk, objects.mounts, objects.claims, answer)? {
        Some(case) => Ok(case),
        None => shared_case(alloc, zone, desk, row, objects, system),
    }
}
