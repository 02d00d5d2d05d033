//! What the next turn of a zone's daemon comes to, where it touches nothing which other zones may ask.
ghost use Rattle.std.specs.Prelude.{◌≡◌, ◌<◌, ◌-◌, ◌∷◌, [], IfNone, IfOk, IfSome, IsSomeAnd, IsTrue, List, None, Option, Some, drop, false, is_some, length, slice_get, true};
ghost use Rattle.std.specs.List.{list_all};
ghost use Rattle.brand_hooks.specs.Brands.{Tabled, answer_of};
ghost use Rattle.datalink_table.specs.declared.claims.Claim as claim_types;
ghost use Rattle.loopback_mounts.specs.Mounts.{is_held, last_of, mount_at};
ghost use Rattle.loopback_mounts.specs.declared.mount.MountEntry as entries;
ghost use Rattle.zn_base.specs.declared.state.ZoneState as states;
ghost use Rattle.zone_pools.specs.Decisions.{Just};
ghost use Rattle.zoneadmd_steps.specs.Code.Cases.{IsFreeFor, IsInPlan, IsJobCase, IsTurnOf, heard, hook_of, is_last, job_active, job_objects, job_turn, next_answer, object_edits, stage_hook, turn_active, turn_decision_of, turn_objects};
ghost use Rattle.zoneadmd_steps.specs.Code.Desks.{as_desk, as_job};
ghost use Rattle.zoneadmd_steps.specs.Code.Locals.{IsLocal};
ghost use Rattle.zoneadmd_steps.specs.Code.Rooms.{IsSomeFree, takes_room, turn_takes_room};
ghost use Rattle.zoneadmd_steps.specs.Configs.{fs_mount, limits_by, root_dir, root_mount};
ghost use Rattle.zoneadmd_steps.specs.Desks as desks;
ghost use Rattle.zoneadmd_steps.specs.Desks.{Fails};
ghost use Rattle.zoneadmd_steps.specs.Halts.{halts_by, is_halting, is_of_halt};
ghost use Rattle.zoneadmd_steps.specs.Local.{is_of_own};
ghost use Rattle.zoneadmd_steps.specs.Objects as objects;
ghost use Rattle.zoneadmd_steps.specs.Objects.{Ids_change};
ghost use Rattle.zoneadmd_steps.specs.Turns.{A_step, advance, hooked, local_next, local_stage, local_step, local_turn, local_undo, mounting, next, undo_mount, unmount_last};
ghost use Rattle.zoneadmd_steps.specs.declared.desks.Job as job_types;
ghost use Rattle.zoneadmd_steps.specs.declared.requests.Outcome as outcomes;
ghost use Rattle.zoneadmd_steps.specs.declared.requests.Step as steps;

use crate::ahead::{Ahead, find_ahead};
use crate::cases::{JobCase, Pass, TurnCase};
use crate::configs::{fs_mount, limits_by, root_dir, root_mount};
use crate::desks::{Desk, Job};
use crate::objects::changes::ObjectEdit;
use crate::requests::{Failure, Step};
use brand_hooks::{Change, HookAnswer};
use datalink_table::ClaimCell;
use loopback_mounts::{Mount, MountCell, MountEntry};
use std::alloc::{AllocError, Global};
use std::snapshot::Snapshot;
use zn_base::AbsPath;
use zone_config::ZoneConfig;

/// A step is done with what it does to the objects.
pub(crate) fn changed(next: usize, objects: ObjectEdit, shown: Step) -> JobCase
    ensures { result ≡ JobCase.Pass (record { next = next; objects = objects; shown = shown }) }
{
    JobCase::Pass(Pass {
        next,
        objects,
        shown,
    })
}

/// A step is done that changes no objects.
pub(crate) fn passed(next: usize, shown: Step) -> JobCase
    ensures { result ≡ JobCase.Pass (record { next = next; objects = ObjectEdit.Nothing; shown = shown }) }
{
    changed(next, ObjectEdit::Nothing, shown)
}

// The brand lets the change proceed, or refuses it.
fn hooked(next: usize, change: Change, answer: HookAnswer) -> JobCase
    ensures decides { (d : desks.Desk) (j : job_types.Job) → Just (hooked d (as_job j) (drop next j.steps) change answer) ≡ job_turn d j result }
    ensures of { (j : job_types.Job) → j.failure ≡ None → IsJobCase j result }
    ensures free { (ms : List entries.MountEntry) (cs : List claim_types.Claim) → IsFreeFor (job_objects result) ms cs }
    ensures own { list_all is_of_own (object_edits (job_objects result)) ≡ true }
    ensures active { (a : Option states.ZoneState) → job_active result a ≡ a }
    ensures room { takes_room result ≡ false }
{
    match answer {
        HookAnswer::Proceed => passed(next, Step::Hook(change)),
        HookAnswer::Refuse(code) => JobCase::Fail(Failure::HookRefused(code)),
    }
}

// The zone's limits are set.
#[inline(never)]
fn set_limits(alloc: Global, next: usize, config: &ZoneConfig) -> Result<JobCase, AllocError>
    ensures decides { IfOk result (λ c. (d : desks.Desk) (j : job_types.Job) → Just (advance d (as_job j) (drop next j.steps) (Ids_change (limits_by config.now) ∷ []) Step.Limits) ≡ job_turn d j c) }
    ensures of { IfOk result (λ c. (j : job_types.Job) → j.failure ≡ None → IsJobCase j c) }
    ensures free { IfOk result (λ c. (ms : List entries.MountEntry) (cs : List claim_types.Claim) → IsFreeFor (job_objects c) ms cs) }
    ensures own { IfOk result (λ c. list_all is_of_own (object_edits (job_objects c)) ≡ true) }
    ensures active { IfOk result (λ c. (a : Option states.ZoneState) → job_active c a ≡ a) }
{
    let limits = limits_by(alloc, config)?;
    let limits = Box::new(alloc, limits)?;
    Ok(changed(next, ObjectEdit::SetLimits(limits), Step::Limits))
}

// A mount comes where it may.
fn mounting(alloc: Global, mount: Mount, mounts: &MountCell) -> Result<ObjectEdit, AllocError>
    ensures edits { IfOk result (λ objects. object_edits objects ≡ mounting mount mounts.now.list) }
    ensures last { IfOk result (λ objects. is_last objects ≡ false) }
    ensures own { IfOk result (λ objects. list_all is_of_own (object_edits objects) ≡ true) }
    ensures free { IfOk result (λ objects. (cs : List claim_types.Claim) → IsFreeFor objects mounts.now.list cs) }
{
    match mounts.check_mount(&mount.dir) {
        Ok(()) => Ok(ObjectEdit::Mount(Box::new(alloc, mount)?)),
        Err(_) => Ok(ObjectEdit::Nothing),
    }
}

// The zone's root is mounted.
#[inline(never)]
fn mount_root(
    alloc: Global,
    next: usize,
    config: &ZoneConfig,
    mounts: &MountCell,
) -> Result<JobCase, AllocError>
    ensures decides { IfOk result (λ c. (d : desks.Desk) (j : job_types.Job) → Just (advance d (as_job j) (drop next j.steps) (mounting (root_mount config.now) mounts.now.list) Step.Root) ≡ job_turn d j c) }
    ensures of { IfOk result (λ c. (j : job_types.Job) → j.failure ≡ None → IsJobCase j c) }
    ensures free { IfOk result (λ c. (cs : List claim_types.Claim) → IsFreeFor (job_objects c) mounts.now.list cs) }
    ensures own { IfOk result (λ c. list_all is_of_own (object_edits (job_objects c)) ≡ true) }
    ensures active { IfOk result (λ c. (a : Option states.ZoneState) → job_active c a ≡ a) }
{
    let mount = root_mount(alloc, config)?;
    let objects = mounting(alloc, mount, mounts)?;
    Ok(changed(next, objects, Step::Root))
}

// A file system of the configuration is mounted.
#[inline(never)]
fn mount_fs(
    alloc: Global,
    next: usize,
    config: &ZoneConfig,
    dir: &AbsPath,
    mounts: &MountCell,
) -> Result<JobCase, AllocError>
    ensures decides { IfOk result (λ c. (d : desks.Desk) (j : job_types.Job) → Just (advance d (as_job j) (drop next j.steps) (mounting (fs_mount config.now dir.now) mounts.now.list) (Step.Mounted dir.now)) ≡ job_turn d j c) }
    ensures of { IfOk result (λ c. (j : job_types.Job) → j.failure ≡ None → IsInPlan j.steps next (Step.Mounted dir.now) → IsJobCase j c) }
    ensures free { IfOk result (λ c. (cs : List claim_types.Claim) → IsFreeFor (job_objects c) mounts.now.list cs) }
    ensures own { IfOk result (λ c. list_all is_of_own (object_edits (job_objects c)) ≡ true) }
    ensures active { IfOk result (λ c. (a : Option states.ZoneState) → job_active c a ≡ a) }
{
    let shown = dir.copy(alloc)?;
    let mount = fs_mount(alloc, config, dir)?;
    let objects = mounting(alloc, mount, mounts)?;
    Ok(changed(next, objects, Step::Mounted(shown)))
}

// What a step that is next comes to, where that is local; the plan then goes on at `next`.
fn step_case(
    alloc: Global,
    job: &Job,
    planned: &Step,
    next: usize,
    mounts: &MountCell,
    answer: HookAnswer,
) -> Result<Option<JobCase>, AllocError>
    requires goes { job.now.failure ≡ None }
    requires planned { (0 < next) × (slice_get job.now.steps (next - 1) ≡ Some planned.now) }
    ensures some { IfOk result (λ o. IfSome o (λ c. (brands : List Tabled) (x : objects.Objects) (d : desks.Desk) → x.mounts ≡ mounts.now.list
        → answer ≡ heard brands (hook_of (as_job job.now) (A_step planned.now (drop next job.now.steps)))
        → IsLocal d job.now c (local_step brands x d (as_job job.now) (drop next job.now.steps) planned.now))) }
    ensures none { IfOk result (λ o. o ≡ None → (brands : List Tabled) (x : objects.Objects) (d : desks.Desk) → local_step brands x d (as_job job.now) (drop next job.now.steps) planned.now ≡ None) }
    ensures of { IfOk result (λ o. IfSome o (IsJobCase job.now)) }
    ensures free { IfOk result (λ o. IfSome o (λ c. (cs : List claim_types.Claim) → IsFreeFor (job_objects c) mounts.now.list cs)) }
    ensures own { IfOk result (λ o. IfSome o (λ c. list_all is_of_own (object_edits (job_objects c)) ≡ true)) }
    ensures active { IfOk result (λ o. IfSome o (λ c. (a : Option states.ZoneState) → job_active c a ≡ a)) }
    ensures room { is_of_halt planned.now ≡ true → IsSomeFree takes_room result }
{
    match planned {
        Step::Hook(change) => Ok(Some(hooked(next, *change, answer))),
        Step::Copy(part) => Ok(Some(passed(next, Step::Copy(*part)))),
        Step::Erase(part) => Ok(Some(passed(next, Step::Erase(*part)))),
        Step::Limits => Ok(Some(set_limits(alloc, next, job.config.as_config())?)),
        Step::Root => Ok(Some(mount_root(alloc, next, job.config.as_config(), mounts)?)),
        Step::Mounted(dir) => Ok(Some(mount_fs(alloc, next, job.config.as_config(), dir, mounts)?)),
        _ => Ok(None),
    }
}

// The last mount goes, unless it is held, and the plan stays where it is.
fn unmount_case(at: usize, entry: &MountEntry) -> JobCase
    ensures decides { (d : desks.Desk) (j : job_types.Job) → Just (unmount_last d (as_job j) (drop at j.steps) entry.now) ≡ job_turn d j result }
    ensures of { (j : job_types.Job) → j.failure ≡ None → IsJobCase j result }
    ensures free { (ms : List entries.MountEntry) (cs : List claim_types.Claim) → last_of ms ≡ Some entry.now → IsFreeFor (job_objects result) ms cs }
    ensures own { list_all is_of_own (object_edits (job_objects result)) ≡ true }
    ensures active { (a : Option states.ZoneState) → job_active result a ≡ a }
    ensures room { takes_room result ≡ false }
{
    if entry.held {
        JobCase::Stuck
    } else {
        JobCase::Unmounts(Snapshot::of(&entry.mount.dir), at)
    }
}

// What the plan of a request comes to, where that is local.
fn plan_case(
    alloc: Global,
    job: &Job,
    mounts: &MountCell,
    claims: &ClaimCell,
    answer: HookAnswer,
) -> Result<Option<JobCase>, AllocError>
    requires goes { job.now.failure ≡ None }
    ensures some { IfOk result (λ o. IfSome o (λ c. (brands : List Tabled) (x : objects.Objects) (d : desks.Desk) → x.mounts ≡ mounts.now.list → x.claims ≡ claims.now.claims
        → answer ≡ heard brands (hook_of (as_job job.now) (next x (drop job.now.at job.now.steps)))
        → IsLocal d job.now c (local_next brands x d (as_job job.now) (next x (drop job.now.at job.now.steps))))) }
    ensures none { IfOk result (λ o. o ≡ None → (brands : List Tabled) (x : objects.Objects) (d : desks.Desk) → x.mounts ≡ mounts.now.list → x.claims ≡ claims.now.claims
        → local_next brands x d (as_job job.now) (next x (drop job.now.at job.now.steps)) ≡ None) }
    ensures of { IfOk result (λ o. IfSome o (IsJobCase job.now)) }
    ensures free { IfOk result (λ o. IfSome o (λ c. IsFreeFor (job_objects c) mounts.now.list claims.now.claims)) }
    ensures own { IfOk result (λ o. IfSome o (λ c. list_all is_of_own (object_edits (job_objects c)) ≡ true)) }
    ensures active { IfOk result (λ o. IfSome o (λ c. (a : Option states.ZoneState) → job_active c a ≡ a)) }
    ensures room { list_all is_of_halt (drop job.now.at job.now.steps) ≡ true → IsSomeFree takes_room result }
{
    match find_ahead(job.steps.as_slice(), job.at, mounts, claims) {
        Ahead::Step(planned, next) => step_case(alloc, job, planned, next, mounts, answer),
        Ahead::Mount(entry, at) => Ok(Some(unmount_case(at, entry))),
        Ahead::Nothing | Ahead::Claim(_, _) => Ok(None),
    }
}

// Whether the mount at a directory is held.
fn is_held(mounts: &MountCell, dir: &AbsPath) -> bool
    ensures { result ≡ is_held (mount_at dir.now mounts.now.list) }
{
    match mounts.find(dir) {
        Some(entry) => entry.held,
        None => false,
    }
}

// A mount goes again, unless it is held.
fn undo_mount(alloc: Global, dir: &AbsPath, mounts: &MountCell) -> Result<JobCase, AllocError>
    ensures decides { IfOk result (λ c. (x : objects.Objects) (d : desks.Desk) (j : job_types.Job) (outcome : outcomes.Outcome) (shown : steps.Step) (rest : List steps.Step)
        → x.mounts ≡ mounts.now.list → (as_job j).stage ≡ Fails outcome (shown ∷ rest) → Just (undo_mount x d (as_job j) outcome rest dir.now shown) ≡ job_turn d j c) }
    ensures of { IfOk result (λ c. (j : job_types.Job) → IsSomeAnd j.failure (λ f. 0 < length j.made.items) → IsJobCase j c) }
    ensures free { IfOk result (λ c. (ms : List entries.MountEntry) (cs : List claim_types.Claim) → IsFreeFor (job_objects c) ms cs) }
    ensures own { IfOk result (λ c. list_all is_of_own (object_edits (job_objects c)) ≡ true) }
    ensures active { IfOk result (λ c. (a : Option states.ZoneState) → job_active c a ≡ a) }
{
    if is_held(mounts, dir) {
        return Ok(JobCase::Stuck);
    }
    Ok(JobCase::Undo(ObjectEdit::Unmount(dir.copy(alloc)?)))
}

// The zone's root goes again, unless it is held.
fn undo_root(alloc: Global, mounts: &MountCell) -> Result<JobCase, AllocError>
    ensures decides { IfOk result (λ c. (x : objects.Objects) (d : desks.Desk) (j : job_types.Job) (outcome : outcomes.Outcome) (shown : steps.Step) (rest : List steps.Step)
        → x.mounts ≡ mounts.now.list → (as_job j).stage ≡ Fails outcome (shown ∷ rest) → Just (undo_mount x d (as_job j) outcome rest root_dir shown) ≡ job_turn d j c) }
    ensures of { IfOk result (λ c. (j : job_types.Job) → IsSomeAnd j.failure (λ f. 0 < length j.made.items) → IsJobCase j c) }
    ensures free { IfOk result (λ c. (ms : List entries.MountEntry) (cs : List claim_types.Claim) → IsFreeFor (job_objects c) ms cs) }
    ensures own { IfOk result (λ c. list_all is_of_own (object_edits (job_objects c)) ≡ true) }
    ensures active { IfOk result (λ c. (a : Option states.ZoneState) → job_active c a ≡ a) }
{
    let root = root_dir(alloc)?;
    undo_mount(alloc, &root, mounts)
}

// A step back, where that is local.
fn undo_step(alloc: Global, shown: &Step, mounts: &MountCell) -> Result<Option<JobCase>, AllocError>
    ensures some { IfOk result (λ o. IfSome o (λ c. (x : objects.Objects) (d : desks.Desk) (j : job_types.Job) (outcome : outcomes.Outcome) (rest : List steps.Step)
        → x.mounts ≡ mounts.now.list → (as_job j).stage ≡ Fails outcome (shown.now ∷ rest) → IsLocal d j c (local_undo x d (as_job j) outcome rest shown.now))) }
    ensures none { IfOk result (λ o. o ≡ None → (x : objects.Objects) (d : desks.Desk) (j : desks.Job) (outcome : outcomes.Outcome) (rest : List steps.Step)
        → local_undo x d j outcome rest shown.now ≡ None) }
    ensures of { IfOk result (λ o. IfSome o (λ c. (j : job_types.Job) → IsSomeAnd j.failure (λ f. 0 < length j.made.items) → IsJobCase j c)) }
    ensures free { IfOk result (λ o. IfSome o (λ c. (ms : List entries.MountEntry) (cs : List claim_types.Claim) → IsFreeFor (job_objects c) ms cs)) }
    ensures own { IfOk result (λ o. IfSome o (λ c. list_all is_of_own (object_edits (job_objects c)) ≡ true)) }
    ensures active { IfOk result (λ o. IfSome o (λ c. (a : Option states.ZoneState) → job_active c a ≡ a)) }
{
    match shown {
        Step::Limits => Ok(Some(JobCase::Undo(ObjectEdit::ClearLimits))),
        Step::Devices(_) => Ok(Some(JobCase::Undo(ObjectEdit::DropDevices))),
        Step::Root => Ok(Some(undo_root(alloc, mounts)?)),
        Step::Mounted(dir) => Ok(Some(undo_mount(alloc, dir, mounts)?)),
        _ => Ok(None),
    }
}

// The latest step that is to be undone.
pub(crate) fn latest(job: &Job) -> Option<&Step>
    requires { is_some job.now.failure ≡ true }
    ensures some { IfSome result (λ shown. (outcome : outcomes.Outcome) × (rest : List steps.Step) × ((as_job job.now).stage ≡ Fails outcome (shown.now ∷ rest))) }
    ensures made { IfSome result (λ shown. IsSomeAnd job.now.failure (λ f. 0 < length job.now.made.items)) }
    ensures none { IfNone result (job.now.made.items ≡ []) }
{
    match job.made.split_last() {
        Some((shown, _)) => Some(shown),
        None => None,
    }
}

// What a failed request comes to, where that is local.
fn undo_case(alloc: Global, job: &Job, mounts: &MountCell) -> Result<Option<JobCase>, AllocError>
    requires { is_some job.now.failure ≡ true }
    ensures some { IfOk result (λ o. IfSome o (λ c. (brands : List Tabled) (x : objects.Objects) (d : desks.Desk) → x.mounts ≡ mounts.now.list
        → IsLocal d job.now c (local_stage brands x d (as_job job.now) (as_job job.now).stage))) }
    ensures none { IfOk result (λ o. o ≡ None → (brands : List Tabled) (x : objects.Objects) (d : desks.Desk)
        → local_stage brands x d (as_job job.now) (as_job job.now).stage ≡ None) }
    ensures of { IfOk result (λ o. IfSome o (IsJobCase job.now)) }
    ensures free { IfOk result (λ o. IfSome o (λ c. (ms : List entries.MountEntry) (cs : List claim_types.Claim) → IsFreeFor (job_objects c) ms cs)) }
    ensures own { IfOk result (λ o. IfSome o (λ c. list_all is_of_own (object_edits (job_objects c)) ≡ true)) }
    ensures active { IfOk result (λ o. IfSome o (λ c. (a : Option states.ZoneState) → job_active c a ≡ a)) }
    ensures room { halts_by (as_job job.now).stage ≡ true → IsSomeFree takes_room result }
{
    match latest(job) {
        Some(shown) => undo_step(alloc, shown, mounts),
        None => Ok(None),
    }
}

// What the request under way comes to, where that is local.
fn job_case(
    alloc: Global,
    job: &Job,
    mounts: &MountCell,
    claims: &ClaimCell,
    answer: HookAnswer,
) -> Result<Option<JobCase>, AllocError>
    ensures some { IfOk result (λ o. IfSome o (λ c. (brands : List Tabled) (x : objects.Objects) (d : desks.Desk) → x.mounts ≡ mounts.now.list → x.claims ≡ claims.now.claims
        → answer ≡ heard brands (stage_hook x (as_job job.now) (as_job job.now).stage)
        → IsLocal d job.now c (local_stage brands x d (as_job job.now) (as_job job.now).stage))) }
    ensures none { IfOk result (λ o. o ≡ None → (brands : List Tabled) (x : objects.Objects) (d : desks.Desk) → x.mounts ≡ mounts.now.list → x.claims ≡ claims.now.claims
        → local_stage brands x d (as_job job.now) (as_job job.now).stage ≡ None) }
    ensures of { IfOk result (λ o. IfSome o (IsJobCase job.now)) }
    ensures free { IfOk result (λ o. IfSome o (λ c. IsFreeFor (job_objects c) mounts.now.list claims.now.claims)) }
    ensures own { IfOk result (λ o. IfSome o (λ c. list_all is_of_own (object_edits (job_objects c)) ≡ true)) }
    ensures active { IfOk result (λ o. IfSome o (λ c. (a : Option states.ZoneState) → job_active c a ≡ a)) }
    ensures room { halts_by (as_job job.now).stage ≡ true → IsSomeFree takes_room result }
{
    match job.failure {
        None => plan_case(alloc, job, mounts, claims, answer),
        Some(_) => undo_case(alloc, job, mounts),
    }
}

/// What the next turn comes to, where that is local: it steps through a hook, through the zone's files, limits and mounts,
/// undoes such a step, or waits for a held mount, and nothing that other zones may ask is touched. The brand answers
/// `answer` where it is asked. On the turns of a halt it takes no memory, and nor does what comes of it.
#[tactic(auto, unfolding(crate::specs::Turns::local_turn))]
pub fn local_case(
    alloc: Global,
    desk: &Desk,
    mounts: &MountCell,
    claims: &ClaimCell,
    answer: HookAnswer,
) -> Result<Option<TurnCase>, AllocError>
    ensures some { IfOk result (λ o. IfSome o (λ c. (brands : List Tabled) (x : objects.Objects) → x.mounts ≡ mounts.now.list → x.claims ≡ claims.now.claims
        → answer ≡ next_answer brands x (as_desk desk.now) → IsSomeAnd (local_turn brands x (as_desk desk.now)) (λ t. Just t ≡ turn_decision_of desk.now c))) }
    ensures none { IfOk result (λ o. o ≡ None → (brands : List Tabled) (x : objects.Objects) → x.mounts ≡ mounts.now.list → x.claims ≡ claims.now.claims
        → local_turn brands x (as_desk desk.now) ≡ None) }
    ensures of { IfOk result (λ o. IfSome o (IsTurnOf desk.now)) }
    ensures free { IfOk result (λ o. IfSome o (λ c. IsFreeFor (turn_objects c) mounts.now.list claims.now.claims)) }
    ensures own { IfOk result (λ o. IfSome o (λ c. list_all is_of_own (object_edits (turn_objects c)) ≡ true)) }
    ensures job { IfOk result (λ o. IfSome o (λ c. is_some desk.now.job ≡ true)) }
    ensures active { IfOk result (λ o. IfSome o (λ c. turn_active c desk.now.active ≡ desk.now.active)) }
    ensures room { is_halting (as_desk desk.now) ≡ true → IsSomeFree turn_takes_room result }
{
    let Some(job) = &desk.job else {
        return Ok(None);
    };
    match job_case(alloc, job, mounts, claims, answer)? {
        Some(case) => Ok(Some(TurnCase::GoOn(case))),
        None => Ok(None),
    }
}
