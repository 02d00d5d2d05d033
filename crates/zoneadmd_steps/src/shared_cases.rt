//! What the steps of a request's plan come to that look at what zones share, or change it.
ghost use Rattle.std.specs.Prelude.{◌≡◌, ◌<◌, ◌≤◌, ◌-◌, ◌∷◌, [], Err, IfOk, IfSome, IsSome, IsTrue, List, None, Ok, Some, bytes_eq, drop, false, length, not, slice_get, true};
ghost use Rattle.std.specs.Option.{option_map};
ghost use Rattle.config_terms.specs.Fields.{path_text};
ghost use Rattle.datalink_table.specs.declared.claims.Claim as claim_types;
ghost use Rattle.kernel_objects.specs.Kernel.{with_bootargs};
ghost use Rattle.kernel_objects.specs.Processes.{count_of};
ghost use Rattle.loopback_mounts.specs.Mounts.{last_of};
ghost use Rattle.loopback_mounts.specs.declared.mount.MountEntry as entries;
ghost use Rattle.zn_base.specs.Names.{Name};
ghost use Rattle.zn_base.specs.States.{is_stored};
ghost use Rattle.zn_base.specs.Text.{is_text};
ghost use Rattle.zone_config.specs.Sound.{IsSound};
ghost use Rattle.zone_pools.specs.Asked.{A_pid};
ghost use Rattle.zone_pools.specs.Decisions.{Just};
ghost use Rattle.zoneadmd_steps.specs.Arrivals.{A_process};
ghost use Rattle.zoneadmd_steps.specs.Code.Ahead.{is_for_all};
ghost use Rattle.zoneadmd_steps.specs.Code.Cases.{IsFreeFor, IsInPlan, IsJobCase, IsNamedJobCase, as_objects, job_objects, job_turn};
ghost use Rattle.zoneadmd_steps.specs.Code.Desks.{as_job};
ghost use Rattle.zoneadmd_steps.specs.Code.Rooms.{IsFree, IsSomeFree, takes_room};
ghost use Rattle.zoneadmd_steps.specs.Code.Shareds.{case_turn, is_left, is_of_objects, is_of_store};
ghost use Rattle.zoneadmd_steps.specs.Configs.{devices_by, with_zonepath};
ghost use Rattle.zoneadmd_steps.specs.Desks as desks;
ghost use Rattle.zoneadmd_steps.specs.Halts.{is_of_halt};
ghost use Rattle.zoneadmd_steps.specs.Objects as objects;
ghost use Rattle.zoneadmd_steps.specs.Objects.{Ids_change, Last_claim_goes, ids_of, kernel_of, zid_of};
ghost use Rattle.zoneadmd_steps.specs.Plans.{has_stored_state};
ghost use Rattle.zoneadmd_steps.specs.Turns as turns;
ghost use Rattle.zoneadmd_steps.specs.Turns.{advance, args_or, asking, bootargs_of, init_process, new_path, record_config, record_state, shared_step, size_in};
ghost use Rattle.zoneadmd_steps.specs.declared.desks.Job as job_types;

use crate::cases::JobCase;
use crate::desks::Job;
use crate::local_cases::{changed, passed};
use crate::objects::changes::{Came, ObjectEdit};
use crate::objects::{Objects, System};
use crate::requests::{Failure, Request, Step};
use commit_journal::{Record, Row, StoredConfig};
use config_terms::ConfigFault;
use datalink_table::Claim;
use kernel_objects::{KernelCell, KernelShared};
use std::alloc::{AllocError, Global};
use std::snapshot::Snapshot;
use zn_base::{AbsPath, Listing, Text, Value, ZoneName, ZoneState};
use zone_config::{Contents, ZoneConfig};

fn copy_config(alloc: Global, config: &ZoneConfig) -> Result<ZoneConfig, AllocError>
    ensures { IfOk result (λ copy. copy ≡ config.now) }
{
    match config.copy(alloc) {
        Ok(copy) => Ok(copy),
        Err(_) => Err(AllocError),
    }
}

// The stored state changes.
#[inline(never)]
fn store_state(
    alloc: Global,
    zone: &ZoneName,
    next: usize,
    row: &Row,
    to: ZoneState,
) -> Result<JobCase, AllocError>
    requires { IsTrue (is_stored to) }
    ensures decides { IfOk result (λ c. (d : desks.Desk) (j : job_types.Job) → record_state d (as_job j) (drop next j.steps) to (Some row.now) ≡ job_turn d j c) }
    ensures of { IfOk result (λ c. (j : job_types.Job) → j.failure ≡ None → IsJobCase j c) }
    ensures free { IfOk result (λ c. (ms : List entries.MountEntry) (cs : List claim_types.Claim) → IsFreeFor (job_objects c) ms cs) }
    ensures named { IfOk result (IsNamedJobCase zone.now) }
{
    let stored = Box::new(alloc, row.in_state(to)?)?;
    let owner = zone.copy(alloc)?;
    Ok(JobCase::Ask(Came::Record(stored, owner), next))
}

#[tactic(auto, using(crate::proofs::Zonepaths::path_is_text))]
fn text_of(alloc: Global, path: &AbsPath) -> Result<Text, AllocError>
    ensures { IfOk result (λ text. text ≡ path.now) }
{
    Text::of(alloc, path.bytes())
}

// The zonepath that a request asks for.
fn new_path(alloc: Global, request: &Request) -> Result<Text, AllocError>
    ensures { IfOk result (λ text. text ≡ new_path request.now) }
{
    match request {
        Request::Move(path) => text_of(alloc, path),
        _ => Ok(Text::empty(alloc)),
    }
}

// How many bytes the export text would have.
fn size_in(fault: ConfigFault) -> usize
    ensures { result ≡ size_in fault }
{
    match fault {
        ConfigFault::TooLarge(size) => size,
        _ => 0,
    }
}

// The configuration with another zonepath, or why there is none.
fn with_zonepath(
    alloc: Global,
    config: &ZoneConfig,
    path: Text,
) -> Result<Result<ZoneConfig, ConfigFault>, AllocError>
    ensures { IfOk result (λ r. with_zonepath path config.now ≡ r) }
{
    let mut moved = copy_config(alloc, config)?;
    match moved.set_property(alloc, b"zonepath", Value::Simple(path)) {
        Ok(()) => Ok(Ok(moved)),
        Err(ConfigFault::Memory) => Err(AllocError),
        Err(fault) => Ok(Err(fault)),
    }
}

// The zonepath fails, for the length of the export text alone.
fn too_large(contents: &Contents, path: &[u8], fault: ConfigFault) -> JobCase
    requires sound { IsSound contents.now }
    requires text { is_text path.now ≡ true }
    requires fault { with_zonepath path.now contents.now ≡ Err fault }
    ensures { result ≡ JobCase.Fail (Failure.TooLarge (size_in fault)) }
{
    JobCase::Fail(Failure::TooLarge(size_in(fault) as u32))
}

// Whether a configuration has another zonepath.
fn is_other(config: &ZoneConfig, path: &[u8]) -> bool
    ensures { result ≡ not (bytes_eq path.now (path_text config.now.zonepath)) }
{
    match &config.zonepath {
        Some(own) => path != own.bytes(),
        None => !path.is_empty(),
    }
}

// The record with another configuration.
fn with_config(row: &Row, config: StoredConfig) -> Row
    requires { IsSome config.zonepath }
    ensures { result ≡ record row.now { config = config } }
{
    let row = row.record();
    Row::new(Record {
        state: row.state,
        uuid: row.uuid,
        revision: row.revision,
        config,
    })
}

// The record with this configuration is stored.
#[inline(never)]
#[tactic(auto, using(crate::proofs::Zonepaths::path_is_set))]
fn store_moved(
    alloc: Global,
    zone: &ZoneName,
    next: usize,
    row: &Row,
    path: &Text,
    config: StoredConfig,
) -> Result<JobCase, AllocError>
    requires { with_zonepath path.now row.now.config ≡ Ok config }
    ensures decides { IfOk result (λ c. (d : desks.Desk) (j : job_types.Job) → record_config d (as_job j) (drop next j.steps) path.now row.now (Ok config) ≡ job_turn d j c) }
    ensures of { IfOk result (λ c. (j : job_types.Job) → j.failure ≡ None → IsJobCase j c) }
    ensures free { IfOk result (λ c. (ms : List entries.MountEntry) (cs : List claim_types.Claim) → IsFreeFor (job_objects c) ms cs) }
    ensures named { IfOk result (IsNamedJobCase zone.now) }
{
    let is_new = is_other(row.config.as_config(), path.bytes());
    let owner = zone.copy(alloc)?;
    let moved = Box::new(alloc, with_config(row, config))?;
    Ok(JobCase::Ask(Came::Moved(moved, owner, is_new), next))
}

// The stored zonepath changes.
fn store_path(
    alloc: Global,
    zone: &ZoneName,
    next: usize,
    row: &Row,
    path: &Text,
) -> Result<JobCase, AllocError>
    ensures decides { IfOk result (λ c. (d : desks.Desk) (j : job_types.Job) → record_config d (as_job j) (drop next j.steps) path.now row.now (with_zonepath path.now row.now.config) ≡ job_turn d j c) }
    ensures of { IfOk result (λ c. (j : job_types.Job) → j.failure ≡ None → IsJobCase j c) }
    ensures free { IfOk result (λ c. (ms : List entries.MountEntry) (cs : List claim_types.Claim) → IsFreeFor (job_objects c) ms cs) }
    ensures named { IfOk result (IsNamedJobCase zone.now) }
{
    match with_zonepath(alloc, row.config.as_config(), path.copy(alloc)?)? {
        Ok(config) => {
            let config = StoredConfig::new(alloc, config)?;
            store_moved(alloc, zone, next, row, path, config)
        }
        Err(fault) => Ok(too_large(row.config.contents(), path.bytes(), fault)),
    }
}

// What a step comes to that changes what is stored; a zone that isn't stored has no work.
fn stored_case(
    alloc: Global,
    zone: &ZoneName,
    job: &Job,
    planned: &Step,
    next: usize,
    row: Option<&Row>,
) -> Result<Option<JobCase>, AllocError>
    requires goes { job.now.failure ≡ None }
    requires planned { is_of_store planned.now ≡ true }
    requires stored { has_stored_state planned.now ≡ true }
    ensures decides { IfOk result (λ o. (v : turns.Seen) → v.stored ≡ option_map (λ r. r.now) row.entry → shared_step v (as_job job.now) (drop next job.now.steps) planned.now ≡ case_turn v.desk job.now o) }
    ensures of { IfOk result (λ o. IfSome o (IsJobCase job.now)) }
    ensures free { IfOk result (λ o. IfSome o (λ c. (ms : List entries.MountEntry) (cs : List claim_types.Claim) → IsFreeFor (job_objects c) ms cs)) }
    ensures named { IfOk result (λ o. IfSome o (IsNamedJobCase zone.now)) }
{
    let Some(row) = row else {
        return Ok(None);
    };
    match planned {
        Step::Record(to) => Ok(Some(store_state(alloc, zone, next, row, *to)?)),
        Step::Moved => {
            let path = new_path(alloc, &job.request)?;
            Ok(Some(store_path(alloc, zone, next, row, &path)?))
        }
        _ => unreachable!(),
    }
}

// The zone that is cloned is looked at.
fn look_at_source(alloc: Global, next: usize, source: &ZoneName) -> Result<JobCase, AllocError>
    ensures { IfOk result (λ c. c ≡ JobCase.Ask (Came.Source source.now) next) }
{
    Ok(JobCase::Ask(Came::Source(source.copy(alloc)?), next))
}

// A dataset, a link or an address is claimed.
fn claim(alloc: Global, next: usize, claim: &Claim) -> Result<JobCase, AllocError>
    ensures { IfOk result (λ c. c ≡ JobCase.Ask (Came.Claim claim.now) next) }
{
    Ok(JobCase::Ask(Came::Claim(claim.copy(alloc)?), next))
}

// The declared devices that the zone's patterns match.
fn devices_for(
    alloc: Global,
    config: &ZoneConfig,
    shared: &KernelShared,
) -> Result<Vec<AbsPath>, AllocError>
    ensures devices { IfOk result (λ given. given.items ≡ devices_by config.now shared.now.devices) }
    ensures bound { IfOk result (λ given. length given.items ≤ 1024) }
{
    match shared.devices_for(alloc, config.device.as_slice()) {
        Ok(given) => Ok(given),
        Err(_) => Err(AllocError),
    }
}

// The zone has these devices.
#[inline(never)]
fn give_devices(
    alloc: Global,
    next: usize,
    config: &ZoneConfig,
    shared: &KernelShared,
) -> Result<JobCase, AllocError>
    ensures { IfOk result (λ c. c ≡ JobCase.Pass (record { next = next; objects = ObjectEdit.SetDevices (devices_by config.now shared.now.devices); shown = Step.Devices (Some (length (devices_by config.now shared.now.devices))) })) }
{
    let given = devices_for(alloc, config, shared)?;
    let count = given.len() as u32;
    let objects = ObjectEdit::SetDevices(Listing::from_vec(given));
    Ok(changed(next, objects, Step::Devices(Some(count))))
}

// The arguments of a boot, else those of the configuration.
fn args_or(alloc: Global, args: &Text, config: &ZoneConfig) -> Result<Text, AllocError>
    ensures { IfOk result (λ text. text ≡ args_or args.now config.now) }
{
    if args.bytes().is_empty() {
        config.bootargs.copy(alloc)
    } else {
        args.copy(alloc)
    }
}

fn bootargs_of(alloc: Global, job: &Job) -> Result<Text, AllocError>
    ensures { IfOk result (λ text. text ≡ bootargs_of job.now.request job.now.config) }
{
    match &job.request {
        Request::Boot(args) => args_or(alloc, args, job.config.as_config()),
        _ => job.config.bootargs.copy(alloc),
    }
}

// The first process begins.
#[inline(never)]
fn start_init(
    alloc: Global,
    next: usize,
    kernel: &KernelCell,
    args: Text,
) -> Result<JobCase, AllocError>
    ensures decides { IfOk result (λ c. (o : objects.Objects) (d : desks.Desk) (j : job_types.Job) → kernel_of o ≡ kernel.now
        → asking d (as_job j) (drop next j.steps) (A_process (init_process o)) (A_pid ∷ []) (Ids_change (with_bootargs args) ∷ []) (λ n. Step.Init (Some n)) ≡ job_turn d j c) }
    ensures of { IfOk result (λ c. (j : job_types.Job) → j.failure ≡ None → IsJobCase j c) }
    ensures free { IfOk result (λ c. (ms : List entries.MountEntry) (cs : List claim_types.Claim) → IsFreeFor (job_objects c) ms cs) }
    ensures named { IfOk result (λ c. (z : Name) → IsNamedJobCase z c) }
{
    let name = Text::of(alloc, b"init")?;
    let running = Box::new(alloc, kernel.entering(name, true))?;
    Ok(JobCase::Ask(Came::Process(running, args), next))
}

// The first process begins with the arguments of the boot.
fn boot(alloc: Global, job: &Job, next: usize, kernel: &KernelCell) -> Result<JobCase, AllocError>
    ensures decides { IfOk result (λ c. (o : objects.Objects) (d : desks.Desk) → kernel_of o ≡ kernel.now
        → asking d (as_job job.now) (drop next job.now.steps) (A_process (init_process o)) (A_pid ∷ []) (Ids_change (with_bootargs (bootargs_of job.now.request job.now.config)) ∷ []) (λ n. Step.Init (Some n)) ≡ job_turn d job.now c) }
    ensures of { IfOk result (λ c. (j : job_types.Job) → j.failure ≡ None → IsJobCase j c) }
    ensures free { IfOk result (λ c. (ms : List entries.MountEntry) (cs : List claim_types.Claim) → IsFreeFor (job_objects c) ms cs) }
    ensures named { IfOk result (λ c. (z : Name) → IsNamedJobCase z c) }
{
    let args = bootargs_of(alloc, job)?;
    start_init(alloc, next, kernel, args)
}

// All processes end.
fn kill_all(next: usize, kernel: &KernelCell) -> JobCase
    ensures { result ≡ JobCase.Pass (record { next = next; objects = ObjectEdit.EndProcesses; shown = Step.Kill (Some (count_of kernel.now.processes)) }) }
{
    let count = kernel.count_procs();
    changed(next, ObjectEdit::EndProcesses, Step::Kill(Some(count)))
}

// The zone gives its id back.
fn give_zid_back(next: usize, kernel: &KernelCell) -> JobCase
    ensures { result ≡ JobCase.Pass (record { next = next; objects = ObjectEdit.EndIds; shown = Step.ZidBack (zid_of (ids_of kernel.now.id)) }) }
{
    let zid = kernel.zid_of();
    changed(next, ObjectEdit::EndIds, Step::ZidBack(zid))
}

// What a step comes to that changes the objects, or asks a pool for what comes.
#[tactic(auto, using(crate::proofs::Kernels::kernel_itself))]
fn object_case(
    alloc: Global,
    job: &Job,
    planned: &Step,
    next: usize,
    objects: Objects<'_>,
    system: System<'_>,
) -> Result<JobCase, AllocError>
    requires goes { job.now.failure ≡ None }
    requires planned { (0 < next) × (slice_get job.now.steps (next - 1) ≡ Some planned.now) }
    requires kind { is_of_objects planned.now ≡ true }
    ensures decides { IfOk result (λ c. (v : turns.Seen) → v.objects ≡ as_objects objects.entry → v.declared ≡ system.entry.kernel.now.devices
        → shared_step v (as_job job.now) (drop next job.now.steps) planned.now ≡ job_turn v.desk job.now c) }
    ensures of { IfOk result (IsJobCase job.now) }
    ensures free { IfOk result (λ c. (ms : List entries.MountEntry) (cs : List claim_types.Claim) → IsFreeFor (job_objects c) ms cs) }
    ensures named { IfOk result (λ c. (z : Name) → IsNamedJobCase z c) }
    ensures room { is_of_halt planned.now ≡ true → IsFree takes_room result }
{
    match planned {
        Step::Source(source) => look_at_source(alloc, next, source),
        Step::Zid(_) => Ok(JobCase::Ask(Came::Id, next)),
        Step::Devices(_) => give_devices(alloc, next, job.config.as_config(), system.kernel),
        Step::Claimed(item) => claim(alloc, next, item),
        Step::State(to) => Ok(passed(next, Step::State(*to))),
        Step::Init(_) => boot(alloc, job, next, objects.kernel),
        Step::Kill(_) => Ok(kill_all(next, objects.kernel)),
        Step::Clear => Ok(changed(next, ObjectEdit::Clear, Step::Clear)),
        Step::ZidBack(_) => Ok(give_zid_back(next, objects.kernel)),
        _ => unreachable!(),
    }
}

/// Whether a step changes what is stored.
pub(crate) fn is_of_store(planned: &Step) -> bool
    ensures { result ≡ is_of_store planned.now }
{
    matches!(planned, Step::Record(_) | Step::Moved)
}

/// What a step comes to that no local turn does; a zone that isn't stored may have no work.
#[tactic(auto, using(crate::proofs::Lefts::of_objects))]
pub(crate) fn step_case(
    alloc: Global,
    zone: &ZoneName,
    job: &Job,
    planned: &Step,
    next: usize,
    row: Option<&Row>,
    objects: Objects<'_>,
    system: System<'_>,
) -> Result<Option<JobCase>, AllocError>
    requires goes { job.now.failure ≡ None }
    requires planned { (0 < next) × (slice_get job.now.steps (next - 1) ≡ Some planned.now) }
    requires alone { is_for_all planned.now ≡ false }
    requires left { is_left planned.now ≡ true }
    requires stored { has_stored_state planned.now ≡ true }
    ensures decides { IfOk result (λ o. (v : turns.Seen) → v.stored ≡ option_map (λ r. r.now) row.entry → v.objects ≡ as_objects objects.entry → v.declared ≡ system.entry.kernel.now.devices
        → shared_step v (as_job job.now) (drop next job.now.steps) planned.now ≡ case_turn v.desk job.now o) }
    ensures of { IfOk result (λ o. IfSome o (IsJobCase job.now)) }
    ensures free { IfOk result (λ o. IfSome o (λ c. (ms : List entries.MountEntry) (cs : List claim_types.Claim) → IsFreeFor (job_objects c) ms cs)) }
    ensures named { IfOk result (λ o. IfSome o (IsNamedJobCase zone.now)) }
    ensures room { is_of_halt planned.now ≡ true → IsSomeFree takes_room result }
{
    if is_of_store(planned) {
        return stored_case(alloc, zone, job, planned, next, row);
    }
    Ok(Some(object_case(alloc, job, planned, next, objects, system)?))
}

/// The last claim ends, and the plan stays where it is.
pub(crate) fn release(at: usize, claim: &Claim) -> JobCase
    ensures decides { (d : desks.Desk) (j : job_types.Job) → Just (advance d (as_job j) (drop at j.steps) (Last_claim_goes ∷ []) (Step.Release (Some claim.now))) ≡ job_turn d j result }
    ensures of { (j : job_types.Job) → j.failure ≡ None → IsJobCase j result }
    ensures free { (ms : List entries.MountEntry) (cs : List claim_types.Claim) → last_of cs ≡ Some claim.now → IsFreeFor (job_objects result) ms cs }
    ensures named { (z : Name) → IsNamedJobCase z result }
    ensures room { takes_room result ≡ false }
{
    JobCase::Releases(Snapshot::of(claim), at)
}
