//! The plans of zoneadm(8)'s requests.
ghost use Rattle.std.specs.Prelude.{◌≡◌, ◌<◌, ◌≤◌, ◌+◌, ◌++◌, ◌∷◌, [], IfOk, OnOk, drop, length, map, take, true};
ghost use Rattle.std.specs.Cmp.Lexicographic.{slice_cmp};
ghost use Rattle.std.specs.List.{filter_map};
ghost use Rattle.std.specs.List.Sorted.{IsSorted};
ghost use Rattle.std.specs.Ordering.{nat_cmp};
ghost use Rattle.config_terms.specs.declared.terms.IpType as ip_types;
ghost use Rattle.loopback_mounts.specs.Mounts.{precedes};
ghost use Rattle.zone_pools.specs.Owned_lists.{put};
ghost use Rattle.zoneadmd_steps.specs.Configs.{claims_of, dataset_claim, fs_dirs, in_order, net_claim, net_kind};
ghost use Rattle.zoneadmd_steps.specs.Plans.{attach_part, boot_part, boot_plan, clone_part, copying, detach_part, erasing, halt_part, hook_after, hook_before, install_part, is_limited, is_verified, may_begin, plan, ready_part, uninstall_part};

use crate::plan_steps::Plan;
use crate::requests::{Request, RequestKind, Step};
use brand_hooks::{Change, ChangeKind};
use config_terms::{Fs, IpType, Net};
use config_verify::claimed;
use datalink_table::{Claim, ClaimKind};
use std::alloc::{AllocError, Global};
use zn_base::{AbsPath, Text, ZoneName, ZoneState};
use zone_config::ZoneConfig;

/// Whether a request begins in a state.
pub(crate) fn may_begin(kind: RequestKind, state: ZoneState) -> bool
    ensures { result ≡ may_begin kind state }
{
    use ZoneState::{Configured, Incomplete, Installed, Ready, Running};
    matches!(
        (kind, state),
        (
            RequestKind::Install | RequestKind::Clone | RequestKind::Attach,
            Configured
        ) | (RequestKind::Uninstall, Installed | Incomplete)
            | (
                RequestKind::Detach | RequestKind::Mark | RequestKind::Move | RequestKind::Ready,
                Installed
            )
            | (RequestKind::Boot, Installed | Ready)
            | (RequestKind::Halt | RequestKind::Reboot, Ready | Running)
    )
}

/// Whether the configuration is verified before a request begins.
pub(crate) fn is_verified(kind: RequestKind, state: ZoneState) -> bool
    ensures { result ≡ is_verified kind state }
{
    match kind {
        RequestKind::Install | RequestKind::Clone | RequestKind::Attach | RequestKind::Ready =>
            true,
        RequestKind::Boot => matches!(state, ZoneState::Installed),
        _ => false,
    }
}

/// Whether the limit set is looked at before a request begins.
pub(crate) fn is_limited(kind: RequestKind, state: ZoneState) -> bool
    ensures { result ≡ is_limited kind state }
{
    match kind {
        RequestKind::Ready => true,
        RequestKind::Boot => matches!(state, ZoneState::Installed),
        _ => false,
    }
}

fn before(kind: ChangeKind) -> Step
    ensures { result ≡ hook_before kind }
{
    Step::Hook(Change { before: true, kind })
}

fn after(kind: ChangeKind) -> Step
    ensures { result ≡ hook_after kind }
{
    Step::Hook(Change {
        before: false,
        kind,
    })
}

// Files are copied: the zone is incomplete until all are there.
fn push_copying(alloc: Global, steps: &mut Vec<Step>, kind: ChangeKind) -> Result<(), AllocError>
    ensures { OnOk result (steps.new.items ≡ steps.old.items ++ copying kind) }
{
    steps.append(&mut vec![in alloc;
        Step::Record(ZoneState::Incomplete),
        Step::Copy(1),
        Step::Copy(2),
        Step::Copy(3),
        Step::Copy(4),
        Step::Record(ZoneState::Installed),
        after(kind),
    ]?)
}

fn install_part(alloc: Global) -> Result<Vec<Step>, AllocError>
    ensures { IfOk result (λ steps. steps.items ≡ install_part) }
{
    let mut steps = vec![in alloc; before(ChangeKind::Install)]?;
    push_copying(alloc, &mut steps, ChangeKind::Install)?;
    Ok(steps)
}

fn clone_part(alloc: Global, source: &ZoneName) -> Result<Vec<Step>, AllocError>
    ensures { IfOk result (λ steps. steps.items ≡ clone_part source.now) }
{
    let mut steps = vec![in alloc;
        before(ChangeKind::Clone),
        Step::Source(source.copy(alloc)?),
    ]?;
    push_copying(alloc, &mut steps, ChangeKind::Clone)?;
    Ok(steps)
}

fn attach_part(alloc: Global) -> Result<Vec<Step>, AllocError>
    ensures { IfOk result (λ steps. steps.items ≡ attach_part) }
{
    Ok(vec![in alloc;
        before(ChangeKind::Attach),
        Step::Record(ZoneState::Installed),
        after(ChangeKind::Attach),
    ]?)
}

fn detach_part(alloc: Global) -> Result<Vec<Step>, AllocError>
    ensures { IfOk result (λ steps. steps.items ≡ detach_part) }
{
    Ok(vec![in alloc;
        before(ChangeKind::Detach),
        Step::Record(ZoneState::Configured),
        after(ChangeKind::Detach),
    ]?)
}

// Its unmounts and releases are as many as there are mounts and claims, and each stands for all.
fn halt_part(alloc: Global) -> Result<Vec<Step>, AllocError>
    ensures { IfOk result (λ steps. steps.items ≡ halt_part) }
{
    Ok(vec![in alloc;
        before(ChangeKind::Halt),
        Step::State(ZoneState::ShuttingDown),
        Step::Kill(None),
        Step::Unmount(None),
        Step::Release(None),
        Step::Clear,
        Step::State(ZoneState::Down),
        Step::ZidBack(None),
        Step::State(ZoneState::Installed),
        after(ChangeKind::Halt),
    ]?)
}

fn boot_part(alloc: Global) -> Result<Vec<Step>, AllocError>
    ensures { IfOk result (λ steps. steps.items ≡ boot_part) }
{
    Ok(vec![in alloc;
        before(ChangeKind::Boot),
        Step::Init(None),
        Step::State(ZoneState::Running),
        after(ChangeKind::Boot),
    ]?)
}

// Whether a path precedes another in byte order.
fn precedes(path: &AbsPath, other: &AbsPath) -> bool
    ensures { result ≡ precedes path.now other.now }
{
    path.bytes().cmp(other.bytes()).is_lt()
}

// Whether a directory goes right behind one of others in byte order.
fn goes_behind(dirs: &[AbsPath], at: usize, dir: &AbsPath) -> bool
    requires { IsSorted (slice_cmp nat_cmp) dirs.now }
    ensures inside { result ≡ true → at < length dirs.now }
    ensures put { result ≡ true → put (λ other. precedes other dir.now) dir.now dirs.now ≡ take (at + 1) dirs.now ++ dir.now ∷ drop (at + 1) dirs.now }
{
    if at >= dirs.len() || !precedes(&dirs[at], dir) {
        return false;
    }
    at + 1 == dirs.len() || !precedes(&dirs[at + 1], dir)
}

// Where a directory goes among others in byte order. Behind the one that was put there last is looked at first, since file systems
// mostly come in order.
fn place(dirs: &[AbsPath], latest: usize, dir: &AbsPath) -> usize
    requires { IsSorted (slice_cmp nat_cmp) dirs.now }
    ensures bound { result ≤ length dirs.now }
    ensures put { put (λ other. precedes other dir.now) dir.now dirs.now ≡ take result dirs.now ++ dir.now ∷ drop result dirs.now }
{
    if goes_behind(dirs, latest, dir) {
        latest + 1
    } else {
        dirs.partition_point(|other| precedes(other, dir))
    }
}

// The directories of file systems, in byte order.
fn in_order(alloc: Global, fs: &[Fs]) -> Result<Vec<AbsPath>, AllocError>
    ensures { IfOk result (λ dirs. dirs.items ≡ in_order (filter_map (λ f. f.dir) fs.now)) }
{
    let mut dirs = Vec::new(alloc);
    let mut at = 0;
    for file_system in fs {
        if let Some(dir) = &file_system.dir {
            at = place(&dirs, at, dir);
            dirs.insert(at, dir.copy(alloc)?)?;
        }
    }
    Ok(dirs)
}

// The steps that mount directories.
fn mounts(alloc: Global, dirs: Vec<AbsPath>) -> Result<Vec<Step>, AllocError>
    ensures { IfOk result (λ steps. steps.items ≡ map Step.Mounted dirs.items) }
{
    dirs.into_iter().map(Step::Mounted).collect(alloc)
}

// The steps that claim datasets.
fn dataset_claims(alloc: Global, names: &[Text]) -> Result<Vec<Step>, AllocError>
    ensures { IfOk result (λ steps. steps.items ≡ map Step.Claimed (map dataset_claim names.now)) }
{
    let mut steps = Vec::new(alloc);
    for name in names {
        steps.push(Step::Claimed(Claim {
            kind: ClaimKind::Dataset,
            item: name.copy(alloc)?,
        }))?;
    }
    Ok(steps)
}

fn net_kind(ip: IpType) -> ClaimKind
    ensures { result ≡ net_kind ip }
{
    match ip {
        IpType::Exclusive => ClaimKind::Link,
        IpType::Shared => ClaimKind::Address,
    }
}

// What a net takes for its zone alone.
fn net_claim(alloc: Global, ip: IpType, net: &Net) -> Result<Claim, AllocError>
    ensures { IfOk result (λ claim. claim ≡ net_claim ip net.now) }
{
    Ok(Claim {
        kind: net_kind(ip),
        item: Text::of(alloc, claimed(ip, net))?,
    })
}

// The steps that claim what nets take.
fn net_claims(alloc: Global, ip: IpType, nets: &[Net]) -> Result<Vec<Step>, AllocError>
    ensures { IfOk result (λ steps. steps.items ≡ map Step.Claimed (map (net_claim ip) nets.now)) }
{
    let mut steps = Vec::new(alloc);
    for net in nets {
        steps.push(Step::Claimed(net_claim(alloc, ip, net)?))?;
    }
    Ok(steps)
}

fn ready_part(alloc: Global, config: &ZoneConfig) -> Result<Vec<Step>, AllocError>
    ensures { IfOk result (λ steps. steps.items ≡ ready_part config.now) }
{
    let mut steps = vec![in alloc;
        before(ChangeKind::Ready),
        Step::Zid(None),
        Step::Limits,
        Step::Devices(None),
        Step::Root,
    ]?;
    let dirs = in_order(alloc, config.fs.as_slice())?;
    steps.append(&mut mounts(alloc, dirs)?)?;
    steps.append(&mut dataset_claims(alloc, config.dataset.as_slice())?)?;
    steps.append(&mut net_claims(alloc, config.ip, config.net.as_slice())?)?;
    steps.push(Step::State(ZoneState::Ready))?;
    steps.push(after(ChangeKind::Ready))?;
    Ok(steps)
}

fn boot_plan(alloc: Global, state: ZoneState, config: &ZoneConfig) -> Result<Vec<Step>, AllocError>
    ensures { IfOk result (λ steps. steps.items ≡ boot_plan state config.now) }
{
    match state {
        ZoneState::Ready => boot_part(alloc),
        _ => {
            let mut steps = ready_part(alloc, config)?;
            steps.append(&mut boot_part(alloc)?)?;
            Ok(steps)
        }
    }
}

fn push_erasing(alloc: Global, steps: &mut Vec<Step>) -> Result<(), AllocError>
    ensures { OnOk result (steps.new.items ≡ steps.old.items ++ erasing) }
{
    steps.append(&mut vec![in alloc;
        Step::Erase(1),
        Step::Erase(2),
        Step::Erase(3),
        Step::Erase(4),
        Step::Record(ZoneState::Configured),
        after(ChangeKind::Uninstall),
    ]?)
}

fn uninstall_part(alloc: Global, state: ZoneState) -> Result<Vec<Step>, AllocError>
    ensures { IfOk result (λ steps. steps.items ≡ uninstall_part state) }
{
    let mut steps = vec![in alloc; before(ChangeKind::Uninstall)]?;
    if !matches!(state, ZoneState::Incomplete) {
        steps.push(Step::Record(ZoneState::Incomplete))?;
    }
    push_erasing(alloc, &mut steps)?;
    Ok(steps)
}

// The steps of a request that begins in a state.
fn steps_of(
    alloc: Global,
    request: &Request,
    state: ZoneState,
    config: &ZoneConfig,
) -> Result<Vec<Step>, AllocError>
    ensures { IfOk result (λ steps. steps.items ≡ plan request.now state config.now) }
{
    match request {
        Request::Install => install_part(alloc),
        Request::Uninstall => uninstall_part(alloc, state),
        Request::Clone(source) => clone_part(alloc, source),
        Request::Attach => attach_part(alloc),
        Request::Detach => detach_part(alloc),
        Request::Mark => Ok(vec![in alloc; Step::Record(ZoneState::Incomplete)]?),
        Request::Move(_) => Ok(vec![in alloc; Step::Moved]?),
        Request::Ready => ready_part(alloc, config),
        Request::Boot(_) => boot_plan(alloc, state, config),
        Request::Halt | Request::Reboot(_) => halt_part(alloc),
    }
}

/// The plan of a request that begins in a state.
#[tactic(auto, using(crate::proofs::Storing::plan_stores))]
pub(crate) fn plan(
    alloc: Global,
    request: &Request,
    state: ZoneState,
    config: &ZoneConfig,
) -> Result<Plan, AllocError>
    ensures { IfOk result (λ steps. steps ≡ plan request.now state config.now) }
{
    Ok(Plan::of(steps_of(alloc, request, state, config)?))
}

/// The plan of a halt.
pub(crate) fn halt_plan(alloc: Global) -> Result<Plan, AllocError>
    ensures { IfOk result (λ steps. steps ≡ halt_part) }
{
    Ok(Plan::of(halt_part(alloc)?))
}
