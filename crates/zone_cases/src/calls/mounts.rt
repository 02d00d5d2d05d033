//! What the calls come to that ask for the zone's mounts, claims and devices.
ghost use Rattle.std.specs.Prelude.{◌&&◌, ◌≡◌, ◌≢◌, IfOk, List, Ok, Some};
ghost use Rattle.datalink_table.specs.Claims.{items_of};
ghost use Rattle.datalink_table.specs.declared.claims.Claim as claim_types;
ghost use Rattle.datalink_table.specs.declared.claims.ClaimKind.TheVariants as claim_kinds;
ghost use Rattle.kernel_objects.specs.Kernel.{fs_allowed_of};
ghost use Rattle.kernel_objects.specs.Processes.{Process, may_mount, with_pid};
ghost use Rattle.loopback_mounts.specs.Mounts.{listed, mount_at};
ghost use Rattle.loopback_mounts.specs.Places.{place_at};
ghost use Rattle.loopback_mounts.specs.Types.{may_mount_type};
ghost use Rattle.zn_base.specs.Names.{Name};
ghost use Rattle.zone_cases.specs.Calls as calls;
ghost use Rattle.zone_cases.specs.Calls.{is_by_process, mount_refusal, mounts_special, tells_place, unmounts};
ghost use Rattle.zone_cases.specs.Code.Cases.{IsCallCase, IsCaseOf, IsNamedCase, decision_of, IsFreeCase};
ghost use Rattle.zoneadmd_steps.specs.declared.desks.Desk as desk_types;

use crate::calls::{line_case, refused_by};
use crate::cases::{Case, Manner};
use crate::replies::{Body, Head, Refusal};
use datalink_table::{ClaimCell, ClaimKind};
use kernel_objects::{Errno, KernelCell};
use loopback_mounts::{Mount, MountCell, MountFault, may_mount_type};
use process_calls::MountCall;
use std::alloc::{AllocError, Global};
use zn_base::{AbsPath, Bytes, Text};
use zoneadmd_steps::ObjectEdit;

// A case of what mount(2) or umount(2) refuses, or that memory ran out.
fn refused(fault: MountFault) -> Result<Case, AllocError>
    ensures case { IfOk result (λ c. c ≡ Case.Says (Head.Refused (mount_refusal fault))) }
    ensures memory { IfOk result (λ c. fault ≢ MountFault.Memory) }
{
    match fault {
        MountFault::Memory => Err(AllocError),
        MountFault::Refused(errno) => Ok(refused_by(errno)),
        MountFault::TooManyMounts => Ok(Case::Says(Head::Refused(Refusal::TooManyMounts))),
    }
}

// Something is mounted whose special is known, where the zone's mounts don't refuse it.
fn mount_special(
    alloc: Global,
    mounts: &MountCell,
    call: &MountCall,
    special: Text,
) -> Result<Case, AllocError>
    ensures decides { IfOk result (λ c. (d : desk_types.Desk) → mounts_special call.now mounts.now.list (Ok special) ≡ decision_of d c) }
    ensures of { IfOk result (λ c. (d : desk_types.Desk) → IsCaseOf d c) }
    ensures named { IfOk result (λ c. (z : Name) → IsNamedCase z c) }
    ensures free { IfOk result (λ c. (cs : List claim_types.Claim) → IsFreeCase c mounts.now.list cs) }
    ensures call { IfOk result IsCallCase }
{
    if let Err(fault) = mounts.check_mount(&call.dir) {
        return refused(fault);
    }
    let mount = Mount {
        dir: call.dir.copy(alloc)?,
        fstype: call.fstype.copy(alloc)?,
        special,
        read_only: call.read_only,
        by_process: true,
    };
    let mount = Box::new(alloc, mount)?;
    Ok(Case::Change(ObjectEdit::Mount(mount), Manner::Plain))
}

/// Whether a process that the zone has may mount and unmount.
pub(crate) fn is_mounter(kernel: &KernelCell, pid: u32) -> bool
    ensures { (p : Process) → with_pid pid kernel.now.processes ≡ Some p → result ≡ may_mount p }
{
    kernel.check_mounter(pid).is_ok()
}

// Whether one that may mount at all, or not, may mount a type of file system.
fn may_mount(kernel: &KernelCell, mounter: bool, fstype: &Text) -> bool
    ensures { (p : Process) → mounter ≡ may_mount p → result ≡ (may_mount p && may_mount_type (fs_allowed_of kernel.now.id) fstype.now) }
{
    mounter && may_mount_type(kernel.fs_allowed_of(), fstype)
}

/// A process mounts something, by mount(2). `mounter` is whether it may mount at all.
#[inline(never)]
pub(crate) fn mount_case(
    alloc: Global,
    kernel: &KernelCell,
    mounts: &MountCell,
    mounter: bool,
    call: &MountCall,
) -> Result<Case, AllocError>
    ensures decides { IfOk result (λ c. (d : desk_types.Desk) (p : Process) → mounter ≡ may_mount p → calls.mounts p (fs_allowed_of kernel.now.id) call.now mounts.now.list ≡ decision_of d c) }
    ensures of { IfOk result (λ c. (d : desk_types.Desk) → IsCaseOf d c) }
    ensures named { IfOk result (λ c. (z : Name) → IsNamedCase z c) }
    ensures free { IfOk result (λ c. (cs : List claim_types.Claim) → IsFreeCase c mounts.now.list cs) }
    ensures call { IfOk result IsCallCase }
{
    if !may_mount(kernel, mounter, &call.fstype) {
        return Ok(refused_by(Errno::EPERM));
    }
    match mounts.special(alloc, &call.fstype, &call.special) {
        Ok(special) => mount_special(alloc, mounts, call, special),
        Err(fault) => refused(fault),
    }
}

// Whether a mount at a directory is one that a process made, or there is none.
fn is_by_process(mounts: &MountCell, dir: &AbsPath) -> bool
    ensures { result ≡ is_by_process (mount_at dir.now mounts.now.list) }
{
    match mounts.find(dir) {
        Some(entry) => entry.mount.by_process,
        None => true,
    }
}

/// A process takes a mount away, by umount(2). `mounter` is whether it may mount and unmount at all.
#[inline(never)]
pub(crate) fn umount_case(
    alloc: Global,
    mounts: &MountCell,
    mounter: bool,
    dir: &AbsPath,
) -> Result<Case, AllocError>
    ensures decides { IfOk result (λ c. (d : desk_types.Desk) (p : Process) → mounter ≡ may_mount p → unmounts p dir.now mounts.now.list ≡ decision_of d c) }
    ensures of { IfOk result (λ c. (d : desk_types.Desk) → IsCaseOf d c) }
    ensures named { IfOk result (λ c. (z : Name) → IsNamedCase z c) }
    ensures free { IfOk result (λ c. (cs : List claim_types.Claim) → IsFreeCase c mounts.now.list cs) }
    ensures call { IfOk result IsCallCase }
{
    if !(mounter && is_by_process(mounts, dir)) {
        return Ok(refused_by(Errno::EPERM));
    }
    match mounts.check_unmount(dir) {
        Ok(()) => Ok(Case::Change(ObjectEdit::Unmount(dir.copy(alloc)?), Manner::Plain)),
        Err(fault) => refused(fault),
    }
}

/// The place of a path is told.
#[inline(never)]
pub(crate) fn place_case(
    alloc: Global,
    mounts: &MountCell,
    path: &AbsPath,
    write: bool,
) -> Result<Case, AllocError>
    ensures decides { IfOk result (λ c. (d : desk_types.Desk) → tells_place (place_at mounts.now.list path.now write) ≡ decision_of d c) }
    ensures of { IfOk result (λ c. (d : desk_types.Desk) → IsCaseOf d c) }
    ensures named { IfOk result (λ c. (z : Name) → IsNamedCase z c) }
    ensures free { IfOk result (λ c. (cs : List claim_types.Claim) → IsFreeCase c mounts.now.list cs) }
    ensures call { IfOk result IsCallCase }
{
    match mounts.place(alloc, path, write) {
        Ok(place) => line_case(alloc, Bytes::from_slice(alloc, place.bytes())?),
        Err(fault) => refused(fault),
    }
}

/// The zone's mounts are listed.
#[inline(never)]
pub(crate) fn mounts_case(alloc: Global, mounts: &MountCell) -> Result<Case, AllocError>
    ensures { IfOk result (λ c. c ≡ Case.Tells (Body.Mounts (listed mounts.now.list))) }
{
    match mounts.list(alloc) {
        Ok(mounts) => Ok(Case::Tells(Body::Mounts(mounts))),
        Err(_) => Err(AllocError),
    }
}

/// The zone's links and addresses are listed.
#[inline(never)]
pub(crate) fn net_case(alloc: Global, claims: &ClaimCell) -> Result<Case, AllocError>
    ensures { IfOk result (λ c. c ≡ Case.Tells (Body.Net (items_of claim_kinds.Link claims.now.claims) (items_of claim_kinds.Address claims.now.claims))) }
{
    match (
        claims.list(alloc, ClaimKind::Link),
        claims.list(alloc, ClaimKind::Address),
    ) {
        (Ok(links), Ok(addresses)) => Ok(Case::Tells(Body::Net(links, addresses))),
        _ => Err(AllocError),
    }
}

/// The zone's datasets are listed.
#[inline(never)]
pub(crate) fn datasets_case(alloc: Global, claims: &ClaimCell) -> Result<Case, AllocError>
    ensures { IfOk result (λ c. c ≡ Case.Tells (Body.Datasets (items_of claim_kinds.Dataset claims.now.claims))) }
{
    match claims.list(alloc, ClaimKind::Dataset) {
        Ok(datasets) => Ok(Case::Tells(Body::Datasets(datasets))),
        Err(_) => Err(AllocError),
    }
}

/// The devices that the zone was given are listed.
#[inline(never)]
pub(crate) fn devices_case(alloc: Global, kernel: &KernelCell) -> Result<Case, AllocError>
    ensures { IfOk result (λ c. c ≡ Case.Tells (Body.Devices kernel.now.devices)) }
{
    match kernel.list_devices(alloc) {
        Ok(devices) => Ok(Case::Tells(Body::Devices(devices))),
        Err(_) => Err(AllocError),
    }
}
