//! What the calls of a zone's processes come to, and a signal from the global zone.
ghost use Rattle.std.specs.Prelude.{◌∷◌, ◌≡◌, [], Err, IfOk, Ok, Some, map, unwrap_or};
ghost use Rattle.kernel_objects.specs.Kernel.{at_limit, bootargs_of, fork_set};
ghost use Rattle.kernel_objects.specs.Processes.{Process, row_of, with_pid};
ghost use Rattle.priv_sets.specs.Sets.{print_of};
ghost use Rattle.zn_base.specs.Names.{Name};
ghost use Rattle.zone_cases.specs.Calls.{called, calls, execs, forks, signals};
ghost use Rattle.zone_cases.specs.Code.Cases.{IsCallCase, IsCaseOf, IsNamedCase, decision_of, IsCaseIn, IsFreeCase, MountsNothing};
ghost use Rattle.zone_cases.specs.State.Decisions.{tells};
ghost use Rattle.zone_cases.specs.Code.Cells.{Outside, Shows};
ghost use Rattle.zone_cases.specs.State.Worlds.{View};
ghost use Rattle.zoneadmd_steps.specs.declared.desks.Desk as desk_types;

pub(crate) mod mounts;

use crate::calls::mounts::{
    datasets_case, devices_case, is_mounter, mount_case, mounts_case, net_case, place_case,
    umount_case,
};
use crate::cases::{Case, Manner};
use crate::cell::Cell;
use crate::replies::{Body, Head, Refusal};
use kernel_objects::{Errno, KernelCell, Signal};
use process_calls::Call;
use std::alloc::{AllocError, Global};
use zn_base::{Bytes, Listing, Text, ZoneName};
use zoneadmd_steps::ObjectEdit;

pub(crate) fn refused_by(errno: Errno) -> Case
    ensures { result ≡ Case.Says (Head.Refused (Refusal.Errno errno)) }
{
    Case::Says(Head::Refused(Refusal::Errno(errno)))
}

/// What a signal comes to, from inside the zone or from the global zone.
pub(crate) fn signal_case(kernel: &KernelCell, inside: bool, signal: Signal, pid: u32) -> Case
    ensures decides { (d : desk_types.Desk) → signals inside signal pid (with_pid pid kernel.now.processes) ≡ decision_of d result }
    ensures of { (d : desk_types.Desk) → IsCaseOf d result }
    ensures named { (z : Name) → IsNamedCase z result }
    ensures free { MountsNothing result }
    ensures call { IsCallCase result }
{
    match kernel.check_signal(inside, signal, pid) {
        Ok(true) => Case::Change(ObjectEdit::EndProcess(pid), Manner::Plain),
        Ok(false) => Case::Says(Head::Ok),
        Err(errno) => refused_by(errno),
    }
}

// A process makes another.
#[inline(never)]
fn fork_case(alloc: Global, kernel: &KernelCell, pid: u32, name: &Text) -> Result<Case, AllocError>
    ensures decides { IfOk result (λ c. (d : desk_types.Desk) (p : Process) → with_pid pid kernel.now.processes ≡ Some p
        → forks p name.now (fork_set (Some p) (at_limit kernel.now)) ≡ decision_of d c) }
    ensures of { IfOk result (λ c. (d : desk_types.Desk) → IsCaseOf d c) }
    ensures named { IfOk result (λ c. (z : Name) → IsNamedCase z c) }
    ensures free { IfOk result MountsNothing }
    ensures call { IfOk result IsCallCase }
{
    match kernel.forking(pid, name.copy(alloc)?) {
        Ok(running) => Ok(Case::Fork(Box::new(alloc, running)?, Manner::Plain)),
        Err(errno) => Ok(refused_by(errno)),
    }
}

// A process runs another program.
#[inline(never)]
fn exec_case(alloc: Global, kernel: &KernelCell, pid: u32, name: &Text) -> Result<Case, AllocError>
    ensures decides { IfOk result (λ c. (d : desk_types.Desk) (p : Process) → with_pid pid kernel.now.processes ≡ Some p → execs pid p name.now ≡ decision_of d c) }
    ensures of { IfOk result (λ c. (d : desk_types.Desk) → IsCaseOf d c) }
    ensures named { IfOk result (λ c. (z : Name) → IsNamedCase z c) }
    ensures free { IfOk result MountsNothing }
    ensures call { IfOk result IsCallCase }
{
    match kernel.check_exec(pid) {
        Ok(()) => Ok(Case::Change(ObjectEdit::Rename(pid, name.copy(alloc)?), Manner::Plain)),
        Err(errno) => Ok(refused_by(errno)),
    }
}

// The zone's processes are listed.
#[inline(never)]
fn ps_case(alloc: Global, kernel: &KernelCell) -> Result<Case, AllocError>
    ensures { IfOk result (λ c. c ≡ Case.Tells (Body.Processes (map row_of kernel.now.processes))) }
{
    match kernel.list_procs(alloc) {
        Ok(rows) => Ok(Case::Tells(Body::Processes(rows))),
        Err(_) => Err(AllocError),
    }
}

// One line is told.
#[inline(never)]
pub(crate) fn line_case(alloc: Global, line: Bytes) -> Result<Case, AllocError>
    ensures { IfOk result (λ c. c ≡ Case.Tells (Body.Lines (line ∷ []))) }
{
    let mut lines = Listing::new(alloc);
    lines.push(line)?;
    Ok(Case::Tells(Body::Lines(lines)))
}

// The privileges of a process are told.
#[inline(never)]
fn privs_case(alloc: Global, kernel: &KernelCell, pid: u32) -> Result<Case, AllocError>
    ensures tells { IfOk result (λ c. (p : Process) → with_pid pid kernel.now.processes ≡ Some p → c ≡ Case.Tells (Body.Lines (print_of p.privileges ∷ []))) }
    ensures of { IfOk result (λ c. (d : desk_types.Desk) → IsCaseOf d c) }
    ensures named { IfOk result (λ c. (z : Name) → IsNamedCase z c) }
    ensures free { IfOk result MountsNothing }
    ensures call { IfOk result IsCallCase }
{
    match kernel.privs(pid) {
        Some(set) => line_case(alloc, Bytes::from_vec(set.print(alloc)?)),
        None => Ok(Case::Says(Head::Ok)),
    }
}

// The arguments are told with which the zone was booted.
#[inline(never)]
pub(crate) fn bootargs_case(alloc: Global, kernel: &KernelCell) -> Result<Case, AllocError>
    ensures { IfOk result (λ c. c ≡ Case.Tells (Body.Lines (unwrap_or (bootargs_of kernel.now.id) [] ∷ []))) }
{
    let args = match kernel.bootargs_of() {
        Some(args) => Bytes::from_slice(alloc, args.bytes())?,
        None => Bytes::from_vec(Vec::new(alloc)),
    };
    line_case(alloc, args)
}

// A call of a process that the zone has.
fn call_case(
    alloc: Global,
    zone: &ZoneName,
    cell: &Cell,
    pid: u32,
    call: &Call,
) -> Result<Case, AllocError>
    ensures decides { IfOk result (λ c. (d : desk_types.Desk) (v : View) (p : Process) → Shows v zone.now cell.now → with_pid pid cell.now.kernel.processes ≡ Some p → calls v pid p call.now ≡ decision_of d c) }
    ensures of { IfOk result (λ c. (d : desk_types.Desk) → IsCaseOf d c) }
    ensures named { IfOk result (λ c. (z : Name) → IsNamedCase z c) }
    ensures free { IfOk result (λ c. IsFreeCase c cell.now.mounts.list cell.now.claims.claims) }
    ensures call { IfOk result IsCallCase }
{
    let kernel = &cell.kernel;
    match call {
        Call::Fork(name) => fork_case(alloc, kernel, pid, name),
        Call::Exec(name) => exec_case(alloc, kernel, pid, name),
        Call::Exit => Ok(Case::Change(ObjectEdit::EndProcess(pid), Manner::Plain)),
        Call::Kill(signal, target) => Ok(signal_case(kernel, true, *signal, *target)),
        Call::Ps => ps_case(alloc, kernel),
        Call::Privs => privs_case(alloc, kernel, pid),
        Call::Drop(number) => Ok(Case::Change(ObjectEdit::GiveUp(pid, *number), Manner::Plain)),
        Call::Mount(boxed) => mount_case(
            alloc,
            kernel,
            &cell.mounts,
            is_mounter(kernel, pid),
            boxed.mount(),
        ),
        Call::Umount(dir) => umount_case(alloc, &cell.mounts, is_mounter(kernel, pid), dir),
        Call::Read(path) => place_case(alloc, &cell.mounts, path, false),
        Call::Write(path) => place_case(alloc, &cell.mounts, path, true),
        Call::Mounts => mounts_case(alloc, &cell.mounts),
        Call::Links => net_case(alloc, &cell.claims),
        Call::Datasets => datasets_case(alloc, &cell.claims),
        Call::Devices => devices_case(alloc, kernel),
        Call::Zonename => line_case(alloc, Bytes::from_slice(alloc, zone.bytes())?),
        Call::Bootargs => bootargs_case(alloc, kernel),
        Call::Cons(line) => Ok(Case::Write(line.copy(alloc)?, Manner::Plain)),
        Call::True | Call::False => Ok(Case::Says(Head::Ok)),
    }
}

/// What a call comes to of the process of a number.
#[inline(never)]
#[tactic(auto, unfolding(crate::specs::Calls::called, crate::specs::State::Worlds::view_of))]
pub fn decide_call(
    alloc: Global,
    zone: &ZoneName,
    cell: &Cell,
    pid: u32,
    call: &Call,
) -> Result<Case, AllocError>
    ensures case { IfOk result (λ c. (out : Outside) → IsCaseIn zone.now out cell.now (λ v. called v pid call.now) c) }
    ensures call { IfOk result IsCallCase }
{
    match cell.kernel.check_there(pid) {
        Ok(()) => call_case(alloc, zone, cell, pid, call),
        Err(_) => Ok(Case::Says(Head::Refused(Refusal::NoProcess))),
    }
}
