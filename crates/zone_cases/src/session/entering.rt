//! What a call comes to of a process that enters the zone for it alone, by zlogin(1).
ghost use Rattle.std.specs.Prelude.{true, ◌≡◌, ◌∷◌, [], Bool, IfOk, IsTrue, List, None, Some, false, if◌then◌else◌, map, nat_eq, ℕ};
ghost use Rattle.std.specs.Option.{option_map, option_or};
ghost use Rattle.datalink_table.specs.declared.claims.Claim as claim_types;
ghost use Rattle.kernel_objects.specs.Kernel.{entered, fork_set};
ghost use Rattle.kernel_objects.specs.Processes.{Process, below, ends, row_of, with_pid};
ghost use Rattle.kernel_objects.specs.declared.objects.ProcRow as row_types;
ghost use Rattle.priv_sets.specs.Sets.{print_of};
ghost use Rattle.zn_base.specs.Names.{Name};
ghost use Rattle.zn_base.specs.Text.{is_text};
ghost use Rattle.process_calls.specs.Calls.{call_of};
ghost use Rattle.zone_pools.specs.Owned_lists.{Put, edited};
ghost use Rattle.zone_pools.specs.Decisions.{Just};
ghost use Rattle.zoneadmd_steps.specs.Code.Cases.{IsFreeFor};
ghost use Rattle.zoneadmd_steps.specs.Code.Desks.{as_desk};
ghost use Rattle.zoneadmd_steps.specs.declared.desks.Desk as desk_types;
ghost use Rattle.zone_cases.specs.Calls.{calls, execs, forks, signals};
ghost use Rattle.zone_cases.specs.Code.Cases.{IsCallCase, IsCaseOf, IsNamedCase, MountsNothing, IsFreeCase, decision_of, errand_objects, objects_of};
ghost use Rattle.zone_cases.specs.Code.Cells.{Shows};
ghost use Rattle.zone_cases.specs.Code.Errands.{errand_effect, is_told};
ghost use Rattle.zone_cases.specs.Session.Logins.{alone, call_word, entered_line, enters, errand, with_newcomer, with_status};
ghost use Rattle.zone_cases.specs.State.Decisions.{says, tells};
ghost use Rattle.zone_cases.specs.State.Worlds.{View};
ghost use Rattle.zone_cases.specs.declared.replies.Body.TheVariants as bodies;

use crate::calls::mounts::{
    datasets_case, devices_case, mount_case, mounts_case, net_case, place_case, umount_case,
};
use crate::calls::{bootargs_case, line_case};
use crate::cases::{Case, Entering, Errand, Manner};
use crate::cell::Cell;
use crate::replies::{Body, Head, Refusal, Reply};
use crate::session::logins::entry_refusal;
use commit_journal::Row;
use kernel_objects::{Errno, KernelCell, ProcRow, Signal};
use priv_sets::{PROC_EXEC, PROC_FORK, PrivSet, SYS_MOUNT};
use process_calls::{Call, CallFault, read_call};
use std::alloc::{AllocError, Global};
use zn_base::{Bytes, Text, ZoneName};
use zoneadmd_steps::ObjectEdit;

// The first word of a call.
fn call_word(call: &Call) -> &'static [u8]
    ensures word { result.now ≡ call_word call.now }
    ensures text { IsTrue (is_text result.now) }
{
    match call {
        Call::Fork(_) => b"fork",
        Call::Exec(_) => b"exec",
        Call::Exit => b"exit",
        Call::Kill(_, _) => b"kill",
        Call::Ps => b"ps",
        Call::Privs => b"privs",
        Call::Drop(_) => b"drop",
        Call::Mount(_) => b"mount",
        Call::Umount(_) => b"umount",
        Call::Read(_) => b"read",
        Call::Write(_) => b"write",
        Call::Mounts => b"mounts",
        Call::Links => b"links",
        Call::Datasets => b"datasets",
        Call::Devices => b"devices",
        Call::Zonename => b"zonename",
        Call::Bootargs => b"bootargs",
        Call::Cons(_) => b"cons",
        Call::True => b"true",
        Call::False => b"false",
    }
}

// A call that does nothing but return a status.
fn returns(status: u8) -> Errand
    ensures { result ≡ Errand.Answers (says (Head.Status status)) }
{
    Errand::Answers(Reply {
        head: Head::Status(status),
        body: Body::Nothing,
    })
}

// A call that tells something.
fn tells(body: Body) -> Errand
    ensures { result ≡ Errand.Answers (record { head = Head.Status 0; body = body }) }
{
    Errand::Answers(Reply {
        head: Head::Status(0),
        body,
    })
}

// A call that is refused.
fn refuses(refusal: Refusal) -> Errand
    ensures { result ≡ Errand.Answers (record { head = Head.Status 1; body = Body.Why refusal }) }
{
    Errand::Answers(Reply {
        head: Head::Status(1),
        body: Body::Why(refusal),
    })
}

// What a call comes to that is told by one line.
fn errand_by_head(head: Head) -> Errand
    ensures decides { (n : ℕ) (d : desk_types.Desk) → with_status 0 (alone (decision_of d (Case.Says head))) ≡ errand_effect n result }
    ensures objects { errand_objects result ≡ ObjectEdit.Nothing }
{
    match head {
        Head::Refused(why) => refuses(why),
        _ => returns(0),
    }
}

// What a call comes to, whoever makes it.
fn errand_by(case: Case) -> Errand
    requires { IsCallCase case }
    ensures decides { (n : ℕ) (d : desk_types.Desk) → with_status 0 (alone (decision_of d case)) ≡ errand_effect n result }
    ensures objects { errand_objects result ≡ objects_of case }
{
    match case {
        Case::Says(head) => errand_by_head(head),
        Case::Tells(body) => tells(body),
        Case::Change(objects, _) => Errand::Does(objects),
        Case::Write(line, _) => Errand::Writes(line),
        Case::Fork(_, _) => refuses(Refusal::Errno(Errno::EAGAIN)),
        _ => unreachable!(),
    }
}

// It makes no other process.
fn fork_errand(limit: &PrivSet) -> Errand
    ensures decides { (n : ℕ) (p : Process) (full : Bool) (name : List ℕ) → p.privileges ≡ limit.now → with_status 0 (alone (forks p name (fork_set (Some p) full))) ≡ errand_effect n result }
    ensures objects { errand_objects result ≡ ObjectEdit.Nothing }
{
    if limit.has(PROC_FORK) {
        refuses(Refusal::Errno(Errno::EAGAIN))
    } else {
        refuses(Refusal::Errno(Errno::EPERM))
    }
}

// It runs another program.
fn exec_errand(alloc: Global, limit: &PrivSet, name: &Text) -> Result<Errand, AllocError>
    ensures decides { IfOk result (λ e. (n : ℕ) (p : Process) → p.privileges ≡ limit.now → with_status 0 (alone (execs n p name.now)) ≡ errand_effect n e) }
    ensures objects { IfOk result (λ e. errand_objects e ≡ ObjectEdit.Nothing) }
{
    if limit.has(PROC_EXEC) {
        Ok(Errand::Renames(name.copy(alloc)?))
    } else {
        Ok(refuses(Refusal::Errno(Errno::EPERM)))
    }
}

// Whether a signal ends a process that isn't the zone's first.
fn is_deadly(signal: Signal) -> bool
    ensures { (p : Process) → p.first ≡ false → result ≡ ends true signal p }
{
    !matches!(signal, Signal::Zero)
}

// It signals a process of the zone, or itself.
fn kill_errand(kernel: &KernelCell, signal: Signal, target: u32) -> Errand
    ensures decides { (n : ℕ) (p : Process) → p.first ≡ false
        → with_status 0 (alone (signals true signal target (option_or (with_pid target kernel.now.processes) (if nat_eq target n then Some p else None)))) ≡ errand_effect n result }
    ensures objects { (cs : List claim_types.Claim) → MountsNothing (Case.Change (errand_objects result) Manner.Plain) }
{
    match kernel.check_signal(true, signal, target) {
        Ok(true) => Errand::Does(ObjectEdit::EndProcess(target)),
        Ok(false) => returns(0),
        Err(_) => Errand::Signals(is_deadly(signal), target),
    }
}

// It lists the zone's processes, itself among them.
fn ps_errand(alloc: Global, kernel: &KernelCell, name: Text) -> Result<Errand, AllocError>
    ensures decides { IfOk result (λ e. (n : ℕ) (p : Process) → p.pid ≡ n → p.parent ≡ 0 → p.name ≡ name
        → with_status 0 (alone (Just (tells (bodies.Processes (map row_of (edited (Put (below n) p) kernel.now.processes)))))) ≡ errand_effect n e) }
    ensures objects { IfOk result (λ e. errand_objects e ≡ ObjectEdit.Nothing) }
{
    let mut rows = match kernel.list_procs(alloc) {
        Ok(rows) => rows,
        Err(_) => return Err(AllocError),
    };
    rows.push(ProcRow {
        pid: 0,
        parent: 0,
        name,
    })?;
    Ok(Errand::Lists(rows))
}

// Its privileges are told.
fn privs_errand(alloc: Global, limit: &PrivSet) -> Result<Errand, AllocError>
    ensures decides { IfOk result (λ e. (n : ℕ) (d : desk_types.Desk) → with_status 0 (alone (Just (tells (bodies.Lines (print_of limit.now ∷ []))))) ≡ errand_effect n e) }
    ensures objects { IfOk result (λ e. errand_objects e ≡ ObjectEdit.Nothing) }
{
    let case = line_case(alloc, Bytes::from_vec(limit.print(alloc)?))?;
    Ok(errand_by(case))
}

// The case of a call that any process of the zone would come to, or whose process is known by its privileges.
fn call_case(
    alloc: Global,
    zone: &ZoneName,
    cell: &Cell,
    limit: &PrivSet,
    call: &Call,
) -> Result<Case, AllocError>
    requires { is_told call.now ≡ true }
    ensures decides { IfOk result (λ c. (d : desk_types.Desk) (v : View) (n : ℕ) (p : Process) → Shows v zone.now cell.now → p.privileges ≡ limit.now → calls (with_newcomer p v) n p call.now ≡ decision_of d c) }
    ensures free { IfOk result (λ c. IsFreeCase c cell.now.mounts.list cell.now.claims.claims) }
    ensures call { IfOk result IsCallCase }
{
    let mounter = limit.has(SYS_MOUNT);
    match call {
        Call::Mount(boxed) => {
            mount_case(alloc, &cell.kernel, &cell.mounts, mounter, boxed.mount())
        }
        Call::Umount(dir) => umount_case(alloc, &cell.mounts, mounter, dir),
        Call::Read(path) => place_case(alloc, &cell.mounts, path, false),
        Call::Write(path) => place_case(alloc, &cell.mounts, path, true),
        Call::Mounts => mounts_case(alloc, &cell.mounts),
        Call::Links => net_case(alloc, &cell.claims),
        Call::Datasets => datasets_case(alloc, &cell.claims),
        Call::Devices => devices_case(alloc, &cell.kernel),
        Call::Zonename => line_case(alloc, Bytes::from_slice(alloc, zone.bytes())?),
        Call::Bootargs => bootargs_case(alloc, &cell.kernel),
        Call::Cons(line) => Ok(Case::Write(line.copy(alloc)?, Manner::Plain)),
        _ => unreachable!(),
    }
}

// The same, as what its process comes for.
fn told_errand(
    alloc: Global,
    zone: &ZoneName,
    cell: &Cell,
    limit: &PrivSet,
    call: &Call,
) -> Result<Errand, AllocError>
    requires { is_told call.now ≡ true }
    ensures decides { IfOk result (λ e. (d : desk_types.Desk) (v : View) (n : ℕ) (p : Process) → Shows v zone.now cell.now → p.privileges ≡ limit.now → with_status 0 (alone (calls (with_newcomer p v) n p call.now)) ≡ errand_effect n e) }
    ensures free { IfOk result (λ e. IsFreeFor (errand_objects e) cell.now.mounts.list cell.now.claims.claims) }
{
    Ok(errand_by(call_case(alloc, zone, cell, limit, call)?))
}

// What a call comes to of a process that enters for it.
fn errand_of(alloc: Global, zone: &ZoneName, cell: &Cell, call: &Call) -> Result<Errand, AllocError>
    ensures decides { IfOk result (λ e. (d : desk_types.Desk) (v : View) (n : ℕ) → Shows v zone.now cell.now → errand v (entered cell.now.kernel (call_word call.now) false n) call.now ≡ errand_effect n e) }
    ensures free { IfOk result (λ e. IsFreeFor (errand_objects e) cell.now.mounts.list cell.now.claims.claims) }
{
    let kernel = &cell.kernel;
    let limit = kernel.limit();
    match call {
        Call::Fork(_) => Ok(fork_errand(&limit)),
        Call::Exec(name) => exec_errand(alloc, &limit, name),
        Call::Exit => Ok(Errand::Exits),
        Call::Kill(signal, target) => Ok(kill_errand(kernel, *signal, *target)),
        Call::Ps => ps_errand(alloc, kernel, Text::of(alloc, b"ps")?),
        Call::Privs => privs_errand(alloc, &limit),
        Call::Drop(number) => Ok(Errand::GivesUp(*number)),
        Call::True => Ok(returns(0)),
        Call::False => Ok(returns(1)),
        _ => told_errand(alloc, zone, cell, &limit, call),
    }
}

// A process enters for a call, which nothing refuses.
fn entering_case(
    alloc: Global,
    zone: &ZoneName,
    cell: &Cell,
    call: &Call,
) -> Result<Case, AllocError>
    ensures decides { IfOk result (λ c. (d : desk_types.Desk) (v : View) → Shows v zone.now cell.now → enters v call.now ≡ decision_of d c) }
    ensures of { IfOk result (λ c. (d : desk_types.Desk) → IsCaseOf d c) }
    ensures named { IfOk result (λ c. (z : Name) → IsNamedCase z c) }
    ensures free { IfOk result (λ c. IsFreeCase c cell.now.mounts.list cell.now.claims.claims) }
{
    let errand = errand_of(alloc, zone, cell, call)?;
    let name = Text::of(alloc, call_word(call))?;
    let running = cell.kernel.entering(name, false);
    let entering = Entering { running, errand };
    Ok(Case::Enter(Box::new(alloc, entering)?))
}

/// What a text comes to that follows `zlogin` and the name of a zone: a process enters and makes the call that the text
/// spells, where one may.
#[inline(never)]
pub(crate) fn entered_case(
    alloc: Global,
    zone: &ZoneName,
    cell: &Cell,
    row: Option<&Row>,
    text: &[u8],
) -> Result<Case, AllocError>
    ensures decides { IfOk result (λ c. (d : desk_types.Desk) (v : View) → Shows v zone.now cell.now → v.world.stored ≡ option_map (λ r. r.now) row.entry → v.world.desk ≡ as_desk cell.now.desk
        → entered_line v (call_of text.now) ≡ decision_of d c) }
    ensures of { IfOk result (λ c. (d : desk_types.Desk) → IsCaseOf d c) }
    ensures named { IfOk result (λ c. (z : Name) → IsNamedCase z c) }
    ensures free { IfOk result (λ c. IsFreeCase c cell.now.mounts.list cell.now.claims.claims) }
{
    let call = match read_call(alloc, text) {
        Ok(call) => call,
        Err(CallFault::Memory) => return Err(AllocError),
        Err(CallFault::BadWord(_)) => return Ok(Case::Says(Head::Refused(Refusal::Usage))),
    };
    match entry_refusal(row, &cell.desk, &cell.kernel) {
        Some(refusal) => Ok(Case::Says(Head::Refused(refusal))),
        None => entering_case(alloc, zone, cell, &call),
    }
}
