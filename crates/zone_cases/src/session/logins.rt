//! What zlogin(1) comes to, and a line of a session that is logged in, or at a console.
ghost use Rattle.std.specs.Prelude.{◌≡◌, IfOk, Ok, codes, false, is_some};
ghost use Rattle.kernel_objects.specs.Kernel.{entered};
ghost use Rattle.kernel_objects.specs.Processes.{process_of};
ghost use Rattle.std.specs.Option.{option_map};
ghost use Rattle.zn_base.specs.Lines.{lines_of};
ghost use Rattle.zn_base.specs.Names.{Name};
ghost use Rattle.process_calls.specs.Calls.{call_of};
ghost use Rattle.zoneadmd_steps.specs.Code.Desks.{as_desk};
ghost use Rattle.zoneadmd_steps.specs.declared.desks.Desk as desk_types;
ghost use Rattle.zone_cases.specs.Code.Cases.{IsCallCase, IsCaseOf, IsNamedCase, decision_of, IsCaseIn, MountsNothing, objects_of};
ghost use Rattle.zone_cases.specs.Code.Cells.{Outside};
ghost use Rattle.zone_cases.specs.Code.Consoles.{console_in};
ghost use Rattle.zone_cases.specs.Session.Logins.{console_by, console_line, console_refusal, entry_refusal, escapes, escapes_at, holds_console, logged_line, login_of, logs_in, passed_as, runs, said_in, status_of};
ghost use Rattle.zone_cases.specs.State.Decisions.{answers};
ghost use Rattle.zone_pools.specs.Decisions.{Just};
ghost use Rattle.console_link.specs.Consoles.{typed as typed_at};

use crate::calls::decide_call;
use crate::cases::{AtConsole, Case, ConsoleEdit, Login, Manner, Sitting};
use crate::cell::Cell;
use crate::replies::{Body, Head, Refusal, Reply};
use crate::session::doings::Doing;
use crate::session::judging::state_now;
use commit_journal::Row;
use console_link::Console;
use kernel_objects::{Errno, KernelCell, Running};
use process_calls::{Call, CallFault, read_call};
use std::alloc::{AllocError, Global};
use zn_base::{Bytes, Listing, Text, ZoneName, ZoneState, lines};
use zoneadmd_steps::{Desk, ObjectEdit};

fn runs(desk: &Desk) -> bool
    ensures { result ≡ runs (as_desk desk.now).active }
{
    matches!(desk.active(), Some(ZoneState::Running))
}

/// Why no process may enter a zone, where none may.
pub(crate) fn entry_refusal(row: Option<&Row>, desk: &Desk, kernel: &KernelCell) -> Option<Refusal>
    ensures { result ≡ entry_refusal (option_map (λ r. r.now) row.entry) (as_desk desk.now) kernel.now }
{
    match row {
        None => Some(Refusal::NoZone),
        Some(row) if !runs(desk) => Some(Refusal::NotRunning(state_now(row, desk))),
        Some(_) if kernel.at_limit() => Some(Refusal::Errno(Errno::EAGAIN)),
        Some(_) => None,
    }
}

// The process with which a session is logged in, but for its number.
fn login_process(alloc: Global, kernel: &KernelCell) -> Result<Running, AllocError>
    ensures { IfOk result (λ p. process_of (0, p) ≡ entered kernel.now (codes "login") false 0) }
{
    let name = Text::of(alloc, b"login")?;
    Ok(kernel.entering(name, false))
}

// A session is logged in, which nothing refuses.
fn enter_case(
    alloc: Global,
    zone: &ZoneName,
    kernel: &KernelCell,
    escape: Option<u8>,
) -> Result<Case, AllocError>
    ensures decides { IfOk result (λ c. (d : desk_types.Desk) → login_of kernel.now escape ≡ decision_of d c) }
    ensures of { IfOk result (λ c. (d : desk_types.Desk) → IsCaseOf d c) }
    ensures named { IfOk result (IsNamedCase zone.now) }
    ensures free { IfOk result MountsNothing }
{
    let running = login_process(alloc, kernel)?;
    let owner = zone.copy(alloc)?;
    let login = Login {
        running,
        escape,
        owner,
    };
    Ok(Case::Login(Box::new(alloc, login)?))
}

/// A session is logged in with a process that enters the zone, where one may.
#[inline(never)]
pub(crate) fn login_case(
    alloc: Global,
    zone: &ZoneName,
    cell: &Cell,
    row: Option<&Row>,
    escape: Option<u8>,
) -> Result<Case, AllocError>
    ensures decides { IfOk result (λ c. (d : desk_types.Desk) → logs_in escape (option_map (λ r. r.now) row.entry) (as_desk cell.now.desk) cell.now.kernel ≡ decision_of d c) }
    ensures of { IfOk result (λ c. (d : desk_types.Desk) → IsCaseOf d c) }
    ensures named { IfOk result (IsNamedCase zone.now) }
    ensures free { IfOk result MountsNothing }
{
    match entry_refusal(row, &cell.desk, &cell.kernel) {
        Some(refusal) => Ok(Case::Says(Head::Refused(refusal))),
        None => enter_case(alloc, zone, &cell.kernel, escape),
    }
}

fn is_held(console: &Option<Console>) -> bool
    ensures { result ≡ is_some (console_in console.now).holder }
{
    match console {
        Some(console) => console.holder().is_some(),
        None => false,
    }
}

// Why no session may have the console of a zone that is stored and in this state, where none may.
fn console_by(state: ZoneState, console: &Option<Console>) -> Option<Refusal>
    ensures { result ≡ console_by state (console_in console.now) }
{
    match state {
        ZoneState::Configured | ZoneState::Incomplete => Some(Refusal::NotRunning(state)),
        _ if is_held(console) => Some(Refusal::Taken),
        _ => None,
    }
}

// Why no session may have a zone's console, where none may.
fn console_refusal(row: Option<&Row>, desk: &Desk, console: &Option<Console>) -> Option<Refusal>
    ensures { result ≡ console_refusal (option_map (λ r. r.now) row.entry) (as_desk desk.now) (console_in console.now) }
{
    match row {
        Some(row) => console_by(state_now(row, desk), console),
        None => Some(Refusal::NoZone),
    }
}

// The lines that are taken of a console once a line is typed there.
fn output_of(alloc: Global, console: &Console, line: &[u8]) -> Result<Listing<Bytes>, AllocError>
    ensures { IfOk result (λ told. told ≡ lines_of (typed_at line.now console.now).output) }
{
    match console.output_after(alloc, line) {
        Ok(output) => lines(alloc, &output),
        // Memory is all that this can want.
        Err(_) => Err(AllocError),
    }
}

// The same, where there is none yet of one as new.
fn output_after(
    alloc: Global,
    console: &Option<Console>,
    line: &[u8],
) -> Result<Listing<Bytes>, AllocError>
    ensures { IfOk result (λ told. told ≡ lines_of (typed_at line.now (console_in console.now)).output) }
{
    match console {
        Some(console) => output_of(alloc, console, line),
        None => match Console::new(alloc) {
            Ok(console) => output_of(alloc, &console, line),
            Err(_) => Err(AllocError),
        },
    }
}

/// A session has the zone's console from now on, where it may, and takes what is kept.
#[inline(never)]
pub(crate) fn hold_console_case(
    alloc: Global,
    zone: &ZoneName,
    cell: &Cell,
    row: Option<&Row>,
    escape: Option<u8>,
) -> Result<Case, AllocError>
    ensures decides { IfOk result (λ c. (d : desk_types.Desk) → holds_console escape (option_map (λ r. r.now) row.entry) (as_desk cell.now.desk) (console_in cell.now.console) ≡ decision_of d c) }
    ensures of { IfOk result (λ c. (d : desk_types.Desk) → IsCaseOf d c) }
    ensures named { IfOk result (IsNamedCase zone.now) }
    ensures free { IfOk result MountsNothing }
{
    if let Some(refusal) = console_refusal(row, &cell.desk, &cell.console) {
        return Ok(Case::Says(Head::Refused(refusal)));
    }
    let sitting = Sitting {
        doing: Some(Doing::AtConsole(escape)),
        owner: zone.copy(alloc)?,
    };
    let at = AtConsole {
        edit: ConsoleEdit::Hold,
        sitting: Some(sitting),
        reply: Reply {
            head: Head::Ok,
            body: Body::Lines(output_after(alloc, &cell.console, b"")?),
        },
    };
    Ok(Case::AtConsole(Box::new(alloc, at)?))
}

fn escapes_at(byte: u8, line: &[u8]) -> bool
    ensures { result ≡ escapes_at byte line.now }
{
    match line {
        [first, second, ..] => *first == byte && *second == b'.',
        _ => false,
    }
}

// Whether a line begins with the escape byte and a period.
fn escapes(escape: Option<u8>, line: &[u8]) -> bool
    ensures { result ≡ escapes escape line.now }
{
    match escape {
        Some(byte) => escapes_at(byte, line),
        None => false,
    }
}

/// A line of a session at the console: it leaves, or takes what is kept once the line is there too.
#[inline(never)]
#[tactic(auto, unfolding(crate::specs::State::Worlds::view_of))]
pub(crate) fn console_case(
    alloc: Global,
    zone: &ZoneName,
    cell: &Cell,
    escape: Option<u8>,
    line: &[u8],
) -> Result<Case, AllocError>
    ensures { IfOk result (λ c. (out : Outside) → IsCaseIn zone.now out cell.now (λ v. console_line v escape line.now) c) }
{
    let at = if escapes(escape, line) {
        let owner = zone.copy(alloc)?;
        AtConsole {
            edit: ConsoleEdit::Leave,
            sitting: Some(Sitting { doing: None, owner }),
            reply: Reply {
                head: Head::Status(0),
                body: Body::Nothing,
            },
        }
    } else {
        AtConsole {
            edit: ConsoleEdit::Take,
            sitting: None,
            reply: Reply {
                head: Head::Ok,
                body: Body::Lines(output_after(alloc, &cell.console, line)?),
            },
        }
    };
    Ok(Case::AtConsole(Box::new(alloc, at)?))
}

fn status_of(call: &Call) -> u8
    ensures { result ≡ status_of call.now }
{
    match call {
        Call::False => 1,
        _ => 0,
    }
}

// Nothing is done but this reply.
fn answer(alloc: Global, head: Head, body: Body) -> Result<Case, AllocError>
    ensures decides { IfOk result (λ c. (d : desk_types.Desk) → Just (answers (record { head = head; body = body })) ≡ decision_of d c) }
    ensures of { IfOk result (λ c. (d : desk_types.Desk) → IsCaseOf d c) }
    ensures named { IfOk result (λ c. (z : Name) → IsNamedCase z c) }
    ensures objects { IfOk result (λ c. objects_of c ≡ ObjectEdit.Nothing) }
{
    Ok(Case::Answers(Box::new(alloc, Reply { head, body })?))
}

// What a call comes to that is told by one line.
fn pass_head(alloc: Global, head: Head, status: u8) -> Result<Case, AllocError>
    ensures decides { IfOk result (λ c. (d : desk_types.Desk) → passed_as status (decision_of d (Case.Says head)) ≡ decision_of d c) }
    ensures of { IfOk result (λ c. (d : desk_types.Desk) → IsCaseOf d c) }
    ensures named { IfOk result (λ c. (z : Name) → IsNamedCase z c) }
    ensures objects { IfOk result (λ c. objects_of c ≡ ObjectEdit.Nothing) }
{
    match head {
        Head::Refused(why) => answer(alloc, Head::Status(1), Body::Why(why)),
        _ => Ok(Case::Says(Head::Status(status))),
    }
}

// What a call comes to is passed on to the session that is logged in.
fn pass_on(alloc: Global, case: Case, status: u8) -> Result<Case, AllocError>
    requires { IsCallCase case }
    ensures decides { IfOk result (λ c. (d : desk_types.Desk) → passed_as status (decision_of d case) ≡ decision_of d c) }
    ensures of { IfOk result (λ c. (d : desk_types.Desk) → IsCaseOf d c) }
    ensures named { IfOk result (λ c. (z : Name) → IsNamedCase z c) }
    ensures objects { IfOk result (λ c. objects_of c ≡ objects_of case) }
{
    match case {
        Case::Says(head) => pass_head(alloc, head, status),
        Case::Tells(body) => answer(alloc, Head::Status(status), body),
        Case::Change(objects, _) => Ok(Case::Change(objects, Manner::Status(status))),
        Case::Fork(running, _) => Ok(Case::Fork(running, Manner::Status(status))),
        Case::Write(line, _) => Ok(Case::Write(line, Manner::Status(status))),
        _ => unreachable!(),
    }
}

// A call of the process with which a session is logged in.
#[tactic(auto, unfolding(crate::specs::Calls::called, crate::specs::State::Worlds::view_of))]
fn said_case(
    alloc: Global,
    zone: &ZoneName,
    cell: &Cell,
    pid: u32,
    call: &Call,
) -> Result<Case, AllocError>
    ensures { IfOk result (λ c. (out : Outside) → IsCaseIn zone.now out cell.now (λ v. said_in v pid (Ok call.now)) c) }
{
    let case = decide_call(alloc, zone, cell, pid, call)?;
    pass_on(alloc, case, status_of(call))
}

/// A line of a session that is logged in: its process goes, or makes a call. Any other line is no command there.
#[inline(never)]
#[tactic(auto, unfolding(crate::specs::State::Worlds::view_of))]
pub(crate) fn logged_case(
    alloc: Global,
    zone: &ZoneName,
    cell: &Cell,
    pid: u32,
    escape: Option<u8>,
    line: &[u8],
) -> Result<Case, AllocError>
    ensures { IfOk result (λ c. (out : Outside) → IsCaseIn zone.now out cell.now (λ v. logged_line v pid escape line.now) c) }
{
    if escapes(escape, line) {
        let gone = ObjectEdit::EndProcess(pid);
        return Ok(Case::Change(gone, Manner::Status(0)));
    }
    if line.is_empty() {
        return Ok(Case::Says(Head::Status(0)));
    }
    match read_call(alloc, line) {
        Ok(call) => said_case(alloc, zone, cell, pid, &call),
        Err(CallFault::Memory) => Err(AllocError),
        Err(CallFault::BadWord(_)) => Ok(Case::Says(Head::Status(127))),
    }
}
