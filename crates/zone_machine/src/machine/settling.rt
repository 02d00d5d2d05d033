//! How a case is settled: the desk changes, and what else is to be done is told. No memory is taken, and nothing fails.
ghost use Rattle.std.specs.Prelude.{◌+◌, ◌<◌, ◌≡◌, ◌≤◌, IfOk, IfSome, None, Option, Some, false, length, nat_lt, not, position, true, unwrap_or, ℕ};
ghost use Rattle.zn_base.specs.Names.{Name};
ghost use Rattle.zone_cases.specs.Code.Cases.{IsCaseOf, IsNamedCase, IsNamedCommitter, as_typist, case_active, decision_of, errand_console, errand_objects, made, numbered_row, console_of_case, objects_of, seats, seats_committer};
ghost use Rattle.zone_cases.specs.Code.Consoles.{HasConsole};
ghost use Rattle.zone_cases.specs.Code.Doings.{sits};
ghost use Rattle.zone_cases.specs.Code.Errands.{errand_effect, placed};
ghost use Rattle.zone_cases.specs.Session.Logins.{goes_after};
ghost use Rattle.zone_cases.specs.declared.cell.Cell as cell_types;
ghost use Rattle.console_link.specs.Consoles.{Console};
ghost use Rattle.zoneadmd_steps.specs.declared.cases.TurnCase as turn_types;
ghost use Rattle.std.specs.List.{list_all};
ghost use Rattle.zoneadmd_steps.specs.Code.Cases.{object_edits, premise_of};
ghost use Rattle.zoneadmd_steps.specs.Local.{is_of_own};
ghost use Rattle.zone_machine.specs.Code.Records.{HasNumber};
ghost use Rattle.zone_machine.specs.Code.Rooms.{HasRoomFor, HasRoomToChange};
ghost use Rattle.zoneadmd_steps.specs.Code.Rooms.{HasRequestRoom};
ghost use Rattle.zone_machine.specs.Code.Works.{EndsNoProcess, IsNamedWork, IsStoredOf, Works, rest_of};
ghost use Rattle.zone_cases.specs.Session.Commits.{removes};
ghost use Rattle.zone_cases.specs.State.Decisions.{act_of, says};
ghost use Rattle.zone_pools.specs.Decisions.{number_in};
ghost use Rattle.zoneadmd_steps.specs.Desks as desks;
ghost use Rattle.zoneadmd_steps.specs.Code.Desks.{as_desk};
ghost use Rattle.zoneadmd_steps.specs.Desks.{is_full, with_request};
ghost use Rattle.zone_cases.specs.State.Worlds.{World};
ghost use Rattle.zoneadmd_steps.specs.declared.desks.Desk as desk_types;

use crate::machine::work::{Ending, Storing, Work};
use kernel_objects::{Errno, ProcRow, Running};
use std::alloc::Global;
use zn_base::{Bytes, Listing, ZoneName};
use zone_cases::{
    AtConsole, Body, Case, Committed, ConsoleEdit, Doing, Entering, Errand, Head, Login, Manner,
    Refusal, Removed, Reply, Seated, Sitting,
};
use zone_pools::{Grant, Pool, number_in};
use zoneadmd_steps::{Desk, ObjectEdit, QueuedRequest, Stored, settle_turn};

// A pool denies what would be stored; what was told before is told.
fn denied(pool: Pool, told: Listing<Bytes>, sits: Option<Sitting>) -> Work
    ensures { result ≡ record { stored = Storing.Nothing; objects = ObjectEdit.Nothing; sits = sits; console = ConsoleEdit.Nothing; ended = None; reply = record { head = Head.Refused (Refusal.Denied pool); body = Body.Lines told } } }
{
    Work {
        sits,
        ..Work::replying(Reply {
            head: Head::Refused(Refusal::Denied(pool)),
            body: Body::Lines(told),
        })
    }
}

// What becomes of the event's session alone.
fn seat(seated: Box<Seated>) -> Work
    ensures { result ≡ record { stored = Storing.Nothing; objects = ObjectEdit.Nothing; sits = Some seated.value.sitting; console = ConsoleEdit.Nothing; ended = None; reply = seated.value.reply } }
{
    let Seated { sitting, reply } = Box::into_inner(seated);
    Work {
        sits: Some(sitting),
        ..Work::replying(reply)
    }
}

// A configuration is committed, where the grant gives its record a number.
fn commit(committed: Box<Committed>, grant: Grant) -> Work
    requires { IfOk (number_in grant) (λ n. numbered_row committed.value.novelty committed.value.owner committed.value.row.value n ≡ committed.value.row.value) }
    ensures works { (n : Option ℕ) (v : World) (d : desks.Desk) → v.desk ≡ d → Works n (rest_of (act_of (made committed.value.novelty committed.value.owner committed.value.row.value committed.value.told committed.value.committer) grant)) v d result }
    ensures objects { result.objects ≡ ObjectEdit.Nothing }
    ensures console { result.console ≡ ConsoleEdit.Nothing }
    ensures sits { seats_committer committed.value.committer ≡ false → result.sits ≡ None }
    ensures named { (z : Name) → IsNamedCommitter z committed.value.committer → IfSome result.sits (λ s. s.owner ≡ z) }
    ensures owner { IsStoredOf committed.value.owner result.stored }
{
    let Committed {
        row,
        owner,
        novelty: _,
        told,
        committer,
    } = Box::into_inner(committed);
    match number_in(grant) {
        Ok(number) => Work {
            stored: Storing::Row(Stored { row, owner }),
            sits: committer.stored(number),
            ..Work::telling(Body::Lines(told))
        },
        Err(pool) => denied(pool, told, committer.denied()),
    }
}

// A zone is removed, where the grant gives its record a number.
fn remove(removed: Box<Removed>, grant: Grant) -> Work
    ensures works { (n : Option ℕ) (v : World) (d : desks.Desk) → v.desk ≡ d → Works n (rest_of (act_of (removes removed.value.told (as_typist removed.value.committer)) grant)) v d result }
    ensures objects { result.objects ≡ ObjectEdit.Nothing }
    ensures console { result.console ≡ ConsoleEdit.Nothing }
    ensures sits { seats_committer removed.value.committer ≡ false → result.sits ≡ None }
    ensures named { (z : Name) → IsNamedCommitter z removed.value.committer → IfSome result.sits (λ s. s.owner ≡ z) }
    ensures owner { IsStoredOf removed.value.owner result.stored }
{
    let Removed {
        owner,
        told,
        committer,
    } = Box::into_inner(removed);
    match number_in(grant) {
        Ok(_) => Work {
            stored: Storing::Removal(owner),
            sits: committer.removed(),
            ..Work::telling(Body::Lines(told))
        },
        Err(pool) => denied(pool, told, committer.denied()),
    }
}

// A process makes another, which has come to the kernel already.
fn fork(running: Box<Running>, manner: Manner, grant: Grant) -> Work
    ensures works { (n : Option ℕ) (v : World) (d : desk_types.Desk) (e : desks.Desk) → v.desk ≡ e → Works n (rest_of (act_of (decision_of d (Case.Fork running manner)) grant)) v e result }
    ensures objects { result.objects ≡ ObjectEdit.Nothing }
    ensures sits { result.sits ≡ None }
    ensures console { result.console ≡ ConsoleEdit.Nothing }
    ensures stored { result.stored ≡ Storing.Nothing }
{
    match number_in(grant) {
        Ok(pid) => Work::replying(Reply {
            head: manner.done(),
            body: Body::Child(pid),
        }),
        Err(pool) => Work::replying(manner.refusing(Refusal::Denied(pool))),
    }
}

// A session is logged in with a process, which has come to the kernel already.
fn log_in(login: Box<Login>, grant: Grant) -> Work
    ensures works { (n : Option ℕ) (v : World) (d : desk_types.Desk) (e : desks.Desk) → v.desk ≡ e → Works n (rest_of (act_of (decision_of d (Case.Login login)) grant)) v e result }
    ensures objects { result.objects ≡ ObjectEdit.Nothing }
    ensures named { IfSome result.sits (λ s. s.owner ≡ login.value.owner) }
    ensures console { result.console ≡ ConsoleEdit.Nothing }
    ensures stored { result.stored ≡ Storing.Nothing }
{
    let Login {
        running: _,
        escape,
        owner,
    } = Box::into_inner(login);
    match number_in(grant) {
        Ok(pid) => Work {
            sits: Some(Sitting {
                doing: Some(Doing::LoggedIn(pid, escape)),
                owner,
            }),
            ..Work::saying(Head::Ok)
        },
        Err(pool) => Work::saying(Head::Refused(Refusal::Denied(pool))),
    }
}

// Whether a process has a number below this.
fn is_below(row: &ProcRow, pid: u32) -> bool
    ensures { result ≡ nat_lt row.now.pid pid }
{
    row.pid < pid
}

// The first row of a process that has this number or a greater one.
fn first_from(rows: &[ProcRow], pid: u32) -> Option<usize>
    ensures first { result ≡ position (λ r. not (nat_lt r.pid pid)) rows.now }
    ensures bound { IfSome result (λ i. i ≤ length rows.now) }
{
    rows.iter().position(|row| !is_below(row, pid))
}

// Where the row of a process with this number stands among others.
fn place_of(rows: &[ProcRow], pid: u32) -> usize
    ensures place { result ≡ unwrap_or (position (λ r. not (nat_lt r.pid pid)) rows.now) (length rows.now) }
    ensures bound { result ≤ length rows.now }
{
    first_from(rows, pid).unwrap_or(rows.len())
}

// The last row is that of the process with this number, and stands in its place.
fn place_last(rows: Listing<ProcRow>, pid: u32) -> Listing<ProcRow>
    ensures { result ≡ placed pid rows }
{
    let mut rows = rows.into_vec();
    let Some(last) = rows.pop() else {
        return Listing::from_vec(rows);
    };
    let at = place_of(&rows, pid);
    match rows.insert(at, ProcRow { pid, ..last }) {
        Ok(()) => {}
        Err(_) => unreachable!(),
    }
    Listing::from_vec(rows)
}

// A process with this number signals one that wasn't there before it: itself, or nobody.
fn signal_work(deadly: bool, target: u32, pid: u32) -> Work
    ensures works { (n : Option ℕ) (v : World) (d : desks.Desk) → v.desk ≡ d → Works n (record { came = None; effect = goes_after pid (errand_effect pid (Errand.Signals deadly target)) }) v d result }
    ensures objects { (c : cell_types.Cell) → HasRoomToChange ObjectEdit.Nothing c → HasRoomToChange result.objects c }
    ensures console { result.console ≡ ConsoleEdit.Nothing }
    ensures sits { result.sits ≡ None }
    ensures stored { result.stored ≡ Storing.Nothing }
{
    let ended = Some(Ending::Process(pid));
    if target != pid {
        return Work {
            ended,
            ..Work::replying(Reply {
                head: Head::Status(1),
                body: Body::Why(Refusal::Errno(Errno::ESRCH)),
            })
        };
    }
    if !deadly {
        return Work {
            ended,
            ..Work::saying(Head::Status(0))
        };
    }
    Work {
        objects: ObjectEdit::EndProcess(target),
        ended,
        ..Work::saying(Head::Status(0))
    }
}

// What the zone has after a call of the process with this number, which goes then.
fn errand_work(errand: Errand, pid: u32) -> Work
    ensures works { (n : Option ℕ) (v : World) (d : desks.Desk) → v.desk ≡ d → Works n (record { came = None; effect = goes_after pid (errand_effect pid errand) }) v d result }
    ensures objects { (c : cell_types.Cell) → HasRoomToChange (errand_objects errand) c → HasRoomToChange result.objects c }
    ensures console { result.console ≡ errand_console errand }
    ensures sits { result.sits ≡ None }
    ensures stored { result.stored ≡ Storing.Nothing }
{
    let ended = Some(Ending::Process(pid));
    match errand {
        Errand::Answers(reply) => Work {
            ended,
            ..Work::replying(reply)
        },
        Errand::Does(objects) => Work {
            objects,
            ended,
            ..Work::saying(Head::Status(0))
        },
        Errand::Writes(line) => Work {
            console: ConsoleEdit::Line(line),
            ended,
            ..Work::saying(Head::Status(0))
        },
        Errand::Renames(name) => Work {
            objects: ObjectEdit::Rename(pid, name),
            ended,
            ..Work::saying(Head::Status(0))
        },
        Errand::Exits => Work {
            objects: ObjectEdit::EndProcess(pid),
            ended,
            ..Work::saying(Head::Status(0))
        },
        Errand::GivesUp(number) => Work {
            objects: ObjectEdit::GiveUp(pid, number),
            ended,
            ..Work::saying(Head::Status(0))
        },
        Errand::Lists(rows) => Work {
            ended,
            ..Work::replying(Reply {
                head: Head::Status(0),
                body: Body::Processes(place_last(rows, pid)),
            })
        },
        Errand::Signals(deadly, target) => signal_work(deadly, target, pid),
    }
}

// A process entered for a call, and has come to the kernel already.
fn run_errand(entering: Box<Entering>, grant: Grant) -> Work
    ensures works { (n : Option ℕ) (v : World) (d : desk_types.Desk) (e : desks.Desk) → v.desk ≡ e → Works n (rest_of (act_of (decision_of d (Case.Enter entering)) grant)) v e result }
    ensures objects { (c : cell_types.Cell) → HasRoomToChange (errand_objects entering.value.errand) c → HasRoomToChange result.objects c }
    ensures console { (o : Option Console) → HasConsole (errand_console entering.value.errand) o → HasConsole result.console o }
    ensures sits { result.sits ≡ None }
    ensures stored { result.stored ≡ Storing.Nothing }
{
    let Entering { running: _, errand } = Box::into_inner(entering);
    match number_in(grant) {
        Ok(pid) => errand_work(errand, pid),
        Err(pool) => Work::saying(Head::Refused(Refusal::Denied(pool))),
    }
}

// What becomes of the zone's console, and of the session that is there.
fn at_console(at: Box<AtConsole>) -> Work
    ensures { result ≡ record { stored = Storing.Nothing; objects = ObjectEdit.Nothing; sits = at.value.sitting; console = at.value.edit; ended = None; reply = at.value.reply } }
{
    let AtConsole {
        edit,
        sitting,
        reply,
    } = Box::into_inner(at);
    Work {
        sits: sitting,
        console: edit,
        ..Work::replying(reply)
    }
}

// A request waits on the desk, and the session for its ticket.
fn put(desk: &mut Desk, request: QueuedRequest, owner: ZoneName) -> Work
    requires of { is_full (as_desk desk.old) ≡ false }
    requires room { HasRequestRoom desk.old }
    ensures desk { as_desk desk.new ≡ with_request (as_desk desk.old) request }
    ensures active { desk.new.active ≡ desk.old.active }
    ensures work { result ≡ record { stored = Storing.Nothing; objects = ObjectEdit.Nothing; sits = Some (record { doing = Some (Doing.Awaits (desk.old.last + 1)); owner = owner }); console = ConsoleEdit.Nothing; ended = None; reply = says (Head.Ticket (desk.old.last + 1)) } }
{
    let ticket = desk.put(request);
    let doing = Some(Doing::Awaits(ticket));
    Work {
        sits: Some(Sitting { doing, owner }),
        ..Work::saying(Head::Ticket(ticket))
    }
}

/// A case is settled on the desk under a grant: what else is to be done.
pub(crate) fn settle(alloc: Global, desk: &mut Desk, case: Case, grant: Grant) -> Work
    requires of { IsCaseOf desk.old case }
    requires room { HasRoomFor desk.old case }
    requires numbered { HasNumber case grant }
    ensures works { (n : Option ℕ) (v : World) → v.desk ≡ as_desk desk.old
        → Works n (rest_of (act_of (decision_of desk.old case) grant)) v (as_desk desk.new) result }
    ensures objects { (c : cell_types.Cell) → HasRoomToChange (objects_of case) c → HasRoomToChange result.objects c }
    ensures own { (c : turn_types.TurnCase) → case ≡ Case.Turn c → list_all is_of_own (object_edits (objects_of case)) ≡ true → list_all is_of_own (object_edits result.objects) ≡ true }
    ensures active { desk.new.active ≡ case_active case desk.old.active }
    ensures sits { seats case ≡ false → result.sits ≡ None }
    ensures console { (o : Option Console) → HasConsole (console_of_case case) o → HasConsole result.console o }
    ensures turn { (c : turn_types.TurnCase) → case ≡ Case.Turn c → (premise_of result.objects ≡ premise_of (objects_of case)) × ((result.console ≡ ConsoleEdit.Nothing) × EndsNoProcess result.ended) }
    ensures named { (z : Name) → IsNamedCase z case → IsNamedWork z result }
{
    match case {
        Case::Says(head) => Work::saying(head),
        Case::Tells(body) => Work::telling(body),
        Case::Change(objects, manner) => Work {
            objects,
            ..Work::saying(manner.done())
        },
        Case::Fork(running, manner) => fork(running, manner, grant),
        Case::Write(line, manner) => Work {
            console: ConsoleEdit::Line(line),
            ..Work::saying(manner.done())
        },
        Case::Login(login) => log_in(login, grant),
        Case::Enter(entering) => run_errand(entering, grant),
        Case::AtConsole(at) => at_console(at),
        Case::Answers(reply) => Work::replying(Box::into_inner(reply)),
        Case::Sit(seated) => seat(seated),
        Case::Commit(committed) => commit(committed, grant),
        Case::Remove(removed) => remove(removed, grant),
        Case::Put(request, owner) => put(desk, request, owner),
        Case::Turn(case) => Work::of_turn(settle_turn(alloc, desk, case, grant)),
    }
}
