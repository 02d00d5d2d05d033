//! Room for what a case puts into its cell and into the shared part, taken before anything is changed.
ghost use Rattle.std.specs.Prelude.{◌≡◌, OnOk, Option, false};
ghost use Rattle.zoneadmd_steps.specs.Code.Desks.{as_desk};
ghost use Rattle.zone_cases.specs.Code.Cases.{IsCaseOf, decision_of, console_of_case, errand_objects, objects_of, seats, seats_committer, case_active};
ghost use Rattle.zone_cases.specs.Code.Consoles.{HasConsole, wants_console};
ghost use Rattle.zone_machine.specs.Code.Rooms.{HasRoomFor, Alike, HasRoom, HasRoomIfSits, HasRoomToChange, HasRoomToRise, HasRoomToStore};
ghost use Rattle.zoneadmd_steps.specs.Code.Cases.{IsFreeFor, active_with, job_active, turn_active, turn_objects};
ghost use Rattle.zone_machine.specs.Code.Needs.{asked_by};
ghost use Rattle.zone_cases.specs.Code.Cells.{Outside, cell_world};
ghost use Rattle.zone_machine.specs.Code.Cells.{is_up_in};
ghost use Rattle.zn_base.specs.Names.{Name};
ghost use Rattle.zn_base.specs.declared.state.ZoneState as state_types;

use crate::machine::needs::{Need, need_of};
use crate::machine::shared::Shared;
use crate::machine::ups::make_place;
use console_link::Console;
use std::alloc::{AllocError, Global};
use zn_base::ZoneName;
use zone_cases::{Case, Cell, Committer, ConsoleEdit, Errand};
use zoneadmd_steps::{Desk, JobCase, ObjectEdit, Step, TurnCase};

/// Room for what the case puts on the desk: a request that waits, or a step that a failure undoes.
pub(crate) fn room_on_desk(desk: &mut Desk, case: &Case) -> Result<(), AllocError>
    ensures desk { as_desk desk.new ≡ as_desk desk.old }
    ensures same { decision_of desk.new case.now ≡ decision_of desk.old case.now }
    ensures of { IsCaseOf desk.old case.now → IsCaseOf desk.new case.now }
    ensures room { OnOk result (HasRoomFor desk.new case.now) }
{
    match case {
        Case::Put(_, _) => desk.reserve(),
        Case::Turn(case) => desk.reserve_turn(case),
        Case::Says(_)
        | Case::Tells(_)
        | Case::Answers(_)
        | Case::Sit(_)
        | Case::Change(_, _)
        | Case::Fork(_, _)
        | Case::Write(_, _)
        | Case::Login(_)
        | Case::Enter(_)
        | Case::AtConsole(_)
        | Case::Commit(_)
        | Case::Remove(_) => Ok(()),
    }
}

// Room for a record.
fn room_to_store(shared: &mut Shared, need: Need<'_>) -> Result<(), AllocError>
    ensures rows { shared.new.rows.entries ≡ shared.old.rows.entries }
    ensures same { shared.new ≡ record shared.old { rows = shared.new.rows } }
    ensures room { OnOk result (HasRoomToStore (asked_by need.entry) shared.new) }
{
    match need {
        Need::Nothing | Need::Pid | Need::Zid | Need::Item(_) | Need::Source(_) => Ok(()),
        Need::Record(_) | Need::Moved(_, _) | Need::NewZone(_, _) => shared.rows.reserve(1),
    }
}

// Room for what becomes of the zone's objects.
fn room_to_change(cell: &mut Cell, edit: &ObjectEdit) -> Result<(), AllocError>
    requires { IsFreeFor edit.now cell.old.mounts.list cell.old.claims.claims }
    ensures mounts { cell.new.mounts.list ≡ cell.old.mounts.list }
    ensures same { cell.new ≡ record cell.old { mounts = cell.new.mounts } }
    ensures room { OnOk result (HasRoomToChange edit.now cell.new) }
{
    match edit {
        ObjectEdit::Mount(_) => cell.mounts.reserve(),
        _ => Ok(()),
    }
}

/// Room for what a turn does to the zone's objects.
pub(crate) fn room_to_turn(cell: &mut Cell, case: &TurnCase) -> Result<(), AllocError>
    requires { IsFreeFor (turn_objects case.now) cell.old.mounts.list cell.old.claims.claims }
    ensures mounts { cell.new.mounts.list ≡ cell.old.mounts.list }
    ensures same { cell.new ≡ record cell.old { mounts = cell.new.mounts } }
    ensures room { OnOk result (HasRoomToChange (turn_objects case.now) cell.new) }
{
    match case {
        TurnCase::GoOn(JobCase::Pass(pass)) => room_to_change(cell, &pass.objects),
        TurnCase::GoOn(JobCase::Undo(objects)) => room_to_change(cell, objects),
        _ => Ok(()),
    }
}

// Room for what the call of a process that enters for it does to the zone's objects.
fn room_for_errand(cell: &mut Cell, errand: &Errand) -> Result<(), AllocError>
    requires { IsFreeFor (errand_objects errand.now) cell.old.mounts.list cell.old.claims.claims }
    ensures mounts { cell.new.mounts.list ≡ cell.old.mounts.list }
    ensures same { cell.new ≡ record cell.old { mounts = cell.new.mounts } }
    ensures room { OnOk result (HasRoomToChange (errand_objects errand.now) cell.new) }
{
    match errand {
        Errand::Does(edit) => room_to_change(cell, edit),
        _ => Ok(()),
    }
}

/// Room for what a case does to the zone's objects.
pub(crate) fn room_for_objects(cell: &mut Cell, case: &Case) -> Result<(), AllocError>
    requires { IsFreeFor (objects_of case.now) cell.old.mounts.list cell.old.claims.claims }
    ensures mounts { cell.new.mounts.list ≡ cell.old.mounts.list }
    ensures same { cell.new ≡ record cell.old { mounts = cell.new.mounts } }
    ensures room { OnOk result (HasRoomToChange (objects_of case.now) cell.new) }
{
    match case {
        Case::Turn(case) => room_to_turn(cell, case),
        Case::Change(edit, _) => room_to_change(cell, edit),
        Case::Enter(entering) => room_for_errand(cell, &entering.errand),
        _ => Ok(()),
    }
}

fn seats_committer(committer: &Committer) -> bool
    ensures { result ≡ seats_committer committer.now }
{
    match committer {
        Committer::Alone => false,
        Committer::GoesOn(_, _) | Committer::Leaves(_) => true,
    }
}

// Whether what its session does in the zone may change.
fn seats(case: &Case) -> bool
    ensures { result ≡ seats case.now }
{
    match case {
        Case::Put(_, _) | Case::Sit(_) | Case::Login(_) => true,
        Case::AtConsole(at) => at.sitting.is_some(),
        Case::Commit(committed) => seats_committer(&committed.committer),
        Case::Remove(removed) => seats_committer(&removed.committer),
        Case::Says(_)
        | Case::Tells(_)
        | Case::Answers(_)
        | Case::Change(_, _)
        | Case::Fork(_, _)
        | Case::Write(_, _)
        | Case::Enter(_)
        | Case::Turn(_) => false,
    }
}

// Room for what the event's session does from now on.
fn room_to_sit(cell: &mut Cell, shared: &mut Shared, case: &Case) -> Result<(), AllocError>
    ensures alike { Alike cell.old shared.old cell.new shared.new }
    ensures same { cell.new ≡ record cell.old { doings = cell.new.doings } }
    ensures sits { OnOk result (HasRoomIfSits case.now cell.new shared.new) }
{
    if !seats(case) {
        return Ok(());
    }
    cell.doings.reserve(1)?;
    shared.sessions.reserve()
}

// Whether the case writes to the zone's console, or has a session begin there.
fn wants_console(case: &Case) -> bool
    ensures { result ≡ wants_console (console_of_case case.now) }
{
    match case {
        Case::Write(_, _) => true,
        Case::Enter(entering) => matches!(entering.errand, Errand::Writes(_)),
        Case::AtConsole(at) => matches!(at.edit, ConsoleEdit::Hold | ConsoleEdit::Line(_)),
        _ => false,
    }
}

// A console, where the case wants one and the zone has none yet.
fn room_at_console(alloc: Global, cell: &mut Cell, case: &Case) -> Result<(), AllocError>
    ensures world { (out : Outside) → cell_world out cell.new ≡ cell_world out cell.old }
    ensures same { cell.new ≡ record cell.old { console = cell.new.console } }
    ensures console { OnOk result (HasConsole (console_of_case case.now) cell.new.console) }
{
    if cell.console.is_some() || !wants_console(case) {
        return Ok(());
    }
    match Console::new(alloc) {
        Ok(console) => {
            cell.console = Some(console);
            Ok(())
        }
        // Memory is all that a new console can want.
        Err(_) => Err(AllocError),
    }
}

// Room for what a case does to the zone's objects and its console, and for what its session does from now on.
fn room_to_do(
    alloc: Global,
    cell: &mut Cell,
    shared: &mut Shared,
    case: &Case,
) -> Result<(), AllocError>
    requires { IsFreeFor (objects_of case.now) cell.old.mounts.list cell.old.claims.claims }
    ensures alike { Alike cell.old shared.old cell.new shared.new }
    ensures desk { cell.new.desk ≡ cell.old.desk }
    ensures objects { OnOk result (HasRoomToChange (objects_of case.now) cell.new) }
    ensures console { OnOk result (HasConsole (console_of_case case.now) cell.new.console) }
    ensures sits { OnOk result (HasRoomIfSits case.now cell.new shared.new) }
{
    room_for_objects(cell, case)?;
    room_at_console(alloc, cell, case)?;
    room_to_sit(cell, shared, case)
}

// Whether a step may make the zone's state one of those that aren't stored.
fn is_state(shown: &Step) -> bool
    ensures { result ≡ false → (active : Option state_types.ZoneState) → active_with shown.now active ≡ active }
{
    matches!(shown, Step::State(_))
}

// The same of what a request under way comes to.
fn job_may_rise(case: &JobCase) -> bool
    ensures { result ≡ false → (active : Option state_types.ZoneState) → job_active case.now active ≡ active }
{
    match case {
        JobCase::Pass(pass) => is_state(&pass.shown),
        _ => false,
    }
}

fn turn_may_rise(case: &TurnCase) -> bool
    ensures { result ≡ false → (active : Option state_types.ZoneState) → turn_active case.now active ≡ active }
{
    match case {
        TurnCase::GoOn(case) => job_may_rise(case),
        _ => false,
    }
}

fn may_rise(case: &Case) -> bool
    ensures { result ≡ false → (active : Option state_types.ZoneState) → case_active case.now active ≡ active }
{
    match case {
        Case::Turn(case) => turn_may_rise(case),
        _ => false,
    }
}

// A place among the zones that may be up, where the case may bring the zone there.
fn room_to_rise(
    alloc: Global,
    shared: &mut Shared,
    zone: &ZoneName,
    cell: &Cell,
    case: &Case,
) -> Result<(), AllocError>
    ensures ups { (y : Name) → is_up_in shared.new y ≡ is_up_in shared.old y }
    ensures same { shared.new ≡ record shared.old { ups = shared.new.ups } }
    ensures room { OnOk result (HasRoomToRise zone.now case.now cell.now shared.new) }
{
    if cell.desk.active().is_none() && may_rise(case) {
        make_place(alloc, &mut shared.ups, zone)
    } else {
        Ok(())
    }
}

/// Room for all that a case does. Nothing is changed by it, whether or not memory runs out.
pub(crate) fn make_room(
    alloc: Global,
    cell: &mut Cell,
    shared: &mut Shared,
    zone: &ZoneName,
    case: &Case,
) -> Result<(), AllocError>
    requires of { IsCaseOf cell.old.desk case.now }
    requires free { IsFreeFor (objects_of case.now) cell.old.mounts.list cell.old.claims.claims }
    ensures alike { Alike cell.old shared.old cell.new shared.new }
    ensures same { decision_of cell.new.desk case.now ≡ decision_of cell.old.desk case.now }
    ensures of { IsCaseOf cell.new.desk case.now }
    ensures room { OnOk result (HasRoom zone.now case.now cell.new shared.new) }
{
    room_to_do(alloc, cell, shared, case)?;
    room_to_store(shared, need_of(case))?;
    room_to_rise(alloc, shared, zone, cell, case)?;
    room_on_desk(&mut cell.desk, case)
}
