//! Turns of a zone's daemon that touch nothing which other zones may ask, on the zone's cell alone.
ghost use Rattle.std.specs.Prelude.{◌≡◌, IfOk, IfSome, IsSomeAnd, None, OnErr, OnOk, Some, false, true};
ghost use Rattle.std.specs.List.{list_all};
ghost use Rattle.std.specs.Option.{option_map};
ghost use Rattle.loopback_mounts.specs.Mounts.{last_of, unmounted};
ghost use Rattle.zoneadmd_steps.specs.Code.Works.{gone_by};
ghost use Rattle.zone_pools.specs.Decisions.{Just};
ghost use Rattle.zoneadmd_steps.specs.Code.Cases.{IsFreeFor, IsTurnOf, is_last, object_edits, turn_decision_of, turn_objects};
ghost use Rattle.zone_machine.specs.Code.Rooms.{HasRoomToChange};
ghost use Rattle.zoneadmd_steps.specs.Code.Rooms.{HasTurnRoom};
ghost use Rattle.zoneadmd_steps.specs.Objects.{devices_after, ids_of, ids_after, mounts_after};
ghost use Rattle.zone_cases.specs.State.Decisions.{act_of, effects, turned};
ghost use Rattle.zoneadmd_steps.specs.Local.{is_of_own};
ghost use Rattle.zone_machine.specs.Code.Local_turns.{After, HasNoNext, IsAsItWas, IsLocalTurn, IsNotLocal};
ghost use Rattle.zoneadmd_steps.specs.Turns.{Turned, local_turn};
ghost use Rattle.zone_cases.specs.Code.Cells.{IsHeardIn, Outside, cell_objects};
ghost use Rattle.zoneadmd_steps.specs.Code.Desks.{as_desk};

use crate::machine::rooms::room_to_turn;
use brand_hooks::HookAnswer;
use loopback_mounts::MountCell;
use std::alloc::{AllocError, Global};
use std::snapshot::Snapshot;
use zn_base::{AbsPath, ZoneName};
use zone_cases::{Body, Case, Cell, Entry, Event, Head, Reply, Subject};
use zone_pools::Grant;
use zoneadmd_steps::{Gone, ObjectEdit, TurnCase, local_case, settle_turn};

/// What the next turn comes to, where that is local. The brand answers `hook` where it is asked.
#[inline(always)]
pub(crate) fn next_local(
    alloc: Global,
    cell: &Cell,
    hook: HookAnswer,
) -> Result<Option<TurnCase>, AllocError>
    ensures some { IfOk result (λ o. IfSome o (λ c. (out : Outside) → IsHeardIn out.brands cell.now hook
        → IsSomeAnd (local_turn out.brands (cell_objects cell.now) (as_desk cell.now.desk)) (λ t. Just t ≡ turn_decision_of cell.now.desk c))) }
    ensures none { IfOk result (λ o. o ≡ None → HasNoNext cell.now hook) }
    ensures of { IfOk result (λ o. IfSome o (IsTurnOf cell.now.desk)) }
    ensures own { IfOk result (λ o. IfSome o (λ c. list_all is_of_own (object_edits (turn_objects c)) ≡ true)) }
    ensures free { IfOk result (λ o. IfSome o (λ c. IsFreeFor (turn_objects c) cell.now.mounts.list cell.now.claims.claims)) }
{
    local_case(alloc, &cell.desk, &cell.mounts, &cell.claims, hook)
}

// The last mount goes, which is at a directory.
fn take_last(mounts: &mut MountCell, dir: Snapshot<AbsPath>) -> Gone
    requires { option_map (λ m. m.mount.dir) (last_of mounts.old.list) ≡ Some dir.value }
    ensures mounts { mounts.new.list ≡ unmounted dir.value mounts.old.list }
    ensures gone { result ≡ Gone.Mount dir.value }
{
    match mounts.take_last() {
        Some(mount) => Gone::Mount(mount.dir),
        None => unreachable!(),
    }
}

// What becomes of the zone's mounts, devices and limits, where nothing goes as the last.
#[inline(always)]
fn edit_own(alloc: Global, cell: &mut Cell, edit: ObjectEdit)
    requires others { is_last edit ≡ false }
    requires own { list_all is_of_own (object_edits edit) ≡ true }
    requires room { HasRoomToChange edit cell.old }
    ensures mounts { cell.new.mounts.list ≡ mounts_after (object_edits edit) cell.old.mounts.list }
    ensures devices { cell.new.kernel.devices ≡ devices_after (object_edits edit) cell.old.kernel.devices }
    ensures ids { ids_of cell.new.kernel.id ≡ ids_after (object_edits edit) (ids_of cell.old.kernel.id) }
    ensures processes { cell.new.kernel.processes ≡ cell.old.kernel.processes }
    ensures same { cell.new ≡ record cell.old { kernel = cell.new.kernel; mounts = cell.new.mounts } }
{
    match edit {
        ObjectEdit::Nothing => {}
        ObjectEdit::Mount(mount) => cell.mounts.put_reserved(Box::into_inner(mount)),
        ObjectEdit::Unmount(dir) => {
            cell.mounts.take_out(&dir);
        }
        ObjectEdit::Hold(dir) => cell.mounts.put_hold(&dir),
        ObjectEdit::Release(dir) => cell.mounts.lift_hold(&dir),
        ObjectEdit::SetDevices(devices) => cell.kernel.set_devices(devices.into_vec()),
        ObjectEdit::DropDevices => cell.kernel.drop_devices(),
        ObjectEdit::SetLimits(limits) => {
            let limits = Box::into_inner(limits);
            cell.kernel
                .set_limits(limits.set, limits.most, limits.fs_allowed);
        }
        ObjectEdit::SetBootargs(args) => cell.kernel.set_bootargs(args),
        ObjectEdit::ClearLimits => cell.kernel.clear_limits(alloc),
        ObjectEdit::Clear => {
            cell.kernel.clear_limits(alloc);
            cell.kernel.drop_devices();
        }
        ObjectEdit::EndProcesses
        | ObjectEdit::EndProcess(_)
        | ObjectEdit::Rename(_, _)
        | ObjectEdit::GiveUp(_, _)
        | ObjectEdit::EndClaim
        | ObjectEdit::UnmountLast(_)
        | ObjectEdit::ReleaseLast(_)
        | ObjectEdit::EndIds => unreachable!(),
    }
}

// What becomes of the zone's mounts, devices and limits, and what goes as the last.
#[inline(always)]
fn change_own(alloc: Global, cell: &mut Cell, edit: ObjectEdit) -> Gone
    requires own { list_all is_of_own (object_edits edit) ≡ true }
    requires room { HasRoomToChange edit cell.old }
    ensures mounts { cell.new.mounts.list ≡ mounts_after (object_edits edit) cell.old.mounts.list }
    ensures devices { cell.new.kernel.devices ≡ devices_after (object_edits edit) cell.old.kernel.devices }
    ensures ids { ids_of cell.new.kernel.id ≡ ids_after (object_edits edit) (ids_of cell.old.kernel.id) }
    ensures processes { cell.new.kernel.processes ≡ cell.old.kernel.processes }
    ensures same { cell.new ≡ record cell.old { kernel = cell.new.kernel; mounts = cell.new.mounts } }
    ensures gone { result ≡ gone_by edit }
{
    match edit {
        ObjectEdit::UnmountLast(dir) => take_last(&mut cell.mounts, dir),
        edit => {
            edit_own(alloc, cell, edit);
            Gone::Nothing
        }
    }
}

// Room for what a turn does to the cell. Nothing is changed by it, whether or not memory runs out.
#[inline(always)]
fn room_for(cell: &mut Cell, case: &TurnCase) -> Result<(), AllocError>
    requires of { IsTurnOf cell.old.desk case.now }
    requires free { IsFreeFor (turn_objects case.now) cell.old.mounts.list cell.old.claims.claims }
    ensures same { IsAsItWas cell.old cell.new }
    ensures seen { turn_decision_of cell.new.desk case.now ≡ turn_decision_of cell.old.desk case.now }
    ensures of { IsTurnOf cell.new.desk case.now }
    ensures objects { OnOk result (HasRoomToChange (turn_objects case.now) cell.new) }
    ensures desk { OnOk result (HasTurnRoom cell.new.desk case.now) }
{
    room_to_turn(cell, case)?;
    cell.desk.reserve_turn(case)
}

/// A local turn is done.
#[inline(always)]
pub(crate) fn do_local(alloc: Global, cell: &mut Cell, case: TurnCase) -> Result<Reply, AllocError>
    requires of { IsTurnOf cell.old.desk case }
    requires own { list_all is_of_own (object_edits (turn_objects case)) ≡ true }
    requires free { IsFreeFor (turn_objects case) cell.old.mounts.list cell.old.claims.claims }
    ensures reply { IfOk result (λ reply. reply ≡ (act_of (effects turned (turn_decision_of cell.old.desk case)) Grant.Nothing).effect.reply) }
    ensures done { IfOk result (λ reply. (t : Turned) → effects turned (turn_decision_of cell.old.desk case) ≡ effects turned (Just t) → After t cell.old cell.new) }
    ensures memory { OnErr result (IsAsItWas cell.old cell.new) }
{
    match room_for(cell, &case) {
        Ok(()) => {}
        Err(fault) => {
            Case::Turn(case).let_go();
            return Err(fault);
        }
    }
    let work = settle_turn(alloc, &mut cell.desk, case, Grant::Nothing);
    let gone = change_own(alloc, cell, work.objects);
    Ok(Reply {
        head: Head::Turned(work.reply.with_gone(gone)),
        body: Body::Nothing,
    })
}

// A turn of a zone, and the zone whose it is.
fn turn_of(alloc: Global, zone: &ZoneName) -> Result<(Event, Subject), AllocError>
    ensures { IfOk result (λ r. (r.0 ≡ Event.Turn zone.now) × (r.1 ≡ Subject.Zone zone.now)) }
{
    let event = Event::Turn {
        zone: zone.copy(alloc)?,
    };
    Ok((event, Subject::Zone(zone.copy(alloc)?)))
}

/// The next turn of a zone's daemon is done on the zone's cell, where it is local: it steps through a hook, whose answer
/// `hook` is, through the zone's files, limits and mounts, undoes such a step, or waits for a held mount, and nothing that
/// other zones may ask is touched. Else nothing is done, and it is to be a step of the cell with what zones share. Where
/// memory runs out, the cell is as it was.
pub fn local_turn(
    alloc: Global,
    zone: &ZoneName,
    cell: &mut Cell,
    hook: HookAnswer,
) -> Result<Option<Entry>, AllocError>
    ensures some { IfOk result (λ o. IfSome o (λ entry. IsLocalTurn zone.now cell.old hook entry cell.new)) }
    ensures none { IfOk result (λ o. o ≡ None → IsNotLocal zone.now cell.old hook) }
    ensures same { IfOk result (λ o. o ≡ None → IsAsItWas cell.old cell.new) }
    ensures memory { OnErr result (IsAsItWas cell.old cell.new) }
{
    let Some(case) = next_local(alloc, cell, hook)? else {
        return Ok(None);
    };
    match turn_of(alloc, zone) {
        Ok((event, subject)) => {
            let reply = do_local(alloc, cell, case)?;
            Ok(Some(Entry {
                event,
                subject,
                grant: Grant::Nothing,
                reply,
            }))
        }
        Err(fault) => {
            Case::Turn(case).let_go();
            Err(fault)
        }
    }
}
