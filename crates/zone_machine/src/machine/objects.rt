//! What becomes of the objects of a zone. All room has been taken, so nothing here takes memory or fails.
ghost use Rattle.std.specs.Prelude.{◌≡◌, ℕ, Option, Some, false, map};
ghost use Rattle.zn_base.specs.Names.{Name};
ghost use Rattle.zoneadmd_steps.specs.Code.Cases.{object_edits};
ghost use Rattle.zone_machine.specs.Code.Works.{without_process, without_processes};
ghost use Rattle.zoneadmd_steps.specs.Code.Works.{gone_by};
ghost use Rattle.zoneadmd_steps.specs.Code.Cases.{is_last};
ghost use Rattle.loopback_mounts.specs.Mounts.{last_of};
ghost use Rattle.std.specs.Option.{option_map};
ghost use Rattle.zone_machine.specs.Code.Works.{endings};
ghost use Rattle.zone_cases.specs.declared.cases.ConsoleEdit as case_types;
ghost use Rattle.zone_machine.specs.declared.machine.shared.Shared as shared_types;
ghost use Rattle.zone_machine.specs.Code.Cells.{Does, kept};
ghost use Rattle.zone_cases.specs.State.Edits as edits;
ghost use Rattle.zone_cases.specs.State.Edits.{Of_objects, edits_world};
ghost use Rattle.zone_machine.specs.Code.Rooms.{HasRoomToChange};

use crate::machine::shared::Shared;
use crate::machine::sitting::{end, end_ticket};
use crate::machine::work::Ending;
use datalink_table::Claim;
use loopback_mounts::Mount;
use std::alloc::Global;
use std::snapshot::Snapshot;
use zn_base::{AbsPath, Listing, Text};
use zone_cases::{Cell, Ended};
use zoneadmd_steps::{Gone, Limits, ObjectEdit};

// The kernel has no process of the zone any more.
fn kill_all(cell: &mut Cell, shared: &mut Shared)
    ensures does { (z : Name) → Does z without_processes kept cell.old shared.old cell.new shared.new }
    ensures console { cell.new.console ≡ cell.old.console }
    ensures ups { shared.new.ups ≡ shared.old.ups }
    ensures brands { shared.new.brands ≡ shared.old.brands }
    ensures rows { shared.new.rows ≡ shared.old.rows }
    ensures used { shared.new.used ≡ shared.old.used }
    ensures desk { cell.new.desk ≡ cell.old.desk }
{
    cell.kernel.kill_all(&mut shared.kernel);
}

// All processes end, and with them what sessions did that were logged in.
#[inline(never)]
fn end_processes(cell: &mut Cell, shared: &mut Shared)
    ensures does { (z : Name) (n : Option ℕ) → Does z (edits_world n (map Of_objects (object_edits ObjectEdit.EndProcesses))) kept cell.old shared.old cell.new shared.new }
    ensures console { cell.new.console ≡ cell.old.console }
    ensures ups { shared.new.ups ≡ shared.old.ups }
    ensures brands { shared.new.brands ≡ shared.old.brands }
    ensures rows { shared.new.rows ≡ shared.old.rows }
    ensures used { shared.new.used ≡ shared.old.used }
    ensures desk { cell.new.desk ≡ cell.old.desk }
{
    kill_all(cell, shared);
    end(cell, shared, Ended::Processes);
}

// The zone gives its id back.
#[inline(never)]
fn end_ids(cell: &mut Cell, shared: &mut Shared)
    ensures does { (z : Name) (n : Option ℕ) → Does z (edits_world n (map Of_objects (object_edits ObjectEdit.EndIds))) kept cell.old shared.old cell.new shared.new }
    ensures console { cell.new.console ≡ cell.old.console }
    ensures ups { shared.new.ups ≡ shared.old.ups }
    ensures brands { shared.new.brands ≡ shared.old.brands }
    ensures rows { shared.new.rows ≡ shared.old.rows }
    ensures used { shared.new.used ≡ shared.old.used }
    ensures desk { cell.new.desk ≡ cell.old.desk }
{
    cell.kernel.give_up_id(&mut shared.kernel);
}

// The kernel has no process of a number any more.
fn kill(cell: &mut Cell, shared: &mut Shared, pid: u32)
    ensures does { (z : Name) → Does z (without_process pid) kept cell.old shared.old cell.new shared.new }
    ensures console { cell.new.console ≡ cell.old.console }
    ensures ups { shared.new.ups ≡ shared.old.ups }
    ensures brands { shared.new.brands ≡ shared.old.brands }
    ensures rows { shared.new.rows ≡ shared.old.rows }
    ensures used { shared.new.used ≡ shared.old.used }
    ensures desk { cell.new.desk ≡ cell.old.desk }
{
    cell.kernel.end(&mut shared.kernel, pid);
}

// The process of a number ends, and with it what a session did that was logged in with it.
#[inline(never)]
fn end_process(cell: &mut Cell, shared: &mut Shared, pid: u32)
    ensures does { (z : Name) (n : Option ℕ) → Does z (edits_world n (map Of_objects (object_edits (ObjectEdit.EndProcess pid)))) kept cell.old shared.old cell.new shared.new }
    ensures console { cell.new.console ≡ cell.old.console }
    ensures ups { shared.new.ups ≡ shared.old.ups }
    ensures brands { shared.new.brands ≡ shared.old.brands }
    ensures rows { shared.new.rows ≡ shared.old.rows }
    ensures used { shared.new.used ≡ shared.old.used }
    ensures desk { cell.new.desk ≡ cell.old.desk }
{
    kill(cell, shared, pid);
    end(cell, shared, Ended::Process(pid));
}

// A process runs another program.
#[inline(never)]
fn rename(cell: &mut Cell, pid: u32, name: Text)
    ensures does { (z : Name) (n : Option ℕ) (s : shared_types.Shared) → Does z (edits_world n (map Of_objects (object_edits (ObjectEdit.Rename pid name)))) kept cell.old s cell.new s }
    ensures console { cell.new.console ≡ cell.old.console }
    ensures desk { cell.new.desk ≡ cell.old.desk }
{
    cell.kernel.set_name(pid, name);
}

// A process gives up a privilege.
#[inline(never)]
fn give_up(cell: &mut Cell, pid: u32, number: u8)
    ensures does { (z : Name) (n : Option ℕ) (s : shared_types.Shared) → Does z (edits_world n (map Of_objects (object_edits (ObjectEdit.GiveUp pid number)))) kept cell.old s cell.new s }
    ensures console { cell.new.console ≡ cell.old.console }
    ensures desk { cell.new.desk ≡ cell.old.desk }
{
    cell.kernel.give_up(pid, number);
}

// Something is mounted, which nothing refuses.
#[inline(never)]
fn mount_at(cell: &mut Cell, mount: Box<Mount>)
    requires { HasRoomToChange (ObjectEdit.Mount mount) cell.old }
    ensures does { (z : Name) (n : Option ℕ) (s : shared_types.Shared) → Does z (edits_world n (map Of_objects (object_edits (ObjectEdit.Mount mount)))) kept cell.old s cell.new s }
    ensures console { cell.new.console ≡ cell.old.console }
    ensures desk { cell.new.desk ≡ cell.old.desk }
{
    cell.mounts.put_reserved(Box::into_inner(mount));
}

// A mount goes.
#[inline(never)]
fn unmount(cell: &mut Cell, dir: &AbsPath)
    ensures does { (z : Name) (n : Option ℕ) (s : shared_types.Shared) → Does z (edits_world n (map Of_objects (object_edits (ObjectEdit.Unmount dir.now)))) kept cell.old s cell.new s }
    ensures console { cell.new.console ≡ cell.old.console }
    ensures desk { cell.new.desk ≡ cell.old.desk }
{
    cell.mounts.take_out(dir);
}

// The last mount goes, which is at a directory.
#[inline(never)]
fn unmount_last(cell: &mut Cell, dir: Snapshot<AbsPath>) -> Gone
    requires { option_map (λ m. m.mount.dir) (last_of cell.old.mounts.list) ≡ Some dir.value }
    ensures does { (z : Name) (n : Option ℕ) (s : shared_types.Shared) → Does z (edits_world n (map Of_objects (object_edits (ObjectEdit.UnmountLast dir)))) kept cell.old s cell.new s }
    ensures console { cell.new.console ≡ cell.old.console }
    ensures desk { cell.new.desk ≡ cell.old.desk }
    ensures gone { result ≡ Gone.Mount dir.value }
{
    match cell.mounts.take_last() {
        Some(mount) => Gone::Mount(mount.dir),
        None => unreachable!(),
    }
}

// The global zone holds a mount.
#[inline(never)]
fn hold(cell: &mut Cell, dir: &AbsPath)
    ensures does { (z : Name) (n : Option ℕ) (s : shared_types.Shared) → Does z (edits_world n (map Of_objects (object_edits (ObjectEdit.Hold dir.now)))) kept cell.old s cell.new s }
    ensures console { cell.new.console ≡ cell.old.console }
    ensures desk { cell.new.desk ≡ cell.old.desk }
{
    cell.mounts.put_hold(dir);
}

// The global zone holds a mount no more.
#[inline(never)]
fn release(cell: &mut Cell, dir: &AbsPath)
    ensures does { (z : Name) (n : Option ℕ) (s : shared_types.Shared) → Does z (edits_world n (map Of_objects (object_edits (ObjectEdit.Release dir.now)))) kept cell.old s cell.new s }
    ensures console { cell.new.console ≡ cell.old.console }
    ensures desk { cell.new.desk ≡ cell.old.desk }
{
    cell.mounts.lift_hold(dir);
}

// The latest claim ends.
#[inline(never)]
fn end_claim(cell: &mut Cell, shared: &mut Shared)
    ensures does { (z : Name) (n : Option ℕ) → Does z (edits_world n (map Of_objects (object_edits ObjectEdit.EndClaim))) kept cell.old shared.old cell.new shared.new }
    ensures console { cell.new.console ≡ cell.old.console }
    ensures ups { shared.new.ups ≡ shared.old.ups }
    ensures brands { shared.new.brands ≡ shared.old.brands }
    ensures rows { shared.new.rows ≡ shared.old.rows }
    ensures used { shared.new.used ≡ shared.old.used }
    ensures desk { cell.new.desk ≡ cell.old.desk }
{
    cell.claims.release_last(&mut shared.claims);
}

// The latest claim ends, which is this.
#[inline(never)]
fn release_last(cell: &mut Cell, shared: &mut Shared, claim: Snapshot<Claim>) -> Gone
    requires { last_of cell.old.claims.claims ≡ Some claim.value }
    ensures does { (z : Name) (n : Option ℕ) → Does z (edits_world n (map Of_objects (object_edits (ObjectEdit.ReleaseLast claim)))) kept cell.old shared.old cell.new shared.new }
    ensures console { cell.new.console ≡ cell.old.console }
    ensures ups { shared.new.ups ≡ shared.old.ups }
    ensures brands { shared.new.brands ≡ shared.old.brands }
    ensures rows { shared.new.rows ≡ shared.old.rows }
    ensures used { shared.new.used ≡ shared.old.used }
    ensures desk { cell.new.desk ≡ cell.old.desk }
    ensures gone { result ≡ Gone.Claim claim.value }
{
    match cell.claims.release_last(&mut shared.claims) {
        Some(claim) => Gone::Claim(claim),
        None => unreachable!(),
    }
}

// The zone has these devices.
#[inline(never)]
fn set_devices(cell: &mut Cell, devices: Listing<AbsPath>)
    ensures does { (z : Name) (n : Option ℕ) (s : shared_types.Shared) → Does z (edits_world n (map Of_objects (object_edits (ObjectEdit.SetDevices devices)))) kept cell.old s cell.new s }
    ensures console { cell.new.console ≡ cell.old.console }
    ensures desk { cell.new.desk ≡ cell.old.desk }
{
    cell.kernel.set_devices(devices.into_vec());
}

// The zone has no devices.
#[inline(never)]
fn drop_devices(cell: &mut Cell)
    ensures does { (z : Name) (n : Option ℕ) (s : shared_types.Shared) → Does z (edits_world n (map Of_objects (object_edits ObjectEdit.DropDevices))) kept cell.old s cell.new s }
    ensures console { cell.new.console ≡ cell.old.console }
    ensures desk { cell.new.desk ≡ cell.old.desk }
{
    cell.kernel.drop_devices();
}

// The zone's limits are set.
#[inline(never)]
fn set_limits(cell: &mut Cell, limits: Box<Limits>)
    ensures does { (z : Name) (n : Option ℕ) (s : shared_types.Shared) → Does z (edits_world n (map Of_objects (object_edits (ObjectEdit.SetLimits limits)))) kept cell.old s cell.new s }
    ensures console { cell.new.console ≡ cell.old.console }
    ensures desk { cell.new.desk ≡ cell.old.desk }
{
    let limits = Box::into_inner(limits);
    cell.kernel
        .set_limits(limits.set, limits.most, limits.fs_allowed);
}

// The arguments of the zone's boot are set.
#[inline(never)]
fn set_bootargs(cell: &mut Cell, args: Text)
    ensures does { (z : Name) (n : Option ℕ) (s : shared_types.Shared) → Does z (edits_world n (map Of_objects (object_edits (ObjectEdit.SetBootargs args)))) kept cell.old s cell.new s }
    ensures console { cell.new.console ≡ cell.old.console }
    ensures desk { cell.new.desk ≡ cell.old.desk }
{
    cell.kernel.set_bootargs(args);
}

// The limits are given up.
#[inline(never)]
fn clear_limits(alloc: Global, cell: &mut Cell)
    ensures does { (z : Name) (n : Option ℕ) (s : shared_types.Shared) → Does z (edits_world n (map Of_objects (object_edits ObjectEdit.ClearLimits))) kept cell.old s cell.new s }
    ensures console { cell.new.console ≡ cell.old.console }
    ensures desk { cell.new.desk ≡ cell.old.desk }
{
    cell.kernel.clear_limits(alloc);
}

/// The limits and the devices are given up.
#[inline(never)]
pub(crate) fn clear(alloc: Global, cell: &mut Cell)
    ensures does { (z : Name) (n : Option ℕ) (s : shared_types.Shared) → Does z (edits_world n (map Of_objects (object_edits ObjectEdit.Clear))) kept cell.old s cell.new s }
    ensures console { cell.new.console ≡ cell.old.console }
    ensures desk { cell.new.desk ≡ cell.old.desk }
{
    cell.kernel.clear(alloc);
}

// What becomes of the zone's objects, where nothing goes as the last.
fn edit_objects(alloc: Global, cell: &mut Cell, shared: &mut Shared, edit: ObjectEdit)
    requires room { HasRoomToChange edit cell.old }
    requires others { is_last edit ≡ false }
    ensures does { (z : Name) (n : Option ℕ) → Does z (edits_world n (map Of_objects (object_edits edit))) kept cell.old shared.old cell.new shared.new }
    ensures console { cell.new.console ≡ cell.old.console }
    ensures ups { shared.new.ups ≡ shared.old.ups }
    ensures brands { shared.new.brands ≡ shared.old.brands }
    ensures rows { shared.new.rows ≡ shared.old.rows }
    ensures used { shared.new.used ≡ shared.old.used }
    ensures desk { cell.new.desk ≡ cell.old.desk }
{
    match edit {
        ObjectEdit::Nothing => {}
        ObjectEdit::EndProcesses => end_processes(cell, shared),
        ObjectEdit::EndProcess(pid) => end_process(cell, shared, pid),
        ObjectEdit::Rename(pid, name) => rename(cell, pid, name),
        ObjectEdit::GiveUp(pid, number) => give_up(cell, pid, number),
        ObjectEdit::Mount(mount) => mount_at(cell, mount),
        ObjectEdit::Unmount(dir) => unmount(cell, &dir),
        ObjectEdit::Hold(dir) => hold(cell, &dir),
        ObjectEdit::Release(dir) => release(cell, &dir),
        ObjectEdit::EndClaim => end_claim(cell, shared),
        ObjectEdit::SetDevices(devices) => set_devices(cell, devices),
        ObjectEdit::DropDevices => drop_devices(cell),
        ObjectEdit::EndIds => end_ids(cell, shared),
        ObjectEdit::SetLimits(limits) => set_limits(cell, limits),
        ObjectEdit::SetBootargs(args) => set_bootargs(cell, args),
        ObjectEdit::ClearLimits => clear_limits(alloc, cell),
        ObjectEdit::Clear => clear(alloc, cell),
        ObjectEdit::UnmountLast(_) | ObjectEdit::ReleaseLast(_) => unreachable!(),
    }
}

/// What becomes of the zone's objects, and what goes as the last.
pub(crate) fn change_objects(
    alloc: Global,
    cell: &mut Cell,
    shared: &mut Shared,
    edit: ObjectEdit,
) -> Gone
    requires { HasRoomToChange edit cell.old }
    ensures does { (z : Name) (n : Option ℕ) → Does z (edits_world n (map Of_objects (object_edits edit))) kept cell.old shared.old cell.new shared.new }
    ensures console { cell.new.console ≡ cell.old.console }
    ensures ups { shared.new.ups ≡ shared.old.ups }
    ensures brands { shared.new.brands ≡ shared.old.brands }
    ensures rows { shared.new.rows ≡ shared.old.rows }
    ensures used { shared.new.used ≡ shared.old.used }
    ensures desk { cell.new.desk ≡ cell.old.desk }
    ensures gone { result ≡ gone_by edit }
{
    match edit {
        ObjectEdit::UnmountLast(dir) => unmount_last(cell, dir),
        ObjectEdit::ReleaseLast(claim) => release_last(cell, shared, claim),
        edit => {
            edit_objects(alloc, cell, shared, edit);
            Gone::Nothing
        }
    }
}

/// What ends last with an event ends: a ticket, for whoever waits for it, or a process.
pub(crate) fn end_last(cell: &mut Cell, shared: &mut Shared, ended: Option<Ending>)
    ensures does { (z : Name) (n : Option ℕ) → Does z (edits_world n (endings ended)) kept cell.old shared.old cell.new shared.new }
    ensures ups { shared.new.ups ≡ shared.old.ups }
    ensures brands { shared.new.brands ≡ shared.old.brands }
    ensures rows { shared.new.rows ≡ shared.old.rows }
    ensures used { shared.new.used ≡ shared.old.used }
    ensures desk { cell.new.desk ≡ cell.old.desk }
{
    match ended {
        None => {}
        Some(Ending::Ticket(ticket)) => end_ticket(cell, shared, ticket),
        Some(Ending::Process(pid)) => end_process(cell, shared, pid),
    }
}
