//! What is stored of a zone from now on. All room has been taken, so nothing here takes memory or fails.
ghost use Rattle.std.specs.Prelude.{◌≡◌, ◌<◌, ℕ, None, Some, nat_eq};
ghost use Rattle.indexmap.specs.IndexMap.{spare};
ghost use Rattle.zn_base.specs.Names.{Name};
ghost use Rattle.zone_pools.specs.Owners.{owner};
ghost use Rattle.zone_machine.specs.Code.Works.{IsStoredOf, arrival_by, with_row};
ghost use Rattle.zoneadmd_steps.specs.Arrivals.{New_record};
ghost use Rattle.zone_cases.specs.declared.cases.ConsoleEdit as case_types;
ghost use Rattle.zone_machine.specs.declared.machine.shared.Shared as shared_types;
ghost use Rattle.zone_machine.specs.Code.Cells.{Does};
ghost use Rattle.zone_machine.specs.Code.Needs.{pools_in};
ghost use Rattle.zone_machine.specs.Code.Records.{rows_with, used_with};
ghost use Rattle.commit_journal.specs.Zones.{rows_of};
ghost use Rattle.zone_machine.specs.Machine.Common.{came_common};
ghost use Rattle.zone_cases.specs.State.Decisions.{after_came_world};
ghost use Rattle.zone_cases.specs.State.Edits as edits;
ghost use Rattle.zone_cases.specs.State.Edits.{comes_world, keeps_console};
ghost use Rattle.zone_cases.specs.Code.Consoles.{HasConsole};
ghost use Rattle.zone_machine.specs.Code.Rooms.{HasRoomOf, HasRoomToSit, IsFreeOf, IsOpenTo};

use crate::machine::consoles::drop_console;
use crate::machine::shared::Shared;
use crate::machine::work::Storing;
use commit_journal::{Row, body_length};
use zn_base::{ZoneName, ZoneState};
use zone_cases::{Cell, put};
use zoneadmd_steps::Stored;

// A record is what is stored of the zone from now on.
fn put_row(cell: &Cell, shared: &mut Shared, stored: Stored)
    requires free { IsFreeOf stored.owner (Some (New_record (Some stored.row.value))) (pools_in shared.old) }
    requires room { 0 < spare shared.old.rows }
    ensures does { Does stored.owner (with_row (Some stored.row.value)) (came_common stored.owner (Some (New_record (Some stored.row.value)))) cell.now shared.old cell.now shared.new }
    ensures sessions { shared.new.sessions ≡ shared.old.sessions }
    ensures ups { shared.new.ups ≡ shared.old.ups }
    ensures brands { shared.new.brands ≡ shared.old.brands }
    ensures rows { rows_of shared.new.rows.entries ≡ rows_with stored.owner (Some (New_record (Some stored.row.value))) (rows_of shared.old.rows.entries) }
    ensures used { shared.new.used ≡ used_with stored.owner (Some (New_record (Some stored.row.value))) shared.old.used }
{
    let row = Box::into_inner(stored.row);
    shared.used += 5 + body_length(&stored.owner, Some(row.record())) as u32;
    shared.serial += 1;
    put(&mut shared.rows, stored.owner, row);
}

// No record is stored of the zone any more.
#[tactic(auto, using(commit_journal::proofs::Zones::without_is))]
fn take_row(cell: &Cell, shared: &mut Shared, zone: ZoneName)
    requires free { IsFreeOf zone (Some (New_record None)) (pools_in shared.old) }
    ensures does { Does zone (with_row None) (came_common zone (Some (New_record None))) cell.now shared.old cell.now shared.new }
    ensures sessions { shared.new.sessions ≡ shared.old.sessions }
    ensures ups { shared.new.ups ≡ shared.old.ups }
    ensures brands { shared.new.brands ≡ shared.old.brands }
    ensures rows { rows_of shared.new.rows.entries ≡ rows_with zone (Some (New_record None)) (rows_of shared.old.rows.entries) }
    ensures used { shared.new.used ≡ used_with zone (Some (New_record None)) shared.old.used }
{
    shared.used += 5 + body_length(&zone, None) as u32;
    shared.serial += 1;
    shared.rows.shift_remove(&zone);
}

fn keeps_console(row: &Row) -> bool
    ensures { result ≡ keeps_console (Some row.now) }
{
    matches!(row.record().state, ZoneState::Installed)
}

// What is stored of the zone from now on. Where it isn't installed by that, nothing is left of its console.
#[inline(never)]
fn store(cell: &mut Cell, shared: &mut Shared, stored: Stored)
    requires free { IsFreeOf stored.owner (Some (New_record (Some stored.row.value))) (pools_in shared.old) }
    requires room { 0 < spare shared.old.rows }
    ensures does { Does stored.owner (comes_world (New_record (Some stored.row.value))) (came_common stored.owner (Some (New_record (Some stored.row.value)))) cell.old shared.old cell.new shared.new }
    ensures rows { rows_of shared.new.rows.entries ≡ rows_with stored.owner (Some (New_record (Some stored.row.value))) (rows_of shared.old.rows.entries) }
    ensures used { shared.new.used ≡ used_with stored.owner (Some (New_record (Some stored.row.value))) shared.old.used }
    ensures room { HasRoomToSit cell.old shared.old → HasRoomToSit cell.new shared.new }
    ensures open { (z : Name) (k : ℕ) → IsOpenTo z (owner nat_eq shared.old.sessions k) → IsOpenTo z (owner nat_eq shared.new.sessions k) }
    ensures objects { (cell.new.kernel ≡ cell.old.kernel) × (cell.new.mounts ≡ cell.old.mounts) × (cell.new.claims ≡ cell.old.claims) }
    ensures console { (edit : case_types.ConsoleEdit) → HasConsole edit cell.old.console → HasConsole edit cell.new.console }
    ensures ups { shared.new.ups ≡ shared.old.ups }
    ensures brands { shared.new.brands ≡ shared.old.brands }
    ensures desk { cell.new.desk ≡ cell.old.desk }
{
    let keeps = keeps_console(&stored.row);
    put_row(cell, shared, stored);
    if !keeps {
        drop_console(cell, shared);
    }
}

// Nothing is stored of the zone any more.
#[inline(never)]
fn remove(cell: &mut Cell, shared: &mut Shared, zone: ZoneName)
    requires free { IsFreeOf zone (Some (New_record None)) (pools_in shared.old) }
    ensures does { Does zone (comes_world (New_record None)) (came_common zone (Some (New_record None))) cell.old shared.old cell.new shared.new }
    ensures rows { rows_of shared.new.rows.entries ≡ rows_with zone (Some (New_record None)) (rows_of shared.old.rows.entries) }
    ensures used { shared.new.used ≡ used_with zone (Some (New_record None)) shared.old.used }
    ensures room { HasRoomToSit cell.old shared.old → HasRoomToSit cell.new shared.new }
    ensures open { (z : Name) (k : ℕ) → IsOpenTo z (owner nat_eq shared.old.sessions k) → IsOpenTo z (owner nat_eq shared.new.sessions k) }
    ensures objects { (cell.new.kernel ≡ cell.old.kernel) × (cell.new.mounts ≡ cell.old.mounts) × (cell.new.claims ≡ cell.old.claims) }
    ensures console { (edit : case_types.ConsoleEdit) → HasConsole edit cell.old.console → HasConsole edit cell.new.console }
    ensures ups { shared.new.ups ≡ shared.old.ups }
    ensures brands { shared.new.brands ≡ shared.old.brands }
    ensures desk { cell.new.desk ≡ cell.old.desk }
{
    take_row(cell, shared, zone);
    drop_console(cell, shared);
}

/// What is stored of the zone, if that changes.
pub(crate) fn store_some(cell: &mut Cell, shared: &mut Shared, stored: Storing)
    requires free { (z : Name) → IsStoredOf z stored → IsFreeOf z (arrival_by stored) (pools_in shared.old) }
    requires room { HasRoomOf (arrival_by stored) shared.old }
    ensures does { (z : Name) → IsStoredOf z stored → Does z (after_came_world (arrival_by stored)) (came_common z (arrival_by stored)) cell.old shared.old cell.new shared.new }
    ensures room { HasRoomToSit cell.old shared.old → HasRoomToSit cell.new shared.new }
    ensures open { (z : Name) (k : ℕ) → IsOpenTo z (owner nat_eq shared.old.sessions k) → IsOpenTo z (owner nat_eq shared.new.sessions k) }
    ensures objects { (cell.new.kernel ≡ cell.old.kernel) × (cell.new.mounts ≡ cell.old.mounts) × (cell.new.claims ≡ cell.old.claims) }
    ensures console { (edit : case_types.ConsoleEdit) → HasConsole edit cell.old.console → HasConsole edit cell.new.console }
    ensures ups { shared.new.ups ≡ shared.old.ups }
    ensures brands { shared.new.brands ≡ shared.old.brands }
    ensures desk { cell.new.desk ≡ cell.old.desk }
    ensures rows { (z : Name) → IsStoredOf z stored → rows_of shared.new.rows.entries ≡ rows_with z (arrival_by stored) (rows_of shared.old.rows.entries) }
    ensures used { (z : Name) → IsStoredOf z stored → shared.new.used ≡ used_with z (arrival_by stored) shared.old.used }
{
    match stored {
        Storing::Row(stored) => store(cell, shared, stored),
        Storing::Removal(owner) => remove(cell, shared, owner),
        Storing::Nothing => {}
    }
}
