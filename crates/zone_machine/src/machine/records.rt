//! The record that a case stores: it takes its number from the grant, and is written to the disk before anything is changed.
ghost use Rattle.std.specs.Prelude.{◌≡◌, ◌⊎◌, ◌≤◌, ℕ, List, IfErr, IfOk, IsErrOf, IsTrue, OnOk, OnErr, None, false, is_ok, is_some, option_map, true};
ghost use Rattle.zn_io.specs.Streams.{Rose};
ghost use Rattle.zone_disk.specs.Image.{Stands};
ghost use Rattle.commit_journal.specs.Store.{HasZones};
ghost use Rattle.commit_journal.specs.Zones.{rows_of};
ghost use Rattle.zn_base.specs.Names.{Name};
ghost use Rattle.zone_cases.specs.Code.Cases.{IsCaseOf, IsNamedCase, IsNumbered, decision_of, made, numbered_row, objects_of};
ghost use Rattle.zone_machine.specs.Code.Needs.{pools_in};
ghost use Rattle.zone_machine.specs.Code.Records.{HasNumber, IsReady, MayStand, Writes, bodies_with, rows_with, stored_by, stored_if_any, stored_row};
ghost use Rattle.zone_machine.specs.Code.Rooms.{IsFreeOf};
ghost use Rattle.zone_pools.specs.Decisions.{number_in};
ghost use Rattle.zone_cases.specs.declared.cases.Case.TheVariants as cases;
ghost use Rattle.zone_pools.specs.declared.grant.Grant as grant_types;
ghost use Rattle.zoneadmd_steps.specs.declared.desks.Desk as desk_types;

use crate::faults::StepFault;
use crate::machine::shared::Shared;
use commit_journal::{Row, StoreFault, append_record, uuid_of};
use std::alloc::Global;
use zn_base::ZoneName;
use zn_io::Disk;
use zone_cases::{Case, Committed, Novelty};
use zone_disk::Bank;
use zone_pools::{Grant, number_in};
use zoneadmd_steps::{Came, JobCase, TurnCase};

// The record of a commit has a number as its revision, and a new zone its UUID by it.
fn number_row(committed: &mut Committed, number: u32)
    requires { 1 ≤ number }
    ensures decision { made committed.new.novelty committed.new.owner committed.new.row.value committed.new.told committed.new.committer ≡ made committed.old.novelty committed.old.owner committed.old.row.value committed.old.told committed.old.committer }
    ensures committer { committed.new.committer ≡ committed.old.committer }
    ensures owner { committed.new.owner ≡ committed.old.owner }
    ensures number { numbered_row committed.new.novelty committed.new.owner committed.new.row.value number ≡ committed.new.row.value }
{
    if let Novelty::Zone = committed.novelty {
        committed.row.set_uuid(uuid_of(&committed.owner, number));
    }
    committed.row.set_revision(number);
}

/// The record of a case takes its number from the grant, if it takes one: its revision, and of a new zone the UUID.
pub(crate) fn number(case: &mut Case, grant: Grant)
    requires { IsNumbered case.old grant }
    ensures decision { (d : desk_types.Desk) → decision_of d case.new ≡ decision_of d case.old }
    ensures of { (d : desk_types.Desk) → IsCaseOf d case.old → IsCaseOf d case.new }
    ensures named { (z : Name) → IsNamedCase z case.old → IsNamedCase z case.new }
    ensures objects { objects_of case.new ≡ objects_of case.old }
    ensures numbered { HasNumber case.new grant }
{
    let Ok(number) = number_in(grant) else {
        return;
    };
    match case {
        Case::Commit(committed) => number_row(committed, number),
        Case::Turn(TurnCase::GoOn(JobCase::Ask(Came::Moved(row, _, _), _))) => {
            row.set_revision(number);
        }
        _ => {}
    }
}

/// What a case stores of its zone, if it is granted.
#[derive(Clone, Copy)]
pub(crate) enum ToStore<'c> {
    Nothing,
    Row(&'c Row),
    /// The zone is removed.
    Removal,
}

// What a turn stores, if it is granted.
fn turn_stores(case: &TurnCase) -> ToStore<'_>
    ensures { (g : grant_types.Grant) → stored_by (cases.Turn case.now) g ≡ stored_if_any (number_in g) result }
{
    match case {
        TurnCase::GoOn(JobCase::Ask(Came::Record(row, _), _)) => ToStore::Row(row),
        TurnCase::GoOn(JobCase::Ask(Came::Moved(row, _, _), _)) => ToStore::Row(row),
        _ => ToStore::Nothing,
    }
}

// What a case stores, if it is granted.
fn stores_of(case: &Case) -> ToStore<'_>
    ensures { (g : grant_types.Grant) → stored_by case.now g ≡ stored_if_any (number_in g) result }
{
    match case {
        Case::Commit(committed) => ToStore::Row(&committed.row),
        Case::Remove(_) => ToStore::Removal,
        Case::Turn(case) => turn_stores(case),
        Case::Says(_)
        | Case::Tells(_)
        | Case::Answers(_)
        | Case::Sit(_)
        | Case::Change(_, _)
        | Case::Fork(_, _)
        | Case::Write(_, _)
        | Case::Login(_)
        | Case::Enter(_)
        | Case::AtConsole(_)
        | Case::Put(_, _) => ToStore::Nothing,
    }
}

/// Whether a case stores a record under a grant.
pub(crate) fn stores(case: &Case, grant: Grant) -> bool
    ensures { result ≡ is_some (stored_by case.now grant) }
{
    number_in(grant).is_ok() && !matches!(stores_of(case), ToStore::Nothing)
}

// What is stored of a zone is written to the disk. All memory for that is taken before the disk is written.
fn write_row<D: Disk>(
    alloc: Global,
    bank: &mut Bank<D>,
    shared: &Shared,
    zone: &ZoneName,
    row: Option<&Row>,
) -> Result<(), StepFault>
    requires ready { IsReady (D.view bank.old.disk) bank.old shared.now }
    requires place { MayStand zone.now (stored_row (option_map (λ r. r.now) row)) (rows_of shared.now.rows.entries) }
    requires room { IsFreeOf zone.now (stored_row (option_map (λ r. r.now) row)) (pools_in shared.now) }
    ensures writes { Writes zone.now (stored_row (option_map (λ r. r.now) row.entry)) bank.old.records (rows_of shared.now.rows.entries) (D.view bank.old.disk) (D.view bank.new.disk) }
    ensures records { OnOk result (bank.new.records ≡ bodies_with zone.now (stored_row (option_map (λ r. r.now) row.entry)) bank.old.records) }
    ensures sound { OnOk result (bank.new.sound ≡ true) }
    ensures zones { OnOk result (HasZones bank.new.records (rows_with zone.now (stored_row (option_map (λ r. r.now) row.entry)) (rows_of shared.now.rows.entries))) }
    ensures settled { OnOk result ((D.view bank.new.disk).Keeps → (image : List ℕ) → (D.view bank.new.disk).Now image → Stands image bank.new.records) }
    ensures memory { IsErrOf result StepFault.Memory → bank.new ≡ bank.old }
    ensures fault { IsErrOf result StepFault.DiskFault → Rose (D.view bank.old.disk).faults (D.view bank.new.disk).faults }
    ensures unsound { IsErrOf result StepFault.DiskFault → bank.new.sound ≡ false }
    ensures only { IfErr result (λ e. (e ≡ StepFault.Memory) ⊎ (e ≡ StepFault.DiskFault)) }
{
    // Its clauses count the bytes in use.
    let _used = bank.used();
    match append_record(bank, alloc, zone, row) {
        Ok(()) => Ok(()),
        Err(StoreFault::Memory) => Err(StepFault::Memory),
        Err(_) => Err(StepFault::DiskFault),
    }
}

/// What a case stores is written to the disk, where it is granted. All memory for that is taken before the disk is written.
pub(crate) fn write<D: Disk>(
    alloc: Global,
    bank: &mut Bank<D>,
    shared: &Shared,
    zone: &ZoneName,
    case: &Case,
    grant: Grant,
) -> Result<(), StepFault>
    requires ready { IsReady (D.view bank.old.disk) bank.old shared.now }
    requires place { MayStand zone.now (stored_by case.now grant) (rows_of shared.now.rows.entries) }
    requires room { IsFreeOf zone.now (stored_by case.now grant) (pools_in shared.now) }
    ensures writes { Writes zone.now (stored_by case.now grant) bank.old.records (rows_of shared.now.rows.entries) (D.view bank.old.disk) (D.view bank.new.disk) }
    ensures records { OnOk result (bank.new.records ≡ bodies_with zone.now (stored_by case.now grant) bank.old.records) }
    ensures sound { OnOk result (bank.new.sound ≡ true) }
    ensures zones { OnOk result (HasZones bank.new.records (rows_with zone.now (stored_by case.now grant) (rows_of shared.now.rows.entries))) }
    ensures settled { OnOk result ((D.view bank.new.disk).Keeps → (image : List ℕ) → (D.view bank.new.disk).Now image → Stands image bank.new.records) }
    ensures memory { IsErrOf result StepFault.Memory → bank.new ≡ bank.old }
    ensures fault { IsErrOf result StepFault.DiskFault → Rose (D.view bank.old.disk).faults (D.view bank.new.disk).faults }
    ensures unsound { IsErrOf result StepFault.DiskFault → bank.new.sound ≡ false }
    ensures none { stored_by case.now grant ≡ None → is_ok result ≡ true }
    ensures only { IfErr result (λ e. (e ≡ StepFault.Memory) ⊎ (e ≡ StepFault.DiskFault)) }
{
    match (number_in(grant), stores_of(case)) {
        (Ok(_), ToStore::Row(row)) => write_row(alloc, bank, shared, zone, Some(row)),
        (Ok(_), ToStore::Removal) => write_row(alloc, bank, shared, zone, None),
        _ => Ok(()),
    }
}
