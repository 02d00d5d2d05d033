//! The zones that are stored on a disk, changed by one record at a time.
ghost use Rattle.std.specs.Prelude.{◌≡◌, ◌≢◌, ◌⊎◌, ◌*◌, ◌+◌, ◌<◌, ◌≤◌, ◌++◌, ◌↔◌, [], ◌∷◌, List, ℕ, length, option_map, slice_get, Some, true, false, IfOk, IfErr, OnOk, OnErr, IfSome, IsErrOf, IsSome, IsTrue, is_ok};
ghost use Rattle.indexmap.specs.IndexMap.{spare};
ghost use Rattle.zn_io.specs.Disk.{View, Leaves};
ghost use Rattle.zn_io.specs.Streams.{Rose};
ghost use Rattle.zone_disk.specs.Bank.{Formats, KeepsMeaning, IsBeforeOrAfter as IsOneMore};
ghost use Rattle.zone_disk.specs.Image.{IsUnformatted, Stands};
ghost use Rattle.commit_journal.specs.Journal.{has_room, Leave};
ghost use Rattle.commit_journal.specs.Store.{change_text, outcome_by, row_of, HasZones, IsBeforeOrAfter, IsKept, Says, Stores, StoresOneMore};
ghost use Rattle.commit_journal.specs.Stored.{Rows, holds, may_stand, with_stored};
ghost use Rattle.commit_journal.specs.Zones.{rows_of};

use crate::bodies::body_of;
use crate::records::record_in;
use crate::replay::replay;
use crate::rows::{Zones, apply, row_of};
use crate::sizes::body_length;
use crate::{Row, StoreFault};
use std::alloc::{AllocError, Global};
use std::marker::Model;
use zn_base::ZoneName;
use zn_io::Disk;
use zone_disk::{BANK_BYTES, Bank, BankFault, Body};
use zone_pools::ZONES_MAX;

/// The stored zones in the order of their creation, and the disk with the records that leave them. Contracts
/// see a `Ledger`: the bank, and the zones with what is stored of each.
#[derive(Drop)]
pub struct Store<D: Disk> {
    bank: Bank<D>,
    zones: Zones,
}

impl<D: Disk> Model for Store<D> {
    ghost use Rattle.commit_journal.specs.Store.{IsKept, Ledger};
    ghost use Rattle.commit_journal.specs.Zones.{rows_of};

    ghost Value = { Ledger D };

    ghost view = { λ s. record { bank = s.bank; rows = rows_of s.zones.entries } };

    ghost invariant = { λ s. IsKept (D.view s.bank.disk) s.bank.records s.bank.sound (rows_of s.zones.entries) };
}

// How many records a bank has.
#[tactic(auto, using(crate::proofs::Kept::few_records))]
fn count_of<D: Disk>(bank: &Bank<D>) -> usize
    ensures count { result ≡ length bank.now.records }
    ensures few { result < 8388608 }
{
    // The clauses of `used` bound the bytes in use, and so the records.
    let _used = bank.used();
    bank.records().len()
}

/// How many records a bank has. It takes no memory.
pub fn record_count<D: Disk>(bank: &Bank<D>) -> u32
    ensures { result ≡ length bank.now.records }
{
    count_of(bank) as u32
}

/// Opens the store on a bank's disk again, as `Store::open` does: the zones that are stored. After a fault nothing may be appended.
pub fn reopen<D: Disk>(bank: &mut Bank<D>, alloc: Global) -> Result<Zones, StoreFault>
    ensures answers { (D.view bank.old.disk).Keeps → Says (D.view bank.old.disk).reads (outcome_by (λ _. bank.new.records) (λ zones. rows_of zones.entries) (λ e. e) result) }
    ensures zones { IfOk result (λ zones. HasZones bank.new.records (rows_of zones.entries)) }
    ensures any_moment { (D.view bank.old.disk).Keeps → Leaves (D.view bank.old.disk) (D.view bank.new.disk) (KeepsMeaning (D.view bank.old.disk)) }
    ensures lasts { (D.view bank.old.disk).Keeps → OnOk result ((image : List ℕ) → (D.view bank.new.disk).Now image → Stands image bank.new.records) }
    ensures sound { bank.new.sound ≡ is_ok result }
    ensures model { (D.view bank.old.disk).Keeps ↔ (D.view bank.new.disk).Keeps }
    ensures faults { (D.view bank.old.disk).faults ≤ (D.view bank.new.disk).faults }
    ensures cause { IsErrOf result StoreFault.DiskFault → Rose (D.view bank.old.disk).faults (D.view bank.new.disk).faults }
    ensures only { IfErr result (λ e. e ≢ StoreFault.BankFull) }
{
    bank.reopen(alloc)?;
    // The clauses of `count_of` bound the records, as `replay` asks.
    let _count = count_of(bank);
    match replay(alloc, bank.records()) {
        Ok(zones) => Ok(zones),
        Err(fault) => {
            bank.close();
            Err(fault)
        }
    }
}

// Whether a body and the next gate fit after the bytes in use.
fn has_room<D: Disk>(bank: &Bank<D>, zone: &ZoneName, stored: Option<&Row>) -> bool
    ensures { result ≡ has_room bank.now.used (change_text zone.now (option_map (λ row. row.now) stored.entry)) }
{
    bank.used() as usize + 5 + body_length(zone, record_in(stored)) <= BANK_BYTES
}

// A copy of the zone's name, with a place among the zones for one more.
fn prepared(alloc: Global, zones: &mut Zones, name: &ZoneName) -> Result<ZoneName, AllocError>
    ensures same { zones.new.entries ≡ zones.old.entries }
    ensures room { OnOk result (0 < spare zones.new) }
    ensures zone { IfOk result (λ zone. zone ≡ name.now) }
{
    let zone = name.copy(alloc)?;
    zones.reserve(1)?;
    Ok(zone)
}

// Appends a body for which there is room.
fn append<D: Disk>(bank: &mut Bank<D>, body: Body) -> Result<(), StoreFault>
    requires sound { bank.old.sound ≡ true }
    requires room { IsTrue (has_room bank.old.used body) }
    requires settled { (D.view bank.old.disk).Keeps → (image : List ℕ) → (D.view bank.old.disk).Now image → Stands image bank.old.records }
    ensures records { OnOk result (bank.new.records ≡ bank.old.records ++ body ∷ []) }
    ensures same { OnErr result (bank.new.records ≡ bank.old.records) }
    ensures sound { OnOk result (bank.new.sound ≡ true) }
    ensures settled { bank.new.sound ≡ true → (D.view bank.new.disk).Keeps → (image : List ℕ) → (D.view bank.new.disk).Now image → Stands image bank.new.records }
    ensures any_moment { (D.view bank.old.disk).Keeps → Leaves (D.view bank.old.disk) (D.view bank.new.disk) (IsOneMore bank.old.records body) }
    ensures either { (D.view bank.old.disk).Keeps → (image : List ℕ) → (D.view bank.new.disk).Now image → IsOneMore bank.old.records body image }
    ensures memory_same { IsErrOf result StoreFault.Memory → bank.new ≡ bank.old }
    ensures fault { IsErrOf result StoreFault.DiskFault → Rose (D.view bank.old.disk).faults (D.view bank.new.disk).faults }
    ensures unsound { IsErrOf result StoreFault.DiskFault ↔ (bank.new.sound ≡ false) }
    ensures only { IfErr result (λ e. (e ≡ StoreFault.Memory) ⊎ (e ≡ StoreFault.DiskFault)) }
    ensures model { (D.view bank.old.disk).Keeps ↔ (D.view bank.new.disk).Keeps }
    ensures faults { (D.view bank.old.disk).faults ≤ (D.view bank.new.disk).faults }
{
    Ok(bank.append(body)?)
}

/// Writes the record of a zone to the disk, or its removal, for which there is room: what is stored of it from then on. It is on
/// the disk before this answers, and all memory is taken before the disk is written. A crash at any moment meanwhile leaves the
/// records from before, or these and the new one, whatever zones they leave. After `DiskFault` the bank isn't sound, and the disk
/// is to be opened again; after `Memory` the bank is as it was.
pub fn append_record<D: Disk>(
    bank: &mut Bank<D>,
    alloc: Global,
    name: &ZoneName,
    row: Option<&Row>,
) -> Result<(), StoreFault>
    requires sound { bank.old.sound ≡ true }
    requires settled { (D.view bank.old.disk).Keeps → (image : List ℕ) → (D.view bank.old.disk).Now image → Stands image bank.old.records }
    requires room { IsTrue (has_room bank.old.used (change_text name.now (option_map (λ row. row.now) row))) }

    ensures records { OnOk result (bank.new.records ≡ bank.old.records ++ change_text name.now (option_map (λ row. row.now) row.entry) ∷ []) }
    ensures same { OnErr result (bank.new.records ≡ bank.old.records) }
    ensures sound { OnOk result (bank.new.sound ≡ true) }
    ensures settled { bank.new.sound ≡ true → (D.view bank.new.disk).Keeps → (image : List ℕ) → (D.view bank.new.disk).Now image → Stands image bank.new.records }
    ensures zones { OnOk result ((rows : Rows) → HasZones bank.old.records rows → IsTrue (may_stand name.now (option_map (λ row. row.now) row.entry) rows)
        → HasZones bank.new.records (with_stored name.now (option_map (λ row. row.now) row.entry) rows)) }

    ensures any_moment { (D.view bank.old.disk).Keeps → (rows : Rows) → HasZones bank.old.records rows → IsTrue (may_stand name.now (option_map (λ row. row.now) row.entry) rows)
        → Leaves (D.view bank.old.disk) (D.view bank.new.disk) (IsBeforeOrAfter bank.old.records rows name.now (option_map (λ row. row.now) row.entry)) }
    ensures lasts { (D.view bank.old.disk).Keeps → OnOk result ((rows : Rows) → HasZones bank.old.records rows → IsTrue (may_stand name.now (option_map (λ row. row.now) row.entry) rows)
        → (image : List ℕ) → (D.view bank.new.disk).Now image → StoresOneMore bank.old.records rows name.now (option_map (λ row. row.now) row.entry) image) }
    ensures either { (D.view bank.old.disk).Keeps → (rows : Rows) → HasZones bank.old.records rows → IsTrue (may_stand name.now (option_map (λ row. row.now) row.entry) rows)
        → (image : List ℕ) → (D.view bank.new.disk).Now image → IsBeforeOrAfter bank.old.records rows name.now (option_map (λ row. row.now) row.entry) image }

    ensures memory_same { IsErrOf result StoreFault.Memory → bank.new ≡ bank.old }
    ensures fault { IsErrOf result StoreFault.DiskFault → Rose (D.view bank.old.disk).faults (D.view bank.new.disk).faults }
    ensures unsound { IsErrOf result StoreFault.DiskFault ↔ (bank.new.sound ≡ false) }
    ensures only { IfErr result (λ e. (e ≡ StoreFault.Memory) ⊎ (e ≡ StoreFault.DiskFault)) }
    ensures model { (D.view bank.old.disk).Keeps ↔ (D.view bank.new.disk).Keeps }
    ensures faults { (D.view bank.old.disk).faults ≤ (D.view bank.new.disk).faults }
{
    let body = body_of(alloc, name, record_in(row))?;
    append(bank, body)?;
    Ok(())
}

// Writes the record of a zone to the disk, once all memory is taken that is then needed.
fn write<D: Disk>(
    bank: &mut Bank<D>,
    zones: &mut Zones,
    alloc: Global,
    name: &ZoneName,
    row: Option<&Row>,
) -> Result<ZoneName, StoreFault>
    requires sound { bank.old.sound ≡ true }
    requires settled { (D.view bank.old.disk).Keeps → (image : List ℕ) → (D.view bank.old.disk).Now image → Stands image bank.old.records }
    requires zones { HasZones bank.old.records (rows_of zones.old.entries) }
    requires place { IsTrue (may_stand name.now (option_map (λ row. row.now) row) (rows_of zones.old.entries)) }

    ensures name { IfOk result (λ zone. zone ≡ name.now) }
    ensures room { OnOk result (0 < spare zones.new) }
    ensures zones { zones.new.entries ≡ zones.old.entries }
    ensures leaves { OnOk result (HasZones bank.new.records (with_stored name.now (option_map (λ row. row.now) row.entry) (rows_of zones.old.entries))) }
    ensures records { OnOk result (bank.new.records ≡ bank.old.records ++ change_text name.now (option_map (λ row. row.now) row.entry) ∷ []) }
    ensures same { OnErr result (bank.new.records ≡ bank.old.records) }
    ensures sound { OnOk result (bank.new.sound ≡ true) }
    ensures settled { bank.new.sound ≡ true → (D.view bank.new.disk).Keeps → (image : List ℕ) → (D.view bank.new.disk).Now image → Stands image bank.new.records }

    ensures any_moment { (D.view bank.old.disk).Keeps → Leaves (D.view bank.old.disk) (D.view bank.new.disk) (IsBeforeOrAfter bank.old.records (rows_of zones.old.entries) name.now (option_map (λ row. row.now) row.entry)) }
    ensures lasts { (D.view bank.old.disk).Keeps → OnOk result ((image : List ℕ) → (D.view bank.new.disk).Now image → StoresOneMore bank.old.records (rows_of zones.old.entries) name.now (option_map (λ row. row.now) row.entry) image) }
    ensures either { (D.view bank.old.disk).Keeps → (image : List ℕ) → (D.view bank.new.disk).Now image → IsBeforeOrAfter bank.old.records (rows_of zones.old.entries) name.now (option_map (λ row. row.now) row.entry) image }

    ensures full { IsErrOf result StoreFault.BankFull ↔ (has_room bank.old.used (change_text name.now (option_map (λ row. row.now) row.entry)) ≡ false) }
    ensures full_same { IsErrOf result StoreFault.BankFull → bank.new ≡ bank.old }
    ensures memory_same { IsErrOf result StoreFault.Memory → bank.new ≡ bank.old }
    ensures fault { IsErrOf result StoreFault.DiskFault → Rose (D.view bank.old.disk).faults (D.view bank.new.disk).faults }
    ensures unsound { IsErrOf result StoreFault.DiskFault ↔ (bank.new.sound ≡ false) }
    ensures only { IfErr result (λ e. (e ≡ StoreFault.BankFull) ⊎ (e ≡ StoreFault.Memory) ⊎ (e ≡ StoreFault.DiskFault)) }

    ensures model { (D.view bank.old.disk).Keeps ↔ (D.view bank.new.disk).Keeps }
    ensures faults { (D.view bank.old.disk).faults ≤ (D.view bank.new.disk).faults }
{
    if !has_room(bank, name, row) {
        return Err(StoreFault::BankFull);
    }
    let zone = prepared(alloc, zones, name)?;
    append_record(bank, alloc, name, row)?;
    Ok(zone)
}

impl<D: Disk> Store<D> {
    /// Opens a store, and formats a disk that is unformatted. A crash at any moment meanwhile leaves what
    /// stands for the same records. A fault hands the disk back.
    #[tactic(auto, using(crate::proofs::Opening::still_there, crate::proofs::Opening::not_unformatted))]
    pub fn open(alloc: Global, disk: D) -> Result<Store<D>, (StoreFault, D)>
        // The answer is what the disk's bytes come to, unless memory or the disk fails.
        ensures answers { (D.view disk).Keeps → Says (D.view disk).reads (outcome_by (λ store. store.bank.records) (λ store. store.rows) (λ e. e.0) result) }
        ensures leave { IfOk result (λ store. Leave store.bank.records store.rows) }

        ensures any_moment { (D.view disk).Keeps → IfOk result (λ store. Leaves (D.view disk) (D.view store.bank.disk) (KeepsMeaning (D.view disk))) }
        ensures any_moment_err { (D.view disk).Keeps → IfErr result (λ e. Leaves (D.view disk) (D.view e.1) (KeepsMeaning (D.view disk))) }
        ensures lasts { (D.view disk).Keeps → IfOk result (λ store. (image : List ℕ) → (D.view store.bank.disk).Now image → Stores store.bank.records store.rows image) }

        // What is unformatted becomes a new store, which takes no memory, and every other disk stays as it is. After a
        // fault other than that of the disk, running out of memory included, each disk is as it was.
        ensures formats { (D.view disk).Keeps → IfOk result (λ store. Formats (D.view disk).reads (D.view store.bank.disk).reads) }
        ensures refused_same { (D.view disk).Keeps → IfErr result (λ e. e.0 ≢ StoreFault.DiskFault → (D.view e.1).reads ≡ (D.view disk).reads) }
        ensures unformatted { (D.view disk).Keeps → IsUnformatted (D.view disk).reads → IfErr result (λ e. e.0 ≡ StoreFault.DiskFault) }
        ensures other_same { (D.view disk).Keeps → (IsUnformatted (D.view disk).reads → ⊥) → IfErr result (λ e. (D.view e.1).reads ≡ (D.view disk).reads) }
        ensures sound { IfOk result (λ store. store.bank.sound ≡ true) }

        ensures model { IfOk result (λ store. (D.view disk).Keeps ↔ (D.view store.bank.disk).Keeps) }
        ensures model_err { IfErr result (λ e. (D.view disk).Keeps ↔ (D.view e.1).Keeps) }
        ensures faults { IfOk result (λ store. (D.view disk).faults ≤ (D.view store.bank.disk).faults) }
        ensures faults_err { IfErr result (λ e. (D.view disk).faults ≤ (D.view e.1).faults) }
        ensures cause { IfErr result (λ e. e.0 ≡ StoreFault.DiskFault → Rose (D.view disk).faults (D.view e.1).faults) }
        ensures only { IfErr result (λ e. e.0 ≢ StoreFault.BankFull) }
    {
        let bank = match Bank::open(alloc, disk) {
            Ok(bank) => bank,
            Err((fault, disk)) => return Err((StoreFault::from(fault), disk)),
        };
        // The clauses of `count_of` bound the records, as `replay` asks.
        let _count = count_of(&bank);
        match replay(alloc, bank.records()) {
            Ok(zones) => Ok(Store { bank, zones }),
            Err(fault) => Err((fault, bank.into_disk())),
        }
    }

    /// What is stored of a zone. It takes no memory.
    pub fn get(&self, name: &ZoneName) -> Option<&Row>
        ensures row { option_map (λ row. row.now) result ≡ row_of name.now self.now.rows }
        ensures held { IsSome result ↔ IsTrue (holds name.now self.now.rows) }
    {
        row_of(&self.zones, name)
    }

    /// How many zones are stored. It takes no memory.
    pub fn count(&self) -> u32
        ensures count { result ≡ length self.now.rows }
        ensures few { result ≤ ZONES_MAX }
        ensures leave { Leave self.now.bank.records self.now.rows }
    {
        self.zones.len() as u32
    }

    /// The zone at a place in the order of creation, from 0, and what is stored of it. It takes no memory.
    pub fn at(&self, place: u32) -> (&ZoneName, &Row)
        requires { place < length self.now.rows }
        ensures { slice_get self.now.rows place ≡ Some (record { zone = result.0.now; it = result.1.now }) }
    {
        self.zones.get_index(place as usize).unwrap()
    }

    /// The number that the next record will have, from 1. It takes no memory.
    pub fn next_serial(&self) -> u32
        ensures { result ≡ length self.now.bank.records + 1 }
    {
        (count_of(&self.bank) + 1) as u32
    }

    /// Whether the bank has room for a zone's record, or for its removal. It takes no memory.
    pub fn room_for(&self, name: &ZoneName, row: Option<&Row>) -> bool
        ensures { result ≡ has_room self.now.bank.used (change_text name.now (option_map (λ row. row.now) row.entry)) }
    {
        has_room(&self.bank, name, row)
    }

    /// Makes one record: what is stored of a zone from then on, or that it is removed. It is on the disk
    /// before this answers the record's number. A crash at any moment meanwhile leaves the records from
    /// before, or these and the new one. After `DiskFault` the store isn't sound, and the disk is to be opened
    /// again; after every other fault the store is as it was.
    pub fn change(
        &mut self,
        alloc: Global,
        name: &ZoneName,
        row: Option<Row>,
    ) -> Result<u32, StoreFault>
        requires sound { self.old.bank.sound ≡ true }
        requires place { IsTrue (may_stand name.now row self.old.rows) }

        ensures serial { IfOk result (λ serial. serial ≡ length self.old.bank.records + 1) }
        ensures records { OnOk result (self.new.bank.records ≡ self.old.bank.records ++ change_text name.now row ∷ []) }
        ensures rows { OnOk result (self.new.rows ≡ with_stored name.now row self.old.rows) }
        ensures sound { OnOk result (self.new.bank.sound ≡ true) }

        ensures any_moment { (D.view self.old.bank.disk).Keeps → Leaves (D.view self.old.bank.disk) (D.view self.new.bank.disk) (IsBeforeOrAfter self.old.bank.records self.old.rows name.now row) }
        ensures lasts { (D.view self.old.bank.disk).Keeps → OnOk result ((image : List ℕ) → (D.view self.new.bank.disk).Now image → StoresOneMore self.old.bank.records self.old.rows name.now row image) }
        ensures either { (D.view self.old.bank.disk).Keeps → (image : List ℕ) → (D.view self.new.bank.disk).Now image → IsBeforeOrAfter self.old.bank.records self.old.rows name.now row image }

        ensures full { IsErrOf result StoreFault.BankFull ↔ (has_room self.old.bank.used (change_text name.now row) ≡ false) }
        ensures full_same { IsErrOf result StoreFault.BankFull → self.new ≡ self.old }
        ensures memory_same { IsErrOf result StoreFault.Memory → self.new ≡ self.old }
        ensures fault { IsErrOf result StoreFault.DiskFault → Rose (D.view self.old.bank.disk).faults (D.view self.new.bank.disk).faults }
        ensures unsound { IsErrOf result StoreFault.DiskFault ↔ (self.new.bank.sound ≡ false) }
        ensures fault_same { OnErr result ((self.new.bank.records ≡ self.old.bank.records) × (self.new.rows ≡ self.old.rows)) }
        ensures only { IfErr result (λ e. (e ≡ StoreFault.BankFull) ⊎ (e ≡ StoreFault.Memory) ⊎ (e ≡ StoreFault.DiskFault)) }

        ensures model { (D.view self.old.bank.disk).Keeps ↔ (D.view self.new.bank.disk).Keeps }
        ensures faults { (D.view self.old.bank.disk).faults ≤ (D.view self.new.bank.disk).faults }
    {
        let zone = write(&mut self.bank, &mut self.zones, alloc, name, row.as_ref())?;
        apply(&mut self.zones, zone, row);
        Ok(count_of(&self.bank) as u32)
    }

    /// Whether the store may be changed. It takes no memory.
    pub fn sound(&self) -> bool
        ensures { result ≡ self.now.bank.sound }
    {
        self.bank.sound()
    }

    /// The bank and the zones apart. They are as a store keeps them. It takes no memory.
    pub fn into_parts(self) -> (Bank<D>, Zones)
        ensures bank { result.0 ≡ self.bank }
        ensures rows { rows_of result.1.entries ≡ self.rows }
        ensures kept { IsKept (D.view self.bank.disk) self.bank.records self.bank.sound self.rows }
    {
        (self.bank, self.zones)
    }

    /// Hands the disk back. It takes no memory.
    pub fn into_disk(self) -> D
        ensures { result ≡ self.bank.disk }
    {
        self.bank.into_disk()
    }
}
