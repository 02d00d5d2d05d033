//! A list of bodies on a disk, each after a gate byte that is opened once the body is on the disk.
ghost use Rattle.std.specs.Prelude.{◌≡◌, ◌≢◌, ◌⊎◌, ◌*◌, ◌+◌, ◌<◌, ◌≤◌, ◌-◌, ◌^◌, ◌++◌, ◌↔◌, [], ◌∷◌, List, ℕ, length, IfOk, IfErr, OnOk, OnErr, IsErrOf, IsTrue, Bool, true, false, Result, is_ok, vec_capacity};
ghost use Rattle.zn_io.specs.Disk.{View, Leaves, IsDurable};
ghost use Rattle.zn_io.specs.Streams.{HasCause, Rose};
ghost use Rattle.zone_disk.specs.Image.{used_by, IsUnformatted, Stands};
ghost use Rattle.zone_disk.specs.Bank.{IsSettled, IsBeforeOrAfter, KeepsMeaning, Formats, Says, outcome_by};

use crate::format::prepare;
use crate::read::{Records, read_all};
use crate::{BankFault, Body};
use std::alloc::Global;
use std::marker::Model;
use zn_io::{Disk, Failed, put_durably};

/// How many bytes of a store a bank has after the header: gates, lengths and bodies.
pub const BANK_BYTES: usize = 33_554_432;

/// A list of bodies on a disk. Contracts see an `Account`: the disk, the bodies, the bytes of the bank in
/// use, and whether more may be appended.
#[derive(Drop)]
pub struct Bank<D: Disk> {
    disk: D,
    records: Vec<Body>,
    used: u32,
    sound: bool,
}

impl<D: Disk> Model for Bank<D> {
    ghost use Rattle.zone_disk.specs.Bank.{Account, IsKept};

    ghost Value = { Account D };

    ghost view = { λ b. record { disk = b.disk; records = b.records.items; used = b.used; sound = b.sound } };

    ghost invariant = { λ b. IsKept (D.view b.disk) b.records.items b.used b.sound };
}

// Formats a disk that is unformatted, which takes no memory, and reads what stands on any other.
fn ready<D: Disk>(alloc: Global, disk: &mut D) -> Result<Records, BankFault>
    ensures answers { (D.view disk.old).Keeps → Says (D.view disk.old).reads (outcome_by (λ r. r.bodies.items) (λ e. e) result) }
    ensures any_moment { (D.view disk.old).Keeps → Leaves (D.view disk.old) (D.view disk.new) (KeepsMeaning (D.view disk.old)) }
    ensures settled { (D.view disk.old).Keeps → IfOk result (λ r. IsSettled (D.view disk.new) r.bodies.items) }
    ensures formats { (D.view disk.old).Keeps → OnOk result (Formats (D.view disk.old).reads (D.view disk.new).reads) }
    ensures empty { (D.view disk.old).Keeps → IsUnformatted (D.view disk.old).reads → IfOk result (λ r. r.bodies.items ≡ []) }
    ensures other { (D.view disk.old).Keeps → (IsUnformatted (D.view disk.old).reads → ⊥) → (D.view disk.new).reads ≡ (D.view disk.old).reads }
    ensures refused_same { (D.view disk.old).Keeps → IfErr result (λ e. e ≢ BankFault.DiskFault → (D.view disk.new).reads ≡ (D.view disk.old).reads) }
    ensures unformatted { (D.view disk.old).Keeps → IsUnformatted (D.view disk.old).reads → IfErr result (λ e. e ≡ BankFault.DiskFault) }
    ensures counted { IfOk result (λ r. r.used ≡ used_by r.bodies.items) }
    ensures within { IfOk result (λ r. r.used ≤ BANK_BYTES) }
    ensures model { (D.view disk.old).Keeps ↔ (D.view disk.new).Keeps }
    ensures faults { (D.view disk.old).faults ≤ (D.view disk.new).faults }
    ensures cause { IsErrOf result BankFault.DiskFault → Rose (D.view disk.old).faults (D.view disk.new).faults }
    ensures only { IfErr result (λ e. e ≢ BankFault.BankFull) }
{
    if prepare(disk)? {
        return Ok(Records {
            bodies: Vec::new(alloc),
            used: 1,
        });
    }
    read_all(alloc, disk)
}

// A push that takes no memory.
fn push(bodies: &mut Vec<Body>, body: Body)
    requires { length bodies.old.items < vec_capacity bodies.old }
    ensures { bodies.new.items ≡ bodies.old.items ++ body ∷ [] }
{
    bodies.push(body).unwrap();
}

// Puts a body after the closed gate, and then opens the gate.
fn put_body<D: Disk>(disk: &mut D, used: u32, body: &Body) -> Result<(), Failed>
    requires { used + 5 + length body.now ≤ BANK_BYTES }
    ensures any_moment { (D.view disk.old).Keeps → (bodies : List (List ℕ)) → IsSettled (D.view disk.old) bodies → used ≡ used_by bodies → Leaves (D.view disk.old) (D.view disk.new) (IsBeforeOrAfter bodies body.now) }
    ensures settled { (D.view disk.old).Keeps → (bodies : List (List ℕ)) → IsSettled (D.view disk.old) bodies → used ≡ used_by bodies → OnOk result (IsSettled (D.view disk.new) (bodies ++ body.now ∷ [])) }
    ensures model { (D.view disk.old).Keeps ↔ (D.view disk.new).Keeps }
    ensures cause { HasCause (D.view disk.old).faults (D.view disk.new).faults result }
{
    let gate = 15 + used as u64;
    put_durably(disk, gate + 1, body.framed())?;
    put_durably(disk, gate, &[1])
}

// There is no room after the closed gate for a length, a body and the next gate.
fn is_full(used: u32, body: &Body) -> bool
    requires { used ≤ BANK_BYTES }
    ensures { IsTrue result ↔ (BANK_BYTES < used + 5 + length body.now) }
{
    let length = body.bytes().len();
    length > BANK_BYTES || used as usize + 5 + length > BANK_BYTES
}

impl<D: Disk> Bank<D> {
    /// Opens a store, and formats a disk that is unformatted. A crash at any moment meanwhile leaves what
    /// stands for the same list of bodies. A fault hands the disk back.
    pub fn open(alloc: Global, disk: D) -> Result<Bank<D>, (BankFault, D)>
        // The answer is what the disk's bytes come to, unless memory or the disk fails.
        ensures answers { (D.view disk).Keeps → Says (D.view disk).reads (outcome_by (λ bank. bank.records) (λ e. e.0) result) }

        ensures any_moment { (D.view disk).Keeps → IfOk result (λ bank. Leaves (D.view disk) (D.view bank.disk) (KeepsMeaning (D.view disk))) }
        ensures any_moment_err { (D.view disk).Keeps → IfErr result (λ e. Leaves (D.view disk) (D.view e.1) (KeepsMeaning (D.view disk))) }
        ensures lasts { (D.view disk).Keeps → IfOk result (λ bank. (image : List ℕ) → (D.view bank.disk).Now image → Stands image bank.records) }

        // What is unformatted becomes a new store, which takes no memory, and every other disk stays as it is. After a
        // fault other than that of the disk, running out of memory included, each disk is as it was.
        ensures formats { (D.view disk).Keeps → IfOk result (λ bank. Formats (D.view disk).reads (D.view bank.disk).reads) }
        ensures empty { (D.view disk).Keeps → IsUnformatted (D.view disk).reads → IfOk result (λ bank. bank.records ≡ []) }
        ensures refused_same { (D.view disk).Keeps → IfErr result (λ e. e.0 ≢ BankFault.DiskFault → (D.view e.1).reads ≡ (D.view disk).reads) }
        ensures unformatted { (D.view disk).Keeps → IsUnformatted (D.view disk).reads → IfErr result (λ e. e.0 ≡ BankFault.DiskFault) }
        ensures other_same { (D.view disk).Keeps → (IsUnformatted (D.view disk).reads → ⊥) → IfErr result (λ e. (D.view e.1).reads ≡ (D.view disk).reads) }
        ensures sound { IfOk result (λ bank. bank.sound ≡ true) }
        ensures used { IfOk result (λ bank. bank.used ≡ used_by bank.records) }

        ensures model { IfOk result (λ bank. (D.view disk).Keeps ↔ (D.view bank.disk).Keeps) }
        ensures model_err { IfErr result (λ e. (D.view disk).Keeps ↔ (D.view e.1).Keeps) }
        ensures faults { IfOk result (λ bank. (D.view disk).faults ≤ (D.view bank.disk).faults) }
        ensures faults_err { IfErr result (λ e. (D.view disk).faults ≤ (D.view e.1).faults) }
        ensures cause { IfErr result (λ e. e.0 ≡ BankFault.DiskFault → Rose (D.view disk).faults (D.view e.1).faults) }
        ensures only { IfErr result (λ e. e.0 ≢ BankFault.BankFull) }
    {
        let mut disk = disk;
        match ready(alloc, &mut disk) {
            Ok(records) => Ok(Bank {
                disk,
                records: records.bodies,
                used: records.used as u32,
                sound: true,
            }),
            Err(fault) => Err((fault, disk)),
        }
    }

    /// Appends a body: it is on the disk before this answers. A crash at any moment meanwhile leaves the
    /// bodies from before, or these and the new one. After `DiskFault` the bank isn't sound, and the disk
    /// is to be opened again; after every other fault the bank is as it was.
    pub fn append(&mut self, body: Body) -> Result<(), BankFault>
        requires { self.old.sound ≡ true }
        ensures records { OnOk result (self.new.records ≡ self.old.records ++ body ∷ []) }
        ensures used { OnOk result (self.new.used ≡ self.old.used + 5 + length body) }
        ensures sound { OnOk result (self.new.sound ≡ true) }

        ensures any_moment { (D.view self.old.disk).Keeps → Leaves (D.view self.old.disk) (D.view self.new.disk) (IsBeforeOrAfter self.old.records body) }
        ensures lasts { (D.view self.old.disk).Keeps → OnOk result ((image : List ℕ) → (D.view self.new.disk).Now image → Stands image (self.old.records ++ body ∷ [])) }
        ensures either { (D.view self.old.disk).Keeps → (image : List ℕ) → (D.view self.new.disk).Now image → IsBeforeOrAfter self.old.records body image }

        ensures full { IsErrOf result BankFault.BankFull ↔ (BANK_BYTES < self.old.used + 5 + length body) }
        ensures full_same { IsErrOf result BankFault.BankFull → self.new ≡ self.old }
        ensures memory_same { IsErrOf result BankFault.Memory → self.new ≡ self.old }
        ensures fault { IsErrOf result BankFault.DiskFault → Rose (D.view self.old.disk).faults (D.view self.new.disk).faults }
        ensures unsound { IsErrOf result BankFault.DiskFault ↔ (self.new.sound ≡ false) }
        ensures fault_same { OnErr result (self.new.records ≡ self.old.records × (self.new.used ≡ self.old.used)) }
        ensures only { IfErr result (λ e. (e ≡ BankFault.BankFull) ⊎ (e ≡ BankFault.Memory) ⊎ (e ≡ BankFault.DiskFault)) }

        ensures model { (D.view self.old.disk).Keeps ↔ (D.view self.new.disk).Keeps }
        ensures faults { (D.view self.old.disk).faults ≤ (D.view self.new.disk).faults }
    {
        if is_full(self.used, &body) {
            return Err(BankFault::BankFull);
        }
        self.records.reserve(1)?;
        self.sound = false;
        put_body(&mut self.disk, self.used, &body)?;
        self.used += 5 + body.bytes().len() as u32;
        push(&mut self.records, body);
        self.sound = true;
        Ok(())
    }

    /// Opens the store on the bank's disk again, as `open` does. After a fault nothing may be appended.
    pub fn reopen(&mut self, alloc: Global) -> Result<(), BankFault>
        ensures answers { (D.view self.old.disk).Keeps → Says (D.view self.old.disk).reads (outcome_by (λ _. self.new.records) (λ e. e) result) }
        ensures any_moment { (D.view self.old.disk).Keeps → Leaves (D.view self.old.disk) (D.view self.new.disk) (KeepsMeaning (D.view self.old.disk)) }
        ensures lasts { (D.view self.old.disk).Keeps → OnOk result ((image : List ℕ) → (D.view self.new.disk).Now image → Stands image self.new.records) }
        ensures sound { self.new.sound ≡ is_ok result }
        ensures used { OnOk result (self.new.used ≡ used_by self.new.records) }

        ensures model { (D.view self.old.disk).Keeps ↔ (D.view self.new.disk).Keeps }
        ensures faults { (D.view self.old.disk).faults ≤ (D.view self.new.disk).faults }
        ensures cause { IsErrOf result BankFault.DiskFault → Rose (D.view self.old.disk).faults (D.view self.new.disk).faults }
        ensures only { IfErr result (λ e. e ≢ BankFault.BankFull) }
    {
        self.sound = false;
        let records = ready(alloc, &mut self.disk)?;
        self.records = records.bodies;
        self.used = records.used as u32;
        self.sound = true;
        Ok(())
    }

    /// Nothing may be appended any more. It takes no memory.
    pub fn close(&mut self)
        ensures { self.new ≡ record self.old { sound = false } }
    {
        self.sound = false;
    }

    /// The bodies, in the order of their appending.
    pub fn records(&self) -> &[Body]
        ensures { result.now ≡ self.now.records }
    {
        &self.records
    }

    /// How many bytes of the bank are in use, the closed gate with them.
    pub fn used(&self) -> u32
        ensures used { result ≡ self.now.used }
        ensures counted { result ≡ used_by self.now.records }
        ensures within { result ≤ BANK_BYTES }
    {
        self.used
    }

    /// More may be appended.
    pub fn sound(&self) -> bool
        ensures { result ≡ self.now.sound }
    {
        self.sound
    }

    /// Hands the disk back.
    pub fn into_disk(self) -> D
        ensures { result ≡ self.disk }
    {
        self.disk
    }
}
