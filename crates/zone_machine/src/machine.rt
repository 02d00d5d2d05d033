//! The machine.
ghost use Rattle.std.specs.Prelude.{◌≡◌, ◌≢◌, ◌⊎◌, IfErr, IfOk, IsErrOf, IsOkUnless, Err, List, None, OnErr, OnOk, Some, is_ok, length, true};
ghost use Rattle.zn_io.specs.Disk.{Leaves as Disk_leaves};
ghost use Rattle.zn_io.specs.Streams.{Rose};
ghost use Rattle.brand_hooks.specs.Brands.{tables_of};
ghost use Rattle.brand_hooks.specs.Hooks.{AllFollow};
ghost use Rattle.commit_journal.specs.Store.{OpensStore};
ghost use Rattle.commit_journal.specs.declared.records.Commit.{Commit};
ghost use Rattle.zone_machine.specs.Code.Cells.{Stands};
ghost use Rattle.zone_machine.specs.Code.Decided.{AsksBrands, IsForeseen, IsHeard, MayGoOn, entry_by, turn_records};
ghost use Rattle.zone_machine.specs.Code.Openings.{Begins, BeginsAgain, StandsFor};
ghost use Rattle.zone_machine.specs.Code.Records.{GoesUnder, Passes};
ghost use Rattle.zone_machine.specs.Code.Restarts.{BankLeftAny, BeginsAgainAfter, IsAllowedStepOf, IsFittingStepOf, IsStepUnderOf, KeepsBodiesOf, LeavesAny, LosesStore};
ghost use Rattle.zone_machine.specs.Code.Steps.{AsItWas, FitsIn, IsAllowed, IsMisfit, IsRefusedIfUnfit, IsStarted, IsSubject, IsZoneState};
ghost use Rattle.zone_machine.specs.Machine.{opening, restarted};
ghost use Rattle.zone_machine.specs.Machine.Images.{Holds, IsStoreOf};
ghost use Rattle.zone_machine.specs.Machine.Indexed.{index_of};
ghost use Rattle.zone_cases.specs.State.{State};

pub(crate) mod answering;
pub(crate) mod apart;
pub(crate) mod comings;
pub(crate) mod consoles;
pub(crate) mod declarations;
pub(crate) mod effects;
pub(crate) mod global_steps;
pub(crate) mod indexed;
pub(crate) mod listed;
pub(crate) mod local_turns;
pub(crate) mod needs;
pub(crate) mod objects;
pub(crate) mod other_events;
pub(crate) mod parting;
pub(crate) mod parts;
pub(crate) mod pools;
pub(crate) mod reads;
pub(crate) mod records;
pub(crate) mod restarts;
pub(crate) mod rooms;
pub(crate) mod settling;
pub(crate) mod shared;
pub(crate) mod shown;
pub(crate) mod sitting;
pub(crate) mod steps;
pub(crate) mod storing;
pub(crate) mod telling;
pub(crate) mod ups;
pub(crate) mod work;
pub(crate) mod zone_events;

use crate::faults::StepFault;
use crate::machine::indexed::index_rows;
use crate::machine::parts::Parts;
use crate::machine::reads::{read_event, subject};
use brand_hooks::{Brands, Change, HookAnswer};
use commit_journal::{Store, StoreFault, opens_store_one_way, record_count, reopen};
use index_file::IndexRow;
use std::alloc::Global;
use zn_base::{ZoneName, ZoneState};
use zn_io::Disk;
use zone_cases::{Answer, Entry, Event, Subject};
use zone_disk::Bank;
use zone_pools::Grant;

/// What is known of an event before it is answered.
#[derive(Clone, Copy)]
pub struct Foreseen {
    /// What the brand of a turn's zone answers to the next step of its daemon, where it is asked.
    pub hook: HookAnswer,
    /// Whether that step changes what is stored of the zone. It then stores a record, unless that is denied or fails.
    pub records: bool,
    // Where the cell of a turn's zone stands, if it has one.
    pub(crate) place: Option<usize>,
}

/// The machine of all zones over the records on a disk, and the brands whose hooks it asks. Contracts say what its parts
/// stand for, and what a crash leaves on the disk.
#[derive(Drop)]
pub struct Machine<'b, D: Disk, F> {
    pub(crate) parts: Parts,
    pub(crate) bank: Bank<D>,
    pub(crate) brands: &'b Brands<F>,
}

impl<'b, D: Disk, F: Fn(&Change) -> HookAnswer> Machine<'b, D, F> {
    /// Opens the store on a disk, and begins before any event with the brands that it asks. A crash at any moment meanwhile
    /// leaves what stands for the same commits. A fault hands the disk back.
    pub fn open(alloc: Global, disk: D, brands: &'b Brands<F>) -> Result<Self, (StoreFault, D)>
        requires { AllFollow F.Fn brands.now }
        ensures begins { IfOk result (Begins (tables_of brands.now)) }
        ensures stands { (D.view disk).Keeps → IfOk result (λ m. (R : List Commit) → Holds R (D.view disk).reads → StandsFor (opening (tables_of brands.now) R) m) }
        ensures opens { (D.view disk).Keeps → IfOk result (λ m. (R : List Commit) × Holds R (D.view disk).reads) }
        ensures refuses { (D.view disk).Keeps → IfErr result (λ e. (e.0 ≡ StoreFault.Memory) ⊎ ((e.0 ≡ StoreFault.DiskFault) ⊎ OpensStore (D.view disk).reads (Err e.0))) }
        ensures any_moment { (R : List Commit) → IsStoreOf (D.view disk) R → IfOk result (λ m. Disk_leaves (D.view disk) (D.view m.bank.disk) (Holds R)) }
        ensures any_moment_err { (R : List Commit) → IsStoreOf (D.view disk) R → IfErr result (λ e. Disk_leaves (D.view disk) (D.view e.1) (Holds R)) }
        ensures ready { IfOk result (MayGoOn D.view) }
        ensures passes { IfOk result (λ m. Passes (D.view disk) (D.view m.bank.disk)) }
        ensures passes_err { IfErr result (λ e. Passes (D.view disk) (D.view e.1)) }
        ensures cause { IfErr result (λ e. e.0 ≡ StoreFault.DiskFault → Rose (D.view disk).faults (D.view e.1).faults) }
        ensures only { IfErr result (λ e. e.0 ≢ StoreFault.BankFull) }
        ensures asks { IfOk result (AsksBrands F.Fn) }
    {
        // A law: an image stands for the records of one store.
        opens_store_one_way();
        let Ok(tables) = brands.tables(alloc) else {
            return Err((StoreFault::Memory, disk));
        };
        match Store::open(alloc, disk) {
            Ok(store) => {
                let (bank, rows) = store.into_parts();
                let records = record_count(&bank);
                let used = bank.used();
                Ok(Self {
                    parts: Parts::opened(alloc, tables, rows, records, used),
                    bank,
                    brands,
                })
            }
            Err(refused) => Err(refused),
        }
    }

    /// The system restarts: the store is opened again, what is declared stays, and all else begins anew. A crash at any moment
    /// meanwhile leaves what stands for the same commits. After a fault all zones are as they were, and no event may be taken
    /// any more. As an event it is `Event::Restart`.
    pub fn restart(&mut self, alloc: Global) -> Result<(), StoreFault>
        requires asks { AsksBrands F.Fn self.old }
        requires ready { MayGoOn D.view self.old }
        ensures begins { OnOk result ((S : State) → Stands S self.old.parts → BeginsAgain S self.new) }
        ensures stands { (D.view self.old.bank.disk).Keeps → OnOk result ((S : State) → StandsFor S self.old → StandsFor (restarted S) self.new) }
        ensures same { OnErr result (self.new.parts ≡ self.old.parts) }
        ensures refuses { (D.view self.old.bank.disk).Keeps → IfErr result (λ e. (e ≡ StoreFault.Memory) ⊎ (e ≡ StoreFault.DiskFault)) }
        ensures any_moment { (R : List Commit) → IsStoreOf (D.view self.old.bank.disk) R → Disk_leaves (D.view self.old.bank.disk) (D.view self.new.bank.disk) (Holds R) }
        ensures ready { OnOk result (MayGoOn D.view self.new) }
        ensures unsound { self.new.bank.sound ≡ is_ok result }
        ensures passes { Passes (D.view self.old.bank.disk) (D.view self.new.bank.disk) }
        ensures cause { IsErrOf result StoreFault.DiskFault → Rose (D.view self.old.bank.disk).faults (D.view self.new.bank.disk).faults }
        ensures only { IfErr result (λ e. e ≢ StoreFault.BankFull) }
        ensures asks { AsksBrands F.Fn self.new }
    {
        // A law: an image stands for the records of one store.
        opens_store_one_way();
        match reopen(&mut self.bank, alloc) {
            Ok(rows) => {
                let records = record_count(&self.bank);
                let used = self.bank.used();
                self.parts.restart(alloc, rows, records, used);
                Ok(())
            }
            Err(fault) => Err(fault),
        }
    }

    /// Whether events may be taken. It takes no memory.
    pub fn sound(&self) -> bool
        ensures { result ≡ self.now.bank.sound }
    {
        self.bank.sound()
    }

    /// How many records the store has. It takes no memory.
    pub fn records(&self) -> u32
        ensures { (S : State) → Stands S self.now.parts → result ≡ length S.commits }
    {
        self.parts.shared.serial
    }

    /// The stored zones, in the order in which they were made, with their stored states.
    pub fn index(&self, alloc: Global) -> Result<Vec<IndexRow>, StepFault>
        ensures ok { IfOk result (λ index. (S : State) → Stands S self.now.parts → index.items ≡ index_of S.commits) }
        ensures err { IsOkUnless result StepFault.Memory }
    {
        Ok(index_rows(alloc, &self.parts.shared.rows)?)
    }

    /// Hands the disk back. It takes no memory.
    pub fn into_disk(self) -> D
        ensures { result ≡ self.entry.bank.disk }
    {
        self.bank.into_disk()
    }

    /// What is known of an event before it is answered. It takes no memory.
    #[inline(always)]
    pub fn foresee(&self, event: &Event) -> Foreseen
        requires { AsksBrands F.Fn self.now }
        ensures foreseen { IsForeseen self.now.parts event.now result }
        ensures records { result.records ≡ turn_records self.now.parts event.now }
    {
        let (place, asked, records) = self.parts.ahead(event);
        let hook = match asked {
            Some((brand, change)) => self.brands.answer(brand, &change),
            None => HookAnswer::Proceed,
        };
        Foreseen {
            hook,
            records,
            place,
        }
    }

    /// Whose an event is: of a session the zone in which it waits for a ticket or which it edits, else the zone that the
    /// line names, else the global zone; of a turn the zone whose daemon it is; of a call the zone of the
    /// process; of a declaration and of a restart the whole system.
    pub fn subject(&self, alloc: Global, event: &Event) -> Result<Subject, StepFault>
        ensures ok { IfOk result (IsSubject self.now.parts event.now) }
        ensures err { IsOkUnless result StepFault.Memory }
    {
        Ok(subject(&self.parts.shared, alloc, read_event(event))?)
    }

    /// The grant that the pools give an event.
    pub fn allowed(&self, alloc: Global, event: &Event) -> Result<Grant, StepFault>
        requires asks { AsksBrands F.Fn self.now }
        ensures ok { IfOk result (IsAllowed self.now.parts event.now) }
        ensures err { IsOkUnless result StepFault.Memory }
    {
        self.parts.allowed(alloc, event, self.foresee(event).hook)
    }

    /// An event is answered under the grant that the pools give it. A crash at any moment meanwhile leaves the commits from
    /// before, or these and the event's. Where memory runs out, the machine is as it was; where the disk fails, no event may be
    /// taken any more. A restart reads the store again: on a disk that keeps to its model it finds the same commits, and on any
    /// other some. Where it isn't done, no event may be taken any more, for whatever reason.
    pub fn step(&mut self, alloc: Global, event: Event) -> Result<Entry, StepFault>
        requires asks { AsksBrands F.Fn self.old }
        requires ready { MayGoOn D.view self.old }
        ensures ok { IfOk result (λ entry. IsAllowedStepOf D.view self.old event entry self.new) }
        ensures again { OnOk result (BeginsAgainAfter event self.old self.new) }
        ensures goes { GoesUnder None self.old.parts event self.old.bank.records (D.view self.old.bank.disk) (D.view self.new.bank.disk) }
        ensures bodies { OnOk result (KeepsBodiesOf D.view None self.old event self.new) }
        ensures ready { OnOk result (MayGoOn D.view self.new) }
        ensures passes { Passes (D.view self.old.bank.disk) (D.view self.new.bank.disk) }
        ensures err { IfErr result (λ fault. (fault ≡ StepFault.Memory) ⊎ ((fault ≡ StepFault.DiskFault) ⊎ LosesStore event (D.view self.old.bank.disk) fault)) }
        ensures memory { IsErrOf result StepFault.Memory → AsItWas self.old.parts self.new.parts }
        ensures left { IfErr result (λ fault. BankLeftAny true event fault self.old.bank self.new.bank (D.view self.old.bank.disk) (D.view self.new.bank.disk) self.new.parts.shared) }
        ensures asks { AsksBrands F.Fn self.new }
    {
        if event.is_restart() {
            return self.step_restart(alloc, None);
        }
        let hook = self.foresee(&event).hook;
        self.parts.step(&mut self.bank, alloc, event, None, hook)
    }

    /// The same of an event that is only lent, under the grant that the pools give it, or under one that is stated, where it fits:
    /// of the entry no more is made than the event doesn't say itself. Where the event
    /// may not record and would, or is a restart, nothing is done: so whoever has replies that wait can write them before the disk
    /// is touched, and then have it done. Where a stated grant doesn't fit, the machine is as it was.
    pub fn answer(
        &mut self,
        alloc: Global,
        event: &Event,
        stated: Option<Grant>,
        may_record: bool,
    ) -> Result<Answer, StepFault>
        requires asks { AsksBrands F.Fn self.old }
        requires ready { MayGoOn D.view self.old }
        ensures ok { IfOk result (λ answer. IsStepUnderOf D.view stated self.old event.now (entry_by event.now answer) self.new) }
        ensures fits { OnOk result (FitsIn stated self.old.parts event.now) }
        ensures again { OnOk result (BeginsAgainAfter event.now self.old self.new) }
        ensures goes { GoesUnder stated self.old.parts event.now self.old.bank.records (D.view self.old.bank.disk) (D.view self.new.bank.disk) }
        ensures bodies { OnOk result (KeepsBodiesOf D.view stated self.old event.now self.new) }
        ensures ready { OnOk result (MayGoOn D.view self.new) }
        ensures passes { Passes (D.view self.old.bank.disk) (D.view self.new.bank.disk) }
        ensures err { stated ≡ None → IfErr result (λ fault. fault ≢ StepFault.BadGrant) }
        ensures fault { IfErr result (λ fault. LeavesAny fault stated self.old.parts event.now self.new.parts) }
        ensures left { IfErr result (λ fault. BankLeftAny may_record event.now fault self.old.bank self.new.bank (D.view self.old.bank.disk) (D.view self.new.bank.disk) self.new.parts.shared) }
        ensures asks { AsksBrands F.Fn self.new }
    {
        let foreseen = self.foresee(event);
        self.answer_foreseen(alloc, event, stated, foreseen, may_record)
    }

    /// The same of an event that was foreseen. Whoever has replies that wait can write them first where a record is foreseen, so
    /// that the event isn't decided twice.
    #[inline(always)]
    pub fn answer_foreseen(
        &mut self,
        alloc: Global,
        event: &Event,
        stated: Option<Grant>,
        foreseen: Foreseen,
        may_record: bool,
    ) -> Result<Answer, StepFault>
        requires asks { AsksBrands F.Fn self.old }
        requires ready { MayGoOn D.view self.old }
        requires foreseen { IsForeseen self.old.parts event.now foreseen }
        ensures ok { IfOk result (λ answer. IsStepUnderOf D.view stated self.old event.now (entry_by event.now answer) self.new) }
        ensures fits { OnOk result (FitsIn stated self.old.parts event.now) }
        ensures again { OnOk result (BeginsAgainAfter event.now self.old self.new) }
        ensures goes { GoesUnder stated self.old.parts event.now self.old.bank.records (D.view self.old.bank.disk) (D.view self.new.bank.disk) }
        ensures bodies { OnOk result (KeepsBodiesOf D.view stated self.old event.now self.new) }
        ensures ready { OnOk result (MayGoOn D.view self.new) }
        ensures passes { Passes (D.view self.old.bank.disk) (D.view self.new.bank.disk) }
        ensures err { stated ≡ None → IfErr result (λ fault. fault ≢ StepFault.BadGrant) }
        ensures fault { IfErr result (λ fault. LeavesAny fault stated self.old.parts event.now self.new.parts) }
        ensures left { IfErr result (λ fault. BankLeftAny may_record event.now fault self.old.bank self.new.bank (D.view self.old.bank.disk) (D.view self.new.bank.disk) self.new.parts.shared) }
        ensures asks { AsksBrands F.Fn self.new }
    {
        if event.is_restart() {
            return self.answer_restart(alloc, stated, may_record);
        }
        self.parts
            .answer(&mut self.bank, alloc, event, stated, foreseen, may_record)
    }

    /// An event is answered under a stated grant, where it fits, as when a recorded trace is run again. Where it doesn't fit or
    /// memory runs out, the machine is as it was; where the disk fails, no event may be taken any more.
    pub fn step_given(
        &mut self,
        alloc: Global,
        event: Event,
        grant: Grant,
    ) -> Result<Entry, StepFault>
        requires asks { AsksBrands F.Fn self.old }
        requires ready { MayGoOn D.view self.old }
        ensures ok { IfOk result (λ entry. IsFittingStepOf D.view self.old event grant entry self.new) }
        ensures again { OnOk result (BeginsAgainAfter event self.old self.new) }
        ensures goes { GoesUnder (Some grant) self.old.parts event self.old.bank.records (D.view self.old.bank.disk) (D.view self.new.bank.disk) }
        ensures bodies { OnOk result (KeepsBodiesOf D.view (Some grant) self.old event self.new) }
        ensures ready { OnOk result (MayGoOn D.view self.new) }
        ensures passes { Passes (D.view self.old.bank.disk) (D.view self.new.bank.disk) }
        ensures misfit { IsErrOf result StepFault.BadGrant → IsMisfit self.old.parts event grant self.new.parts }
        ensures unfit { IsRefusedIfUnfit self.old.parts event grant result }
        ensures memory { IsErrOf result StepFault.Memory → AsItWas self.old.parts self.new.parts }
        ensures left { IfErr result (λ fault. BankLeftAny true event fault self.old.bank self.new.bank (D.view self.old.bank.disk) (D.view self.new.bank.disk) self.new.parts.shared) }
        ensures asks { AsksBrands F.Fn self.new }
    {
        if event.is_restart() {
            return self.step_restart(alloc, Some(grant));
        }
        let hook = self.foresee(&event).hook;
        self.parts
            .step(&mut self.bank, alloc, event, Some(grant), hook)
    }

    /// The state of a zone, where it is stored.
    pub fn state(&self, zone: &ZoneName) -> Option<ZoneState>
        ensures { IsZoneState self.now.parts zone.now result }
    {
        self.parts.state(zone)
    }

    /// Whether an event has come that is no declaration.
    pub fn started(&self) -> bool
        ensures { IsStarted self.now.parts result }
    {
        self.parts.shared.started
    }
}
