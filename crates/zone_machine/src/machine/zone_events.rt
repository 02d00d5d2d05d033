//! Events of a zone, on its cell and on the shared part. An event is decided before anything is changed.
ghost use Rattle.std.specs.Prelude.{◌≡◌, ◌<◌, IfErr, IfOk, None, OnOk, Some, bytes_eq};
ghost use Rattle.indexmap.specs.IndexMap.{get_by, spare};
ghost use Rattle.zone_cases.specs.Code.Cases.{decision_of, IsCaseIn};
ghost use Rattle.zone_machine.specs.Code.Cells.{Keeps, cell_at, outside_in};
ghost use Rattle.zone_cases.specs.Code.Cells.{Outside, cell_world, empty_world};
ghost use Rattle.zone_machine.specs.Code.Needs.{pools_in};
ghost use Rattle.zone_machine.specs.Code.Reads.{IsRightRead, decide_read, is_turn, is_turn_read, subject_in};
ghost use Rattle.zone_machine.specs.Code.Decided.{IsCellAt, IsHeard, entry_of};
ghost use Rattle.commit_journal.specs.Zones.{rows_of};
ghost use Rattle.zone_machine.specs.Code.Records.{BankLeft, GoesUnder, HasNumber, IsReady, KeepsBodies, MayStand, Passes, stored_by};
ghost use Rattle.zone_machine.specs.Code.Rooms.{IsFreeOf};
ghost use Rattle.zone_machine.specs.Code.Steps.{IsStep, IsStepUnder, Leaves, LeavesGranted};
ghost use Rattle.zone_machine.specs.Machine.{decide};
ghost use Rattle.zone_cases.specs.State.Decisions.{act_of};
ghost use Rattle.zone_cases.specs.State.Worlds.{View};
ghost use Rattle.zone_cases.specs.declared.events.Subject.TheVariants.{Zone};
ghost use Rattle.zone_cases.specs.declared.cell.Cell as cell_types;

use crate::faults::StepFault;
use crate::machine::local_turns::{do_local, next_local};
use crate::machine::parts::Parts;
use crate::machine::reads::Read;
use crate::machine::steps::{granted_case, perform_case};
use brand_hooks::HookAnswer;
use indexmap::IndexMap;
use std::alloc::{AllocError, Global};
use zn_base::ZoneName;
use zn_io::Disk;
use zone_cases::{Case, Cell, Event, Reply, put};
use zone_disk::Bank;
use zone_pools::Grant;

// A zone's new cell is kept, where it has something.
fn keep(cells: &mut IndexMap<ZoneName, Cell>, zone: ZoneName, cell: Cell)
    requires none { get_by (bytes_eq zone) cells.old ≡ None }
    requires room { 0 < spare cells.old }
    ensures { Keeps zone cell (λ y. get_by (bytes_eq y) cells.old) (λ y. get_by (bytes_eq y) cells.new) }
{
    if !cell.is_empty() {
        put(cells, zone, cell);
    }
}

// Room for a zone's new cell, and the name under which it will stand.
fn room_for_cell(
    cells: &mut IndexMap<ZoneName, Cell>,
    alloc: Global,
    zone: &ZoneName,
) -> Result<ZoneName, AllocError>
    ensures key { IfOk result (λ key. key ≡ zone.now) }
    ensures room { OnOk result (0 < spare cells.new) }
    ensures same { cells.new.entries ≡ cells.old.entries }
{
    let key = zone.copy(alloc)?;
    cells.reserve(1)?;
    Ok(key)
}

impl Parts {
    // A case of a zone is done, whose cell stands at an index.
    fn do_at<D: Disk>(
        &mut self,
        bank: &mut Bank<D>,
        alloc: Global,
        event: &Event,
        zone: &ZoneName,
        at: usize,
        case: Case,
        grant: Grant,
        may_record: bool,
    ) -> Result<Reply, StepFault>
        requires of { subject_in self.old.shared event.now ≡ Zone zone.now }
        requires at { IsCellAt self.old at zone.now }
        requires case { (c : cell_types.Cell) → cell_at zone.now self.old ≡ Some c → IsCaseIn zone.now (outside_in zone.now self.old.shared) c (λ v. decide v event.now) case }
        requires free { (c : cell_types.Cell) → cell_at zone.now self.old ≡ Some c → IsFreeOf zone.now (act_of (decision_of c.desk case) grant).came (pools_in self.old.shared) }
        requires numbered { HasNumber case grant }
        requires place { MayStand zone.now (stored_by case grant) (rows_of self.old.shared.rows.entries) }
        requires ready { IsReady (D.view bank.old.disk) bank.old self.old.shared }
        ensures step { IfOk result (λ reply. IsStep self.old event.now grant (entry_of (Zone zone.now) event.now grant reply) self.new) }
        ensures fault { IfErr result (λ fault. LeavesGranted fault grant self.old event.now self.new) }
        ensures ready { OnOk result (IsReady (D.view bank.new.disk) bank.new self.new.shared) }
        ensures goes { GoesUnder (Some grant) self.old event.now bank.old.records (D.view bank.old.disk) (D.view bank.new.disk) }
        ensures bodies { OnOk result (KeepsBodies (Some grant) self.old event.now bank.old.records bank.new.records) }
        ensures passes { Passes (D.view bank.old.disk) (D.view bank.new.disk) }
        ensures left { IfErr result (λ fault. BankLeft may_record fault bank.old bank.new (D.view bank.old.disk) (D.view bank.new.disk) self.new.shared) }
        ensures brands { self.new.shared.brands ≡ self.old.shared.brands }
    {
        perform_case(
            alloc,
            &mut self.cells[at],
            &mut self.shared,
            bank,
            event,
            zone,
            case,
            grant,
            may_record,
        )
    }

    // An event of a zone is answered, whose cell stands at an index.
    fn answer_at<D: Disk>(
        &mut self,
        bank: &mut Bank<D>,
        alloc: Global,
        event: &Event,
        read: Read<'_>,
        zone: &ZoneName,
        at: usize,
        stated: Option<Grant>,
        hook: HookAnswer,
        may_record: bool,
    ) -> Result<(Grant, Reply), StepFault>
        requires of { subject_in self.old.shared event.now ≡ Zone zone.now }
        requires decides { (v : View) → decide_read v read ≡ decide v event.now }
        requires turn { is_turn_read read ≡ is_turn event.now }
        requires right { IsRightRead read }
        requires hook { IsHeard self.old event.now hook }
        requires at { IsCellAt self.old at zone.now }
        requires ready { IsReady (D.view bank.old.disk) bank.old self.old.shared }
        ensures ok { IfOk result (λ r. IsStepUnder stated self.old event.now (entry_of (Zone zone.now) event.now r.0 r.1) self.new) }
        ensures fault { IfErr result (λ fault. Leaves fault stated self.old event.now self.new) }
        ensures ready { OnOk result (IsReady (D.view bank.new.disk) bank.new self.new.shared) }
        ensures goes { GoesUnder stated self.old event.now bank.old.records (D.view bank.old.disk) (D.view bank.new.disk) }
        ensures bodies { OnOk result (KeepsBodies stated self.old event.now bank.old.records bank.new.records) }
        ensures passes { Passes (D.view bank.old.disk) (D.view bank.new.disk) }
        ensures left { IfErr result (λ fault. BankLeft may_record fault bank.old bank.new (D.view bank.old.disk) (D.view bank.new.disk) self.new.shared) }
        ensures brands { self.new.shared.brands ≡ self.old.shared.brands }
    {
        let cell = &self.cells[at];
        let (case, grant) = granted_case(alloc, zone, cell, &self.shared, read, stated, hook)?;
        let reply = self.do_at(bank, alloc, event, zone, at, case, grant, may_record)?;
        Ok((grant, reply))
    }

    // A turn of a zone is answered whose cell stands at an index: where it is local and no grant is stated, on the cell alone.
    #[tactic(auto, unfolding(crate::specs::Machine::decide))]
    #[inline(always)]
    pub(crate) fn turn_at<D: Disk>(
        &mut self,
        bank: &mut Bank<D>,
        alloc: Global,
        event: &Event,
        zone: &ZoneName,
        at: usize,
        stated: Option<Grant>,
        hook: HookAnswer,
        may_record: bool,
    ) -> Result<(Grant, Reply), StepFault>
        requires turn { event.now ≡ Event.Turn zone.now }
        requires hook { IsHeard self.old event.now hook }
        requires at { IsCellAt self.old at zone.now }
        requires ready { IsReady (D.view bank.old.disk) bank.old self.old.shared }
        ensures ok { IfOk result (λ r. IsStepUnder stated self.old event.now (entry_of (Zone zone.now) event.now r.0 r.1) self.new) }
        ensures fault { IfErr result (λ fault. Leaves fault stated self.old event.now self.new) }
        ensures ready { OnOk result (IsReady (D.view bank.new.disk) bank.new self.new.shared) }
        ensures goes { GoesUnder stated self.old event.now bank.old.records (D.view bank.old.disk) (D.view bank.new.disk) }
        ensures bodies { OnOk result (KeepsBodies stated self.old event.now bank.old.records bank.new.records) }
        ensures passes { Passes (D.view bank.old.disk) (D.view bank.new.disk) }
        ensures left { IfErr result (λ fault. BankLeft may_record fault bank.old bank.new (D.view bank.old.disk) (D.view bank.new.disk) self.new.shared) }
        ensures brands { self.new.shared.brands ≡ self.old.shared.brands }
    {
        if stated.is_none() {
            if let Some(case) = next_local(alloc, &self.cells[at], hook)? {
                let reply = do_local(alloc, &mut self.cells[at], case)?;
                self.shared.started = true;
                return Ok((Grant::Nothing, reply));
            }
        }
        let read = Read::Turn(zone);
        self.answer_at(bank, alloc, event, read, zone, at, stated, hook, may_record)
    }

    // A case of a zone is done that has no cell.
    fn do_new<D: Disk>(
        &mut self,
        bank: &mut Bank<D>,
        alloc: Global,
        event: &Event,
        zone: &ZoneName,
        cell: Box<Cell>,
        case: Case,
        grant: Grant,
        may_record: bool,
    ) -> Result<Reply, StepFault>
        requires of { subject_in self.old.shared event.now ≡ Zone zone.now }
        requires none { cell_at zone.now self.old ≡ None }
        requires nothing { (out : Outside) → cell_world out cell.value ≡ empty_world out }
        requires case { IsCaseIn zone.now (outside_in zone.now self.old.shared) cell.value (λ v. decide v event.now) case }
        requires free { IsFreeOf zone.now (act_of (decision_of cell.value.desk case) grant).came (pools_in self.old.shared) }
        requires numbered { HasNumber case grant }
        requires place { MayStand zone.now (stored_by case grant) (rows_of self.old.shared.rows.entries) }
        requires ready { IsReady (D.view bank.old.disk) bank.old self.old.shared }
        ensures step { IfOk result (λ reply. IsStep self.old event.now grant (entry_of (Zone zone.now) event.now grant reply) self.new) }
        ensures fault { IfErr result (λ fault. LeavesGranted fault grant self.old event.now self.new) }
        ensures ready { OnOk result (IsReady (D.view bank.new.disk) bank.new self.new.shared) }
        ensures goes { GoesUnder (Some grant) self.old event.now bank.old.records (D.view bank.old.disk) (D.view bank.new.disk) }
        ensures bodies { OnOk result (KeepsBodies (Some grant) self.old event.now bank.old.records bank.new.records) }
        ensures passes { Passes (D.view bank.old.disk) (D.view bank.new.disk) }
        ensures left { IfErr result (λ fault. BankLeft may_record fault bank.old bank.new (D.view bank.old.disk) (D.view bank.new.disk) self.new.shared) }
        ensures brands { self.new.shared.brands ≡ self.old.shared.brands }
    {
        let key = match room_for_cell(&mut self.cells, alloc, zone) {
            Ok(key) => key,
            Err(_) => {
                case.let_go();
                return Err(StepFault::Memory);
            }
        };
        let mut cell = Box::into_inner(cell);
        let reply = perform_case(
            alloc,
            &mut cell,
            &mut self.shared,
            bank,
            event,
            zone,
            case,
            grant,
            may_record,
        )?;
        keep(&mut self.cells, key, cell);
        Ok(reply)
    }

    // An event of a zone is answered that has no cell.
    #[inline(never)]
    pub(crate) fn answer_new<D: Disk>(
        &mut self,
        bank: &mut Bank<D>,
        alloc: Global,
        event: &Event,
        read: Read<'_>,
        zone: &ZoneName,
        stated: Option<Grant>,
        may_record: bool,
    ) -> Result<(Grant, Reply), StepFault>
        requires of { subject_in self.old.shared event.now ≡ Zone zone.now }
        requires decides { (v : View) → decide_read v read ≡ decide v event.now }
        requires right { IsRightRead read }
        requires none { cell_at zone.now self.old ≡ None }
        requires ready { IsReady (D.view bank.old.disk) bank.old self.old.shared }
        ensures ok { IfOk result (λ r. IsStepUnder stated self.old event.now (entry_of (Zone zone.now) event.now r.0 r.1) self.new) }
        ensures fault { IfErr result (λ fault. Leaves fault stated self.old event.now self.new) }
        ensures ready { OnOk result (IsReady (D.view bank.new.disk) bank.new self.new.shared) }
        ensures goes { GoesUnder stated self.old event.now bank.old.records (D.view bank.old.disk) (D.view bank.new.disk) }
        ensures bodies { OnOk result (KeepsBodies stated self.old event.now bank.old.records bank.new.records) }
        ensures passes { Passes (D.view bank.old.disk) (D.view bank.new.disk) }
        ensures left { IfErr result (λ fault. BankLeft may_record fault bank.old bank.new (D.view bank.old.disk) (D.view bank.new.disk) self.new.shared) }
        ensures brands { self.new.shared.brands ≡ self.old.shared.brands }
    {
        let cell = Box::new(alloc, Cell::new(alloc))?;
        let hook = HookAnswer::Proceed;
        let (case, grant) = granted_case(alloc, zone, &cell, &self.shared, read, stated, hook)?;
        let reply = self.do_new(bank, alloc, event, zone, cell, case, grant, may_record)?;
        Ok((grant, reply))
    }

    /// An event of a zone is answered.
    pub(crate) fn answer_zone<D: Disk>(
        &mut self,
        bank: &mut Bank<D>,
        alloc: Global,
        event: &Event,
        read: Read<'_>,
        zone: &ZoneName,
        stated: Option<Grant>,
        hook: HookAnswer,
        may_record: bool,
    ) -> Result<(Grant, Reply), StepFault>
        requires of { subject_in self.old.shared event.now ≡ Zone zone.now }
        requires decides { (v : View) → decide_read v read ≡ decide v event.now }
        requires turn { is_turn_read read ≡ is_turn event.now }
        requires right { IsRightRead read }
        requires hook { IsHeard self.old event.now hook }
        requires ready { IsReady (D.view bank.old.disk) bank.old self.old.shared }
        ensures ok { IfOk result (λ r. IsStepUnder stated self.old event.now (entry_of (Zone zone.now) event.now r.0 r.1) self.new) }
        ensures fault { IfErr result (λ fault. Leaves fault stated self.old event.now self.new) }
        ensures ready { OnOk result (IsReady (D.view bank.new.disk) bank.new self.new.shared) }
        ensures goes { GoesUnder stated self.old event.now bank.old.records (D.view bank.old.disk) (D.view bank.new.disk) }
        ensures bodies { OnOk result (KeepsBodies stated self.old event.now bank.old.records bank.new.records) }
        ensures passes { Passes (D.view bank.old.disk) (D.view bank.new.disk) }
        ensures left { IfErr result (λ fault. BankLeft may_record fault bank.old bank.new (D.view bank.old.disk) (D.view bank.new.disk) self.new.shared) }
        ensures brands { self.new.shared.brands ≡ self.old.shared.brands }
    {
        match self.cells.get_index_of(zone) {
            Some(at) => self.answer_at(
                bank, alloc, event, read, zone, at, stated, hook, may_record,
            ),
            None => self.answer_new(bank, alloc, event, read, zone, stated, may_record),
        }
    }
}
