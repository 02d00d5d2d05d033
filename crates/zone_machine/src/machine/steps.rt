//! One event of a zone, on its cell and on the shared part: it is read, its case is decided, its grant is found or
//! looked at, room is taken, and only then anything is changed.
ghost use Rattle.std.specs.Prelude.{◌≡◌, ◌⊎◌, IfErr, IfOk, IsErrOf, IsOkUnless, None, OnErr, OnOk, Option, Some, false, is_some, nat_eq, true, ℕ, List};
ghost use Rattle.zone_cases.specs.Code.Cases.{IsCaseOf, IsNumbered, decision_of, IsCaseIn, objects_of};
ghost use Rattle.zone_machine.specs.Code.Cells.{is_up_in, Does, outside_in};
ghost use Rattle.zone_cases.specs.Code.Cells.{IsHeardIn, cell_world};
ghost use Rattle.zone_machine.specs.Code.Needs.{pools_in};
ghost use Rattle.zone_machine.specs.Code.Reads.{IsRightRead, decide_read, is_turn, is_turn_read};
ghost use Rattle.zone_machine.specs.Code.Decided.{entry_of};
ghost use Rattle.zone_cases.specs.State.Decisions.{act_of, after_came_world};
ghost use Rattle.zone_machine.specs.Machine.{decide, session_number, turn};
ghost use Rattle.zone_cases.specs.Code.Lines.{IsRightLine, as_line};
ghost use Rattle.zone_cases.specs.Session.Typed.{typed};
ghost use Rattle.zone_disk.specs.Image.{Stands};
ghost use Rattle.commit_journal.specs.Store.{HasZones};
ghost use Rattle.commit_journal.specs.Zones.{rows_of};
ghost use Rattle.zn_io.specs.Streams.{Rose};
ghost use Rattle.zone_machine.specs.Code.Records.{BankLeft, GoesInCell, HasNumber, IsReady, KeepsBodiesInCell, MayStand, Passes, Writes, bodies_with, rows_with, stored_by};
ghost use Rattle.zone_machine.specs.Code.Rooms.{Alike, HasRoom, IsFreeOf};
ghost use Rattle.zone_cases.specs.State.{State};
ghost use Rattle.zone_machine.specs.Code.Cell_steps.{CellLeaves, IsAllowedCellStep, IsCellStep, IsCellStepUnder, IsFittingCellStep};
ghost use Rattle.zone_machine.specs.Code.Steps.{IsGrantFor, IsUnfit};
ghost use Rattle.zone_cases.specs.State.Worlds.{view_of};
ghost use Rattle.zone_cases.specs.declared.events.Subject.TheVariants.{Zone};
ghost use Rattle.zone_pools.specs.Decisions.{asked_of};
ghost use Rattle.zone_pools.specs.Owners.{owner};
ghost use Rattle.zoneadmd_steps.specs.Arrivals.{in_kernel, in_store};
ghost use Rattle.zoneadmd_steps.specs.Code.Cases.{IsFreeFor};
ghost use Rattle.zone_machine.specs.Machine.Common.{came_common};

use crate::faults::StepFault;
use crate::machine::comings::come;
use crate::machine::effects::perform;
use crate::machine::needs::need_of;
use crate::machine::pools::{fits, grant_for};
use crate::machine::reads::{Read, read_event};
use crate::machine::records::{number, stores, write};
use crate::machine::rooms::make_room;
use crate::machine::shared::Shared;
use brand_hooks::HookAnswer;
use std::alloc::{AllocError, Global};
use zn_base::ZoneName;
use zn_io::Disk;
use zone_cases::{
    Case, Cell, Entry, Event, Head, Line, Reply, Subject, decide_call, decide_line, doing_of,
};
use zone_disk::Bank;
use zone_pools::Grant;
use zoneadmd_steps::{Objects, System, decide_turn};

// What a session types in a zone comes to.
fn line_case(
    alloc: Global,
    zone: &ZoneName,
    cell: &Cell,
    shared: &Shared,
    number: u8,
    line: Line<'_>,
) -> Result<Case, AllocError>
    requires { IsRightLine line }
    ensures { IfOk result (IsCaseIn zone.now (outside_in zone.now shared.now) cell.now (λ v. typed v (v.world.sessions number) (as_line line.entry))) }
{
    let row = shared.rows.get(zone);
    let doing = doing_of(&cell.doings, number);
    decide_line(alloc, zone, cell, &shared.brands, row, doing, line)
}

// What a turn of a zone's daemon comes to. The brand answers `hook` where it is asked.
#[tactic(auto, unfolding(zone_cases::specs::State::Worlds::view_of))]
fn turn_case(
    alloc: Global,
    zone: &ZoneName,
    cell: &Cell,
    shared: &Shared,
    hook: HookAnswer,
) -> Result<Case, AllocError>
    requires { IsHeardIn shared.now.brands cell.now hook }
    ensures { IfOk result (IsCaseIn zone.now (outside_in zone.now shared.now) cell.now turn) }
{
    let objects = Objects {
        kernel: &cell.kernel,
        mounts: &cell.mounts,
        claims: &cell.claims,
    };
    let system = System {
        kernel: &shared.kernel,
        brands: &shared.brands,
    };
    let row = shared.rows.get(zone);
    let case = decide_turn(alloc, zone, &cell.desk, row, objects, system, hook)?;
    Ok(Case::Turn(case))
}

// The case of an event of a zone, by its cell and what zones share.
#[tactic(auto, unfolding(zone_cases::specs::State::Worlds::view_of))]
fn case_of(
    alloc: Global,
    zone: &ZoneName,
    cell: &Cell,
    shared: &Shared,
    read: Read<'_>,
    hook: HookAnswer,
) -> Result<Case, AllocError>
    requires right { IsRightRead read }
    requires hook { is_turn_read read ≡ true → IsHeardIn shared.now.brands cell.now hook }
    ensures { IfOk result (IsCaseIn zone.now (outside_in zone.now shared.now) cell.now (λ v. decide_read v read.entry)) }
{
    match read {
        Read::Line(number, line) => line_case(alloc, zone, cell, shared, number, line),
        Read::Turn(_) => turn_case(alloc, zone, cell, shared, hook),
        Read::Process(_, pid, call) => decide_call(alloc, zone, cell, pid, call),
        Read::System(_) | Read::Restart => Ok(Case::Says(Head::Ok)),
    }
}

fn session_number(event: &Event) -> Option<u8>
    ensures { result ≡ session_number event.now }
{
    match event {
        Event::Session { number, .. } => Some(*number),
        Event::Turn { .. } | Event::Process { .. } | Event::System(_) | Event::Restart => None,
    }
}

// Room is taken for all that a case does, and what it brings to the kernel comes, which takes memory too. Where memory runs
// out, nothing is changed.
#[inline(never)]
fn prepare(
    alloc: Global,
    cell: &mut Cell,
    shared: &mut Shared,
    zone: &ZoneName,
    case: &Case,
    grant: Grant,
) -> Result<(), AllocError>
    requires of { IsCaseOf cell.old.desk case.now }
    requires objects { IsFreeFor (objects_of case.now) cell.old.mounts.list cell.old.claims.claims }
    requires free { IsFreeOf zone.now (act_of (decision_of cell.old.desk case.now) grant).came (pools_in shared.old) }
    ensures does { OnOk result (Does zone.now (after_came_world (in_kernel (act_of (decision_of cell.old.desk case.now) grant).came)) (came_common zone.now (in_kernel (act_of (decision_of cell.old.desk case.now) grant).came)) cell.old shared.old cell.new shared.new) }
    ensures same { OnOk result (decision_of cell.new.desk case.now ≡ decision_of cell.old.desk case.now) }
    ensures of { OnOk result (IsCaseOf cell.new.desk case.now) }
    ensures room { OnOk result (HasRoom zone.now case.now cell.new shared.new) }
    ensures free { OnOk result (IsFreeOf zone.now (in_store (act_of (decision_of cell.old.desk case.now) grant).came) (pools_in shared.new)) }
    ensures sessions { OnOk result ((n : ℕ) → owner nat_eq shared.new.sessions n ≡ owner nat_eq shared.old.sessions n) }
    ensures up { OnOk result (is_up_in shared.new zone.now ≡ is_up_in shared.old zone.now) }
    ensures active { OnOk result (cell.new.desk.active ≡ cell.old.desk.active) }
    ensures rows { OnOk result (shared.new.rows.entries ≡ shared.old.rows.entries) }
    ensures used { OnOk result (shared.new.used ≡ shared.old.used) }
    ensures alike { OnOk result (in_kernel (act_of (decision_of cell.old.desk case.now) grant).came ≡ None → Alike cell.old shared.old cell.new shared.new) }
    ensures memory { OnErr result (Alike cell.old shared.old cell.new shared.new) }
    ensures brands { shared.new.brands ≡ shared.old.brands }
{
    make_room(alloc, cell, shared, zone, case)?;
    come(alloc, cell, shared, zone, case, grant)
}

// Nothing is done where a case would store and may not. Else room is taken for all that it does, and what it brings to the
// kernel comes; then what it stores is written to the disk. All memory is taken before the disk is written, so where memory runs
// out, nothing is changed and nothing is written.
#[inline(never)]
fn make_ready<D: Disk>(
    alloc: Global,
    cell: &mut Cell,
    shared: &mut Shared,
    bank: &mut Bank<D>,
    zone: &ZoneName,
    case: &Case,
    grant: Grant,
    may_record: bool,
) -> Result<(), StepFault>
    requires of { IsCaseOf cell.old.desk case.now }
    requires objects { IsFreeFor (objects_of case.now) cell.old.mounts.list cell.old.claims.claims }
    requires free { IsFreeOf zone.now (act_of (decision_of cell.old.desk case.now) grant).came (pools_in shared.old) }
    requires numbered { HasNumber case.now grant }
    requires place { MayStand zone.now (stored_by case.now grant) (rows_of shared.old.rows.entries) }
    requires ready { IsReady (D.view bank.old.disk) bank.old shared.old }
    ensures does { OnOk result (Does zone.now (after_came_world (in_kernel (act_of (decision_of cell.old.desk case.now) grant).came)) (came_common zone.now (in_kernel (act_of (decision_of cell.old.desk case.now) grant).came)) cell.old shared.old cell.new shared.new) }
    ensures same { OnOk result (decision_of cell.new.desk case.now ≡ decision_of cell.old.desk case.now) }
    ensures of { OnOk result (IsCaseOf cell.new.desk case.now) }
    ensures room { OnOk result (HasRoom zone.now case.now cell.new shared.new) }
    ensures free { OnOk result (IsFreeOf zone.now (in_store (act_of (decision_of cell.old.desk case.now) grant).came) (pools_in shared.new)) }
    ensures sessions { OnOk result ((n : ℕ) → owner nat_eq shared.new.sessions n ≡ owner nat_eq shared.old.sessions n) }
    ensures up { OnOk result (is_up_in shared.new zone.now ≡ is_up_in shared.old zone.now) }
    ensures active { OnOk result (cell.new.desk.active ≡ cell.old.desk.active) }
    ensures rows { OnOk result (shared.new.rows.entries ≡ shared.old.rows.entries) }
    ensures used { OnOk result (shared.new.used ≡ shared.old.used) }
    ensures records { OnOk result (bank.new.records ≡ bodies_with zone.now (stored_by case.now grant) bank.old.records) }
    ensures sound { OnOk result (bank.new.sound ≡ true) }
    ensures zones { OnOk result (HasZones bank.new.records (rows_with zone.now (stored_by case.now grant) (rows_of shared.old.rows.entries))) }
    ensures settled { OnOk result ((D.view bank.new.disk).Keeps → (image : List ℕ) → (D.view bank.new.disk).Now image → Stands image bank.new.records) }
    ensures writes { Writes zone.now (stored_by case.now grant) bank.old.records (rows_of shared.old.rows.entries) (D.view bank.old.disk) (D.view bank.new.disk) }
    ensures fault { IfErr result (λ fault. (e : Event) → CellLeaves fault zone.now None cell.old shared.old e cell.new shared.new) }
    ensures would { IfErr result (λ fault. fault ≡ StepFault.WouldRecord → is_some (stored_by case.now grant) ≡ true) }
    ensures left { IfErr result (λ fault. BankLeft may_record fault bank.old bank.new (D.view bank.old.disk) (D.view bank.new.disk) shared.new) }
    ensures brands { shared.new.brands ≡ shared.old.brands }
{
    if !may_record && stores(case, grant) {
        return Err(StepFault::WouldRecord);
    }
    prepare(alloc, cell, shared, zone, case, grant)?;
    write(alloc, bank, shared, zone, case, grant)
}

/// A case that was decided for an event is done under a grant that gives only what is free: the reply. What is stored is on the
/// disk before anything else is changed that would not come with memory. Nothing is done where it would store and may not.
pub(crate) fn perform_case<D: Disk>(
    alloc: Global,
    cell: &mut Cell,
    shared: &mut Shared,
    bank: &mut Bank<D>,
    event: &Event,
    zone: &ZoneName,
    case: Case,
    grant: Grant,
    may_record: bool,
) -> Result<Reply, StepFault>
    requires case { IsCaseIn zone.now (outside_in zone.now shared.old) cell.old (λ v. decide v event.now) case }
    requires free { IsFreeOf zone.now (act_of (decision_of cell.old.desk case) grant).came (pools_in shared.old) }
    requires numbered { HasNumber case grant }
    requires place { MayStand zone.now (stored_by case grant) (rows_of shared.old.rows.entries) }
    requires ready { IsReady (D.view bank.old.disk) bank.old shared.old }
    ensures step { IfOk result (λ reply. IsCellStep zone.now cell.old shared.old event.now grant (entry_of (Zone zone.now) event.now grant reply) cell.new shared.new) }
    ensures ready { OnOk result (IsReady (D.view bank.new.disk) bank.new shared.new) }
    ensures records { OnOk result (bank.new.records ≡ bodies_with zone.now (stored_by case grant) bank.old.records) }
    ensures writes { Writes zone.now (stored_by case grant) bank.old.records (rows_of shared.old.rows.entries) (D.view bank.old.disk) (D.view bank.new.disk) }
    ensures fault { IfErr result (λ fault. CellLeaves fault zone.now None cell.old shared.old event.now cell.new shared.new) }
    ensures would { IfErr result (λ fault. fault ≡ StepFault.WouldRecord → is_some (stored_by case grant) ≡ true) }
    ensures left { IfErr result (λ fault. BankLeft may_record fault bank.old bank.new (D.view bank.old.disk) (D.view bank.new.disk) shared.new) }
    ensures brands { shared.new.brands ≡ shared.old.brands }
{
    match make_ready(alloc, cell, shared, bank, zone, &case, grant, may_record) {
        Ok(()) => {}
        Err(fault) => {
            case.let_go();
            return Err(fault);
        }
    }
    let number = session_number(event);
    let reply = perform(alloc, cell, shared, zone, number, case, grant);
    shared.started = true;
    Ok(reply)
}

// The grant that the pools give a case, or the one that is stated, where it fits.
fn grant_of(
    zone: &ZoneName,
    cell: &Cell,
    shared: &Shared,
    case: &Case,
    stated: Option<Grant>,
) -> Result<Grant, StepFault>
    requires { IsCaseOf cell.now.desk case.now }
    ensures takes { IfOk result (IsGrantFor zone.now (pools_in shared.now) (asked_of (decision_of cell.now.desk case.now)) stated) }
    ensures misfit { OnErr result ((result ≡ Err StepFault.BadGrant) × IsUnfit zone.now (pools_in shared.now) (asked_of (decision_of cell.now.desk case.now)) stated) }
{
    let need = need_of(case);
    match stated {
        None => Ok(grant_for(shared, zone, &need)),
        Some(grant) => {
            if fits(shared, zone, &need, grant) {
                Ok(grant)
            } else {
                Err(StepFault::BadGrant)
            }
        }
    }
}

/// The case of an event of a zone, and the grant that the pools give it, or the one that is stated, where it fits.
pub(crate) fn granted_case(
    alloc: Global,
    zone: &ZoneName,
    cell: &Cell,
    shared: &Shared,
    read: Read<'_>,
    stated: Option<Grant>,
    hook: HookAnswer,
) -> Result<(Case, Grant), StepFault>
    requires right { IsRightRead read }
    requires hook { is_turn_read read ≡ true → IsHeardIn shared.now.brands cell.now hook }
    ensures case { IfOk result (λ r. IsCaseIn zone.now (outside_in zone.now shared.now) cell.now (λ v. decide_read v read.entry) r.0) }
    ensures takes { IfOk result (λ r. IsGrantFor zone.now (pools_in shared.now) (asked_of (decision_of cell.now.desk r.0)) stated r.1) }
    ensures numbered { IfOk result (λ r. HasNumber r.0 r.1) }
    ensures misfit { IsErrOf result StepFault.BadGrant → IsUnfit zone.now (pools_in shared.now) (asked_of (decide_read (view_of zone.now (cell_world (outside_in zone.now shared.now) cell.now)) read.entry)) stated }
    ensures fault { OnErr result (IsErrOf result StepFault.BadGrant ⊎ IsErrOf result StepFault.Memory) }
{
    let mut case = case_of(alloc, zone, cell, shared, read, hook)?;
    match grant_of(zone, cell, shared, &case, stated) {
        Ok(grant) => {
            number(&mut case, grant);
            Ok((case, grant))
        }
        Err(fault) => {
            case.let_go();
            Err(fault)
        }
    }
}

/// The grant that the pools give an event of a zone.
pub(crate) fn cell_grant(
    alloc: Global,
    zone: &ZoneName,
    cell: &Cell,
    shared: &Shared,
    read: Read<'_>,
    hook: HookAnswer,
) -> Result<Grant, StepFault>
    requires right { IsRightRead read }
    requires hook { is_turn_read read ≡ true → IsHeardIn shared.now.brands cell.now hook }
    ensures ok { IfOk result (IsGrantFor zone.now (pools_in shared.now) (asked_of (decide_read (view_of zone.now (cell_world (outside_in zone.now shared.now) cell.now)) read.entry)) None) }
    ensures err { IsOkUnless result StepFault.Memory }
{
    let (case, grant) = granted_case(alloc, zone, cell, shared, read, None, hook)?;
    case.let_go();
    Ok(grant)
}

// An event of a zone is answered: its grant, and the reply.
fn answer<D: Disk>(
    alloc: Global,
    zone: &ZoneName,
    cell: &mut Cell,
    shared: &mut Shared,
    bank: &mut Bank<D>,
    event: &Event,
    stated: Option<Grant>,
    hook: HookAnswer,
) -> Result<(Grant, Reply), StepFault>
    requires hook { is_turn event.now ≡ true → IsHeardIn shared.old.brands cell.old hook }
    requires ready { IsReady (D.view bank.old.disk) bank.old shared.old }
    ensures ok { IfOk result (λ r. IsCellStepUnder zone.now stated cell.old shared.old event.now (entry_of (Zone zone.now) event.now r.0 r.1) cell.new shared.new) }
    ensures fault { IfErr result (λ fault. CellLeaves fault zone.now stated cell.old shared.old event.now cell.new shared.new) }
    ensures ready { OnOk result (IsReady (D.view bank.new.disk) bank.new shared.new) }
    ensures goes { GoesInCell zone.now stated cell.old shared.old event.now bank.old.records (D.view bank.old.disk) (D.view bank.new.disk) }
    ensures bodies { OnOk result (KeepsBodiesInCell zone.now stated cell.old shared.old event.now bank.old.records bank.new.records) }
    ensures passes { Passes (D.view bank.old.disk) (D.view bank.new.disk) }
    ensures brands { shared.new.brands ≡ shared.old.brands }
    ensures left { IfErr result (λ fault. BankLeft true fault bank.old bank.new (D.view bank.old.disk) (D.view bank.new.disk) shared.new) }
{
    let read = read_event(event);
    let (case, grant) = granted_case(alloc, zone, cell, shared, read, stated, hook)?;
    let reply = perform_case(alloc, cell, shared, bank, event, zone, case, grant, true)?;
    Ok((grant, reply))
}

// The same, as an entry.
fn cell_event<D: Disk>(
    alloc: Global,
    zone: &ZoneName,
    cell: &mut Cell,
    shared: &mut Shared,
    bank: &mut Bank<D>,
    event: Event,
    stated: Option<Grant>,
    hook: HookAnswer,
) -> Result<Entry, StepFault>
    requires hook { is_turn event ≡ true → IsHeardIn shared.old.brands cell.old hook }
    requires ready { IsReady (D.view bank.old.disk) bank.old shared.old }
    ensures event { IfOk result (λ entry. entry.event ≡ event) }
    ensures of { IfOk result (λ entry. entry.subject ≡ Zone zone.now) }
    ensures ok { IfOk result (λ entry. IsCellStepUnder zone.now stated cell.old shared.old event entry cell.new shared.new) }
    ensures fault { IfErr result (λ fault. CellLeaves fault zone.now stated cell.old shared.old event cell.new shared.new) }
    ensures ready { OnOk result (IsReady (D.view bank.new.disk) bank.new shared.new) }
    ensures goes { GoesInCell zone.now stated cell.old shared.old event bank.old.records (D.view bank.old.disk) (D.view bank.new.disk) }
    ensures bodies { OnOk result (KeepsBodiesInCell zone.now stated cell.old shared.old event bank.old.records bank.new.records) }
    ensures passes { Passes (D.view bank.old.disk) (D.view bank.new.disk) }
    ensures brands { shared.new.brands ≡ shared.old.brands }
    ensures left { IfErr result (λ fault. BankLeft true fault bank.old bank.new (D.view bank.old.disk) (D.view bank.new.disk) shared.new) }
{
    let subject = Subject::Zone(zone.copy(alloc)?);
    let (grant, reply) = answer(alloc, zone, cell, shared, bank, &event, stated, hook)?;
    Ok(Entry {
        event,
        subject,
        grant,
        reply,
    })
}

/// An event of a zone is answered on its cell and the shared part, under the grant that the pools give it; of a turn the
/// brand answered `hook`. Where memory runs out, both are as they were.
pub fn cell_step<D: Disk>(
    alloc: Global,
    zone: &ZoneName,
    cell: &mut Cell,
    shared: &mut Shared,
    bank: &mut Bank<D>,
    event: Event,
    hook: HookAnswer,
) -> Result<Entry, StepFault>
    requires hook { is_turn event ≡ true → IsHeardIn shared.old.brands cell.old hook }
    requires ready { IsReady (D.view bank.old.disk) bank.old shared.old }
    ensures event { IfOk result (λ entry. entry.event ≡ event) }
    ensures of { IfOk result (λ entry. entry.subject ≡ Zone zone.now) }
    ensures ok { IfOk result (λ entry. IsAllowedCellStep zone.now cell.old shared.old event entry cell.new shared.new) }
    ensures fault { IfErr result (λ fault. CellLeaves fault zone.now None cell.old shared.old event cell.new shared.new) }
    ensures ready { OnOk result (IsReady (D.view bank.new.disk) bank.new shared.new) }
    ensures goes { GoesInCell zone.now None cell.old shared.old event bank.old.records (D.view bank.old.disk) (D.view bank.new.disk) }
    ensures bodies { OnOk result (KeepsBodiesInCell zone.now None cell.old shared.old event bank.old.records bank.new.records) }
    ensures passes { Passes (D.view bank.old.disk) (D.view bank.new.disk) }
    ensures brands { shared.new.brands ≡ shared.old.brands }
    ensures left { IfErr result (λ fault. BankLeft true fault bank.old bank.new (D.view bank.old.disk) (D.view bank.new.disk) shared.new) }
{
    cell_event(alloc, zone, cell, shared, bank, event, None, hook)
}

/// An event of a zone is answered on its cell and the shared part, under a stated grant, where it fits; of a turn the
/// brand answered `hook`. Where memory runs out, both are as they were.
pub fn cell_step_given<D: Disk>(
    alloc: Global,
    zone: &ZoneName,
    cell: &mut Cell,
    shared: &mut Shared,
    bank: &mut Bank<D>,
    event: Event,
    grant: Grant,
    hook: HookAnswer,
) -> Result<Entry, StepFault>
    requires hook { is_turn event ≡ true → IsHeardIn shared.old.brands cell.old hook }
    requires ready { IsReady (D.view bank.old.disk) bank.old shared.old }
    ensures event { IfOk result (λ entry. entry.event ≡ event) }
    ensures of { IfOk result (λ entry. entry.subject ≡ Zone zone.now) }
    ensures ok { IfOk result (λ entry. IsFittingCellStep zone.now cell.old shared.old event grant entry cell.new shared.new) }
    ensures fault { IfErr result (λ fault. CellLeaves fault zone.now (Some grant) cell.old shared.old event cell.new shared.new) }
    ensures ready { OnOk result (IsReady (D.view bank.new.disk) bank.new shared.new) }
    ensures goes { GoesInCell zone.now (Some grant) cell.old shared.old event bank.old.records (D.view bank.old.disk) (D.view bank.new.disk) }
    ensures bodies { OnOk result (KeepsBodiesInCell zone.now (Some grant) cell.old shared.old event bank.old.records bank.new.records) }
    ensures passes { Passes (D.view bank.old.disk) (D.view bank.new.disk) }
    ensures brands { shared.new.brands ≡ shared.old.brands }
    ensures left { IfErr result (λ fault. BankLeft true fault bank.old bank.new (D.view bank.old.disk) (D.view bank.new.disk) shared.new) }
{
    cell_event(alloc, zone, cell, shared, bank, event, Some(grant), hook)
}
