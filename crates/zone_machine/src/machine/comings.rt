//! What comes to the kernel with a grant: a process, the zone's id, or an item that it claims. It takes its memory as it comes, so it is the first
//! thing that an event does.
ghost use Rattle.std.specs.Prelude.{◌≡◌, ℕ, Ok, OnErr, OnOk, Some, false, true};
ghost use Rattle.kernel_objects.specs.Kernel.{new_id};
ghost use Rattle.kernel_objects.specs.Processes.{process_of};
ghost use Rattle.zone_pools.specs.Decisions.{number_in};
ghost use Rattle.zone_pools.specs.declared.grant.Grant as grant_types;
ghost use Rattle.zoneadmd_steps.specs.Arrivals.{New_claim, New_id, New_process, arrived, in_kernel};
ghost use Rattle.datalink_table.specs.Shared.{allows};
ghost use Rattle.zone_cases.specs.Code.Cases.{IsCaseOf, decision_of, objects_of};
ghost use Rattle.zoneadmd_steps.specs.Code.Cases.{IsFreeFor, IsTurnOf, No_premise, comes_of, job_objects, job_turn, premise_of, turn_decision_of, turn_objects};
ghost use Rattle.zone_machine.specs.Code.Cells.{Does};
ghost use Rattle.zone_machine.specs.Code.Comings.{is_claim, newcome};
ghost use Rattle.zone_machine.specs.Code.Needs.{pools_in};
ghost use Rattle.zone_machine.specs.Code.Rooms.{Alike, IsFreeOf};
ghost use Rattle.zoneadmd_steps.specs.Desks as desks;
ghost use Rattle.zone_machine.specs.Machine.Common.{came_common};
ghost use Rattle.zone_cases.specs.State.Decisions.{act_of, after_came_world, effects, turned};
ghost use Rattle.zone_cases.specs.State.Edits.{comes_world};
ghost use Rattle.zoneadmd_steps.specs.declared.desks.Desk as desk_types;
ghost use Rattle.zoneadmd_steps.specs.declared.desks.Job as job_types;

use crate::machine::shared::Shared;
use datalink_table::Claim;
use kernel_objects::Running;
use std::alloc::{AllocError, Global};
use zn_base::ZoneName;
use zone_cases::{Case, Cell};
use zone_pools::{Grant, Pool, number_in};
use zoneadmd_steps::{Came, JobCase, TurnCase};

/// What comes to the kernel, but for its number.
#[derive(Clone, Copy)]
pub(crate) enum Newcomer<'c> {
    Nothing,
    Process(&'c Running),
    Id,
    Claim(&'c Claim),
}

fn came_newcomer(it: &Came) -> Newcomer<'_>
    ensures { (n : ℕ) → in_kernel (Some (arrived (comes_of it.now) n)) ≡ newcome result (Ok n) }
{
    match it {
        Came::Process(running, _) => Newcomer::Process(running),
        Came::Id => Newcomer::Id,
        Came::Claim(claim) => Newcomer::Claim(claim),
        Came::Record(_, _) | Came::Moved(_, _, _) | Came::Source(_) => Newcomer::Nothing,
    }
}

fn job_newcomer(case: &JobCase) -> Newcomer<'_>
    ensures comes { (d : desks.Desk) (j : job_types.Job) (g : grant_types.Grant) → in_kernel (act_of (effects turned (job_turn d j case.now)) g).came ≡ newcome result (number_in g) }
    ensures claim { is_claim result ≡ true → premise_of (job_objects case.now) ≡ No_premise }
{
    match case {
        JobCase::Ask(it, _) => came_newcomer(it),
        JobCase::Finish(_)
        | JobCase::Pass(_)
        | JobCase::Unmounts(_, _)
        | JobCase::Releases(_, _)
        | JobCase::Fail(_)
        | JobCase::Stuck
        | JobCase::Undo(_) => Newcomer::Nothing,
    }
}

fn turn_newcomer(case: &TurnCase) -> Newcomer<'_>
    ensures comes { (d : desk_types.Desk) (g : grant_types.Grant) → IsTurnOf d case.now → in_kernel (act_of (effects turned (turn_decision_of d case.now)) g).came ≡ newcome result (number_in g) }
    ensures claim { is_claim result ≡ true → premise_of (turn_objects case.now) ≡ No_premise }
{
    match case {
        TurnCase::GoOn(case) => job_newcomer(case),
        TurnCase::Idle
        | TurnCase::Begin(_)
        | TurnCase::BeginHalt(_)
        | TurnCase::Refuse(_, _)
        | TurnCase::Again(_) => Newcomer::Nothing,
    }
}

fn case_newcomer(case: &Case) -> Newcomer<'_>
    ensures comes { (d : desk_types.Desk) (g : grant_types.Grant) → IsCaseOf d case.now → in_kernel (act_of (decision_of d case.now) g).came ≡ newcome result (number_in g) }
    ensures claim { is_claim result ≡ true → premise_of (objects_of case.now) ≡ No_premise }
{
    match case {
        Case::Fork(running, _) => Newcomer::Process(running),
        Case::Login(login) => Newcomer::Process(&login.running),
        Case::Enter(entering) => Newcomer::Process(&entering.running),
        Case::Turn(case) => turn_newcomer(case),
        Case::Says(_)
        | Case::Tells(_)
        | Case::Answers(_)
        | Case::Sit(_)
        | Case::Change(_, _)
        | Case::Write(_, _)
        | Case::AtConsole(_)
        | Case::Commit(_)
        | Case::Remove(_)
        | Case::Put(_, _) => Newcomer::Nothing,
    }
}

// A process begins.
#[inline(never)]
fn begin(
    alloc: Global,
    cell: &mut Cell,
    shared: &mut Shared,
    zone: &ZoneName,
    pid: u32,
    running: &Running,
) -> Result<(), AllocError>
    requires { (pools_in shared.old).pid_used pid ≡ false }
    ensures does { OnOk result (Does zone.now (comes_world (New_process (process_of (pid, running.now)))) (came_common zone.now (Some (New_process (process_of (pid, running.now))))) cell.old shared.old cell.new shared.new) }
    ensures alike { OnErr result (Alike cell.old shared.old cell.new shared.new) }
    ensures cell { cell.new ≡ record cell.old { kernel = cell.new.kernel } }
    ensures shared { shared.new ≡ record shared.old { kernel = shared.new.kernel } }
{
    cell.kernel
        .begin(alloc, &mut shared.kernel, zone, pid, running)
}

// The zone gets an id, in place of the one that it had, if any.
#[inline(never)]
fn give_id(
    alloc: Global,
    cell: &mut Cell,
    shared: &mut Shared,
    zone: &ZoneName,
    zid: u32,
) -> Result<(), AllocError>
    requires { (pools_in shared.old).zid_used zid ≡ false }
    ensures does { OnOk result (Does zone.now (comes_world (New_id (new_id zid))) (came_common zone.now (Some (New_id (new_id zid)))) cell.old shared.old cell.new shared.new) }
    ensures alike { OnErr result (Alike cell.old shared.old cell.new shared.new) }
    ensures cell { cell.new ≡ record cell.old { kernel = cell.new.kernel } }
    ensures shared { shared.new ≡ record shared.old { kernel = shared.new.kernel } }
{
    match cell.kernel.activate(alloc, &mut shared.kernel, zone, zid) {
        Ok(()) => Ok(()),
        Err(_) => Err(AllocError),
    }
}

// The zone claims an item that it may hold.
#[inline(never)]
fn claim_item(
    alloc: Global,
    cell: &mut Cell,
    shared: &mut Shared,
    zone: &ZoneName,
    claim: &Claim,
) -> Result<(), AllocError>
    requires { allows zone.now claim.now shared.old.claims ≡ true }
    ensures does { OnOk result (Does zone.now (comes_world (New_claim claim.now)) (came_common zone.now (Some (New_claim claim.now))) cell.old shared.old cell.new shared.new) }
    ensures alike { OnErr result (Alike cell.old shared.old cell.new shared.new) }
    ensures cell { cell.new ≡ record cell.old { claims = cell.new.claims } }
    ensures shared { shared.new ≡ record shared.old { claims = shared.new.claims } }
{
    let item = claim.item.copy(alloc)?;
    match cell
        .claims
        .claim(alloc, &mut shared.claims, claim.kind, item, zone)
    {
        Ok(()) => Ok(()),
        Err(_) => Err(AllocError),
    }
}

fn let_in(
    alloc: Global,
    cell: &mut Cell,
    shared: &mut Shared,
    zone: &ZoneName,
    newcomer: Newcomer<'_>,
    number: Result<u32, Pool>,
) -> Result<(), AllocError>
    requires { IsFreeOf zone.now (newcome newcomer number) (pools_in shared.old) }
    ensures does { OnOk result (Does zone.now (after_came_world (newcome newcomer.entry number)) (came_common zone.now (newcome newcomer.entry number)) cell.old shared.old cell.new shared.new) }
    ensures alike { OnErr result (Alike cell.old shared.old cell.new shared.new) }
    ensures cell { cell.new ≡ record cell.old { kernel = cell.new.kernel; claims = cell.new.claims } }
    ensures shared { shared.new ≡ record shared.old { kernel = shared.new.kernel; claims = shared.new.claims } }
    ensures claims { is_claim newcomer.entry ≡ false → cell.new.claims ≡ cell.old.claims }
    ensures none { newcome newcomer.entry number ≡ None → (cell.new ≡ cell.old) × (shared.new ≡ shared.old) }
{
    match (newcomer, number) {
        (Newcomer::Process(running), Ok(pid)) => begin(alloc, cell, shared, zone, pid, running),
        (Newcomer::Id, Ok(zid)) => give_id(alloc, cell, shared, zone, zid),
        (Newcomer::Claim(claim), Ok(_)) => claim_item(alloc, cell, shared, zone, claim),
        _ => Ok(()),
    }
}

/// What a case brings to the kernel is there, under a grant that fits. Where memory runs out, nothing is changed.
pub(crate) fn come(
    alloc: Global,
    cell: &mut Cell,
    shared: &mut Shared,
    zone: &ZoneName,
    case: &Case,
    grant: Grant,
) -> Result<(), AllocError>
    requires of { IsCaseOf cell.old.desk case.now }
    requires objects { IsFreeFor (objects_of case.now) cell.old.mounts.list cell.old.claims.claims }
    requires free { IsFreeOf zone.now (act_of (decision_of cell.old.desk case.now) grant).came (pools_in shared.old) }
    ensures does { OnOk result (Does zone.now (after_came_world (in_kernel (act_of (decision_of cell.old.desk case.now) grant).came)) (came_common zone.now (in_kernel (act_of (decision_of cell.old.desk case.now) grant).came)) cell.old shared.old cell.new shared.new) }
    ensures alike { OnErr result (Alike cell.old shared.old cell.new shared.new) }
    ensures cell { cell.new ≡ record cell.old { kernel = cell.new.kernel; claims = cell.new.claims } }
    ensures shared { shared.new ≡ record shared.old { kernel = shared.new.kernel; claims = shared.new.claims } }
    ensures objects { IsFreeFor (objects_of case.now) cell.new.mounts.list cell.new.claims.claims }
    ensures none { in_kernel (act_of (decision_of cell.old.desk case.now) grant).came ≡ None → (cell.new ≡ cell.old) × (shared.new ≡ shared.old) }
{
    let_in(
        alloc,
        cell,
        shared,
        zone,
        case_newcomer(case),
        number_in(grant),
    )
}
