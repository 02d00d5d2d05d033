//! Copies of what the turns of daemons report.
ghost use Rattle.std.specs.Prelude.{◌≡◌, IfOk};

use crate::copies::refusals::copy_flaw;
use datalink_table::Claim;
use std::alloc::{AllocError, Global};
use zn_base::TryClone;
use zoneadmd_steps::{Outcome, Step, TurnReply};

fn copy_release(alloc: Global, claim: &Option<Claim>) -> Result<Option<Claim>, AllocError>
    ensures { IfOk result (λ copy. copy ≡ claim.now) }
{
    match claim {
        None => Ok(None),
        Some(claim) => Ok(Some(claim.copy(alloc)?)),
    }
}

fn copy_step(alloc: Global, step: &Step) -> Result<Step, AllocError>
    ensures { IfOk result (λ copy. copy ≡ step.now) }
{
    Ok(match step {
        Step::Hook(change) => Step::Hook(*change),
        Step::Record(state) => Step::Record(*state),
        Step::Moved => Step::Moved,
        Step::Copy(part) => Step::Copy(*part),
        Step::Erase(part) => Step::Erase(*part),
        Step::Source(zone) => Step::Source(zone.copy(alloc)?),
        Step::Zid(zid) => Step::Zid(*zid),
        Step::Limits => Step::Limits,
        Step::Devices(count) => Step::Devices(*count),
        Step::Root => Step::Root,
        Step::Mounted(dir) => Step::Mounted(dir.copy(alloc)?),
        Step::Claimed(claim) => Step::Claimed(claim.copy(alloc)?),
        Step::State(state) => Step::State(*state),
        Step::Init(pid) => Step::Init(*pid),
        Step::Kill(count) => Step::Kill(*count),
        Step::Unmount(dir) => Step::Unmount(dir.try_clone(alloc)?),
        Step::Release(claim) => Step::Release(copy_release(alloc, claim)?),
        Step::Clear => Step::Clear,
        Step::ZidBack(zid) => Step::ZidBack(*zid),
    })
}

fn copy_outcome(alloc: Global, outcome: &Outcome) -> Result<Outcome, AllocError>
    ensures { IfOk result (λ copy. copy ≡ outcome.now) }
{
    Ok(match outcome {
        Outcome::Done => Outcome::Done,
        Outcome::WrongState(state) => Outcome::WrongState(*state),
        Outcome::Denied(pool) => Outcome::Denied(*pool),
        Outcome::HookRefused(code) => Outcome::HookRefused(*code),
        Outcome::Privilege(fault) => Outcome::Privilege(*fault),
        Outcome::NotVerified(flaw) => Outcome::NotVerified(copy_flaw(alloc, flaw)?),
        Outcome::TooLarge(size) => Outcome::TooLarge(*size),
    })
}

/// An equal report.
pub(crate) fn copy_turn(alloc: Global, turn: &TurnReply) -> Result<TurnReply, AllocError>
    ensures { IfOk result (λ copy. copy ≡ turn.now) }
{
    Ok(match turn {
        TurnReply::Idle => TurnReply::Idle,
        TurnReply::Began(ticket, kind) => TurnReply::Began(*ticket, *kind),
        TurnReply::Stepped(step) => TurnReply::Stepped(copy_step(alloc, step)?),
        TurnReply::Failed(number, outcome) => TurnReply::Failed(
            *number,
            copy_outcome(alloc, outcome)?,
        ),
        TurnReply::Undone(step) => TurnReply::Undone(copy_step(alloc, step)?),
        TurnReply::Finished(ticket, outcome) => TurnReply::Finished(
            *ticket,
            copy_outcome(alloc, outcome)?,
        ),
        TurnReply::Stuck => TurnReply::Stuck,
    })
}
