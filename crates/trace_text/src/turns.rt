//! What a daemon's turn reports, printed.
ghost use Rattle.std.specs.Prelude.{◌≡◌, ◌++◌, OnOk};
ghost use Rattle.trace_text.specs.Phrases.{phrase_text};
ghost use Rattle.trace_text.specs.Turns.{began_text, change_text, ending_text, failed_text, finished_text, hook_text, kind_text, moment_text, outcome_text, release_text, step_text, turn_text, unmount_text};

use crate::flaws::{push_flaw, push_limit_fault};
use crate::phrases::{Phrase, push_phrase};
use brand_hooks::{Change, ChangeKind};
use datalink_table::Claim;
use grant_text::pool_word;
use std::alloc::AllocError;
use zn_base::{AbsPath, push_both, push_numbered};
use zoneadmd_steps::{Outcome, RequestKind, Step, TurnReply};

fn kind_text(kind: RequestKind) -> &'static [u8]
    ensures { result.now ≡ kind_text kind }
{
    match kind {
        RequestKind::Install => b"install",
        RequestKind::Uninstall => b"uninstall",
        RequestKind::Clone => b"clone",
        RequestKind::Attach => b"attach",
        RequestKind::Detach => b"detach",
        RequestKind::Mark => b"mark",
        RequestKind::Move => b"move",
        RequestKind::Ready => b"ready",
        RequestKind::Boot => b"boot",
        RequestKind::Halt => b"halt",
        RequestKind::Reboot => b"reboot",
    }
}

fn change_text(kind: ChangeKind) -> &'static [u8]
    ensures { result.now ≡ change_text kind }
{
    match kind {
        ChangeKind::Install => b"install",
        ChangeKind::Uninstall => b"uninstall",
        ChangeKind::Clone => b"clone",
        ChangeKind::Attach => b"attach",
        ChangeKind::Detach => b"detach",
        ChangeKind::Ready => b"ready",
        ChangeKind::Boot => b"boot",
        ChangeKind::Halt => b"halt",
    }
}

fn moment_text(before: bool) -> &'static [u8]
    ensures { result.now ≡ moment_text before }
{
    if before {
        b"hook before "
    } else {
        b"hook after "
    }
}

fn hook_phrase(change: Change) -> Phrase<'static>
    ensures { phrase_text result ≡ hook_text change }
{
    Phrase::Text(moment_text(change.before), change_text(change.kind))
}

fn unmount_phrase(dir: &Option<AbsPath>) -> Phrase<'_>
    ensures { phrase_text result ≡ unmount_text dir.now }
{
    match dir {
        None => Phrase::Bare(b"unmount"),
        Some(dir) => Phrase::Text(b"unmount ", dir.bytes()),
    }
}

fn release_phrase(claim: &Option<Claim>) -> Phrase<'_>
    ensures { phrase_text result ≡ release_text claim.now }
{
    match claim {
        None => Phrase::Bare(b"release"),
        Some(claim) => Phrase::Claimed(b"release ", claim),
    }
}

#[tactic(auto, unfolding(crate::specs::Turns::step_text))]
fn step_phrase(step: &Step) -> Phrase<'_>
    ensures { phrase_text result ≡ step_text step.now }
{
    match step {
        Step::Hook(change) => hook_phrase(*change),
        Step::Record(state) => Phrase::State(b"record ", *state),
        Step::Moved => Phrase::Bare(b"record moved"),
        Step::Copy(number) => Phrase::Number(b"copy ", *number as u64),
        Step::Erase(number) => Phrase::Number(b"erase ", *number as u64),
        Step::Source(name) => Phrase::Text(b"source ", name.bytes()),
        Step::Zid(zid) => Phrase::Counted(b"zid", zid),
        Step::Limits => Phrase::Bare(b"limits"),
        Step::Devices(count) => Phrase::Counted(b"devices", count),
        Step::Root => Phrase::Bare(b"root"),
        Step::Mounted(dir) => Phrase::Text(b"mount ", dir.bytes()),
        Step::Claimed(claim) => Phrase::Claimed(b"", claim),
        Step::State(state) => Phrase::State(b"state ", *state),
        Step::Init(pid) => Phrase::Counted(b"init", pid),
        Step::Kill(count) => Phrase::Counted(b"kill", count),
        Step::Unmount(dir) => unmount_phrase(dir),
        Step::Release(claim) => release_phrase(claim),
        Step::Clear => Phrase::Bare(b"clear"),
        Step::ZidBack(zid) => Phrase::Counted(b"zidback", zid),
    }
}

fn push_step(out: &mut Vec<u8>, word: &[u8], step: &Step) -> Result<(), AllocError>
    ensures { OnOk result (out.new.items ≡ out.old.items ++ (word.now ++ step_text step.now)) }
{
    out.extend_from_slice(word)?;
    push_phrase(out, step_phrase(step))
}

#[tactic(auto, unfolding(crate::specs::Turns::outcome_text))]
fn push_outcome(out: &mut Vec<u8>, outcome: &Outcome) -> Result<(), AllocError>
    ensures { OnOk result (out.new.items ≡ out.old.items ++ outcome_text outcome.now) }
{
    match outcome {
        Outcome::Done => out.extend_from_slice(b"ok"),
        Outcome::WrongState(state) => push_both(out, b"81 WrongState ", state.text()),
        Outcome::Denied(pool) => push_both(out, b"82 Denied ", pool_word(*pool)),
        Outcome::HookRefused(code) => push_numbered(out, b"83 HookRefused ", *code as u64),
        Outcome::Privilege(fault) => {
            out.extend_from_slice(b"84 Privilege ")?;
            push_limit_fault(out, *fault)
        }
        Outcome::NotVerified(flaw) => {
            out.extend_from_slice(b"85 NotVerified ")?;
            push_flaw(out, flaw)
        }
        Outcome::TooLarge(size) => push_numbered(out, b"29 TooLarge ", *size as u64),
    }
}

#[tactic(auto, unfolding(crate::specs::Turns::ending_text))]
fn push_ending(out: &mut Vec<u8>, outcome: &Outcome) -> Result<(), AllocError>
    ensures { OnOk result (out.new.items ≡ out.old.items ++ ending_text outcome.now) }
{
    match outcome {
        Outcome::Done => out.extend_from_slice(b"ok"),
        _ => {
            out.extend_from_slice(b"err ")?;
            push_outcome(out, outcome)
        }
    }
}

fn push_began(out: &mut Vec<u8>, ticket: u32, kind: RequestKind) -> Result<(), AllocError>
    ensures { OnOk result (out.new.items ≡ out.old.items ++ began_text ticket kind) }
{
    push_numbered(out, b"began ", ticket as u64)?;
    push_both(out, b" ", kind_text(kind))
}

fn push_failed(out: &mut Vec<u8>, number: u32, outcome: &Outcome) -> Result<(), AllocError>
    ensures { OnOk result (out.new.items ≡ out.old.items ++ failed_text number outcome.now) }
{
    push_numbered(out, b"failed ", number as u64)?;
    out.extend_from_slice(b": ")?;
    push_outcome(out, outcome)
}

fn push_finished(out: &mut Vec<u8>, ticket: u32, outcome: &Outcome) -> Result<(), AllocError>
    ensures { OnOk result (out.new.items ≡ out.old.items ++ finished_text ticket outcome.now) }
{
    push_numbered(out, b"finished ", ticket as u64)?;
    out.extend_from_slice(b" ")?;
    push_ending(out, outcome)
}

#[tactic(auto, unfolding(crate::specs::Turns::turn_text))]
pub(crate) fn push_turn(out: &mut Vec<u8>, turn: &TurnReply) -> Result<(), AllocError>
    ensures { OnOk result (out.new.items ≡ out.old.items ++ turn_text turn.now) }
{
    match turn {
        TurnReply::Idle => out.extend_from_slice(b"idle"),
        TurnReply::Began(ticket, kind) => push_began(out, *ticket, *kind),
        TurnReply::Stepped(step) => push_step(out, b"step ", step),
        TurnReply::Failed(number, outcome) => push_failed(out, *number, outcome),
        TurnReply::Undone(step) => push_step(out, b"undone ", step),
        TurnReply::Finished(ticket, outcome) => push_finished(out, *ticket, outcome),
        TurnReply::Stuck => out.extend_from_slice(b"stuck unmount"),
    }
}
