//! What a turn of a daemon reports, in a few words.
use brand_hooks::{Change, ChangeKind};
use config_verify::Flaw;
use datalink_table::{Claim, ClaimKind};
use priv_sets::PrivFault;
use std::alloc::AllocError;
use zn_base::{push_both, push_numbered};
use zone_pools::Pool;
use zoneadmd_steps::{Outcome, RequestKind, Step, TurnReply};

fn pool_text(pool: Pool) -> &'static [u8] {
    match pool {
        Pool::Pids => b"pids",
        Pool::Zids => b"zids",
        Pool::Zones => b"zones",
        Pool::Paths => b"paths",
        Pool::Store => b"store",
        Pool::Links => b"links",
        Pool::Addresses => b"addresses",
        Pool::Datasets => b"datasets",
        Pool::Source => b"source",
    }
}

fn kind_text(kind: RequestKind) -> &'static [u8] {
    match kind {
        RequestKind::Install => b"install",
        RequestKind::Uninstall => b"uninstall",
        RequestKind::Clone => b"clone",
        RequestKind::Attach => b"attach",
        RequestKind::Detach => b"detach",
        RequestKind::Mark => b"mark",
        RequestKind::Move => b"move",
        RequestKind::Ready => b"ready",
        RequestKind::Boot => b"boot",
        RequestKind::Halt => b"halt",
        RequestKind::Reboot => b"reboot",
    }
}

fn change_text(kind: ChangeKind) -> &'static [u8] {
    match kind {
        ChangeKind::Install => b"install",
        ChangeKind::Uninstall => b"uninstall",
        ChangeKind::Clone => b"clone",
        ChangeKind::Attach => b"attach",
        ChangeKind::Detach => b"detach",
        ChangeKind::Ready => b"ready",
        ChangeKind::Boot => b"boot",
        ChangeKind::Halt => b"halt",
    }
}

fn push_hook(out: &mut Vec<u8>, change: Change) -> Result<(), AllocError> {
    let moment: &[u8] = if change.before {
        b"hook before "
    } else {
        b"hook after "
    };
    push_both(out, moment, change_text(change.kind))
}

fn claim_word(kind: ClaimKind) -> &'static [u8] {
    match kind {
        ClaimKind::Link => b"link ",
        ClaimKind::Address => b"address ",
        ClaimKind::Dataset => b"dataset ",
    }
}

fn push_claim(out: &mut Vec<u8>, claim: &Claim) -> Result<(), AllocError> {
    push_both(out, claim_word(claim.kind), claim.item.bytes())
}

// A number that a turn tells; one of a plan that is not known yet is `?`.
fn push_count(out: &mut Vec<u8>, word: &[u8], count: &Option<u32>) -> Result<(), AllocError> {
    match count {
        Some(number) => push_numbered(out, word, *number as u64),
        None => push_both(out, word, b"?"),
    }
}

fn push_release(out: &mut Vec<u8>, claim: &Option<Claim>) -> Result<(), AllocError> {
    out.extend_from_slice(b"release ")?;
    match claim {
        Some(claim) => push_claim(out, claim),
        None => out.extend_from_slice(b"?"),
    }
}

fn push_object_step(out: &mut Vec<u8>, step: &Step) -> Result<(), AllocError> {
    match step {
        Step::Zid(zid) => push_count(out, b"zid ", zid),
        Step::Limits => out.extend_from_slice(b"limits"),
        Step::Devices(count) => push_count(out, b"devices ", count),
        Step::Root => out.extend_from_slice(b"root"),
        Step::Mounted(dir) => push_both(out, b"mount ", dir.bytes()),
        Step::Claimed(claim) => push_claim(out, claim),
        Step::Init(pid) => push_count(out, b"init ", pid),
        Step::Kill(count) => push_count(out, b"kill ", count),
        Step::Unmount(Some(dir)) => push_both(out, b"unmount ", dir.bytes()),
        Step::Release(claim) => push_release(out, claim),
        Step::Clear => out.extend_from_slice(b"clear"),
        Step::ZidBack(zid) => push_count(out, b"zidback ", zid),
        _ => out.extend_from_slice(b"?"),
    }
}

fn push_step(out: &mut Vec<u8>, step: &Step) -> Result<(), AllocError> {
    match step {
        Step::Hook(change) => push_hook(out, *change),
        Step::Record(state) => push_both(out, b"record ", state.text()),
        Step::Moved => out.extend_from_slice(b"record moved"),
        Step::Copy(part) => push_numbered(out, b"copy ", *part as u64),
        Step::Erase(part) => push_numbered(out, b"erase ", *part as u64),
        Step::Source(source) => push_both(out, b"source ", source.bytes()),
        Step::State(state) => push_both(out, b"state ", state.text()),
        _ => push_object_step(out, step),
    }
}

fn flaw_text(flaw: &Flaw) -> &'static [u8] {
    match flaw {
        Flaw::Memory => b"no memory",
        Flaw::NoZonepath => b"41",
        Flaw::MissingProperty(_, _) => b"42",
        Flaw::NetForm(_) => b"43",
        Flaw::BadAddress(_) => b"44",
        Flaw::SameDir(_) => b"45",
        Flaw::UnknownBrand(_) => b"46",
        Flaw::AttrForm(_) => b"50",
    }
}

fn limit_text(fault: &PrivFault) -> &'static [u8] {
    match fault {
        PrivFault::Memory => b"no memory",
        PrivFault::PrivWord(_) => b"47",
        PrivFault::PrivRequired(_) => b"48",
        PrivFault::PrivProhibited(_) => b"49",
    }
}

fn push_outcome(out: &mut Vec<u8>, outcome: &Outcome) -> Result<(), AllocError> {
    match outcome {
        Outcome::Done => out.extend_from_slice(b"ok"),
        Outcome::WrongState(state) => push_both(out, b"81 ", state.text()),
        Outcome::Denied(pool) => push_both(out, b"82 ", pool_text(*pool)),
        Outcome::HookRefused(code) => push_numbered(out, b"83 ", *code as u64),
        Outcome::Privilege(fault) => push_both(out, b"84 ", limit_text(fault)),
        Outcome::NotVerified(flaw) => push_both(out, b"85 ", flaw_text(flaw)),
        Outcome::TooLarge(size) => push_numbered(out, b"29 ", *size as u64),
    }
}

fn push_ending(
    out: &mut Vec<u8>,
    word: &[u8],
    number: u32,
    outcome: &Outcome,
) -> Result<(), AllocError> {
    push_numbered(out, word, number as u64)?;
    out.extend_from_slice(b": ")?;
    push_outcome(out, outcome)
}

fn push_began(out: &mut Vec<u8>, ticket: u32, kind: RequestKind) -> Result<(), AllocError> {
    push_numbered(out, b"began ", ticket as u64)?;
    push_both(out, b" ", kind_text(kind))
}

/// Puts what a turn reports after what is there. Of a flaw and of a fault of a limit set only the code is told.
pub fn push_turn(out: &mut Vec<u8>, reply: &TurnReply) -> Result<(), AllocError> {
    match reply {
        TurnReply::Idle => out.extend_from_slice(b"idle"),
        TurnReply::Began(ticket, kind) => push_began(out, *ticket, *kind),
        TurnReply::Stepped(step) => push_step(out, step),
        TurnReply::Failed(number, outcome) => push_ending(out, b"failed ", *number, outcome),
        TurnReply::Undone(step) => {
            out.extend_from_slice(b"undone ")?;
            push_step(out, step)
        }
        TurnReply::Finished(ticket, outcome) => push_ending(out, b"finished ", *ticket, outcome),
        TurnReply::Stuck => out.extend_from_slice(b"stuck"),
    }
}
