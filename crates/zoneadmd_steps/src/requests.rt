//! What a zone's daemon is asked, and what its turns report. The words are those of zoneadm(8).
ghost use Rattle.std.specs.Prelude.{◌≡◌, IfOk};
ghost use Rattle.zoneadmd_steps.specs.Code.Desks.{as_outcome};
ghost use Rattle.zoneadmd_steps.specs.Code.Works.{with_gone};
ghost use Rattle.zoneadmd_steps.specs.Plans.{kind_of};

use brand_hooks::Change;
use config_verify::Flaw;
use datalink_table::Claim;
use priv_sets::PrivFault;
use std::alloc::{AllocError, Global};
use zn_base::{AbsPath, Text, ZoneName, ZoneState};
use zone_pools::Pool;

/// What a ticket asks for, by the subcommands of zoneadm(8).
#[derive(Drop)]
pub enum Request {
    Install,
    Uninstall,
    /// The zone is installed as a copy of another, the source.
    Clone(ZoneName),
    Attach,
    Detach,
    /// The zone is marked incomplete.
    Mark,
    /// The zone's files move to another zonepath, which isn't `/`.
    Move(AbsPath),
    Ready,
    /// The zone boots with these arguments, or, where there are none, with those of its configuration.
    Boot(Text),
    Halt,
    /// The zone is halted, and boots again.
    Reboot(Text),
}

/// What is asked, without its contents.
#[derive(Clone, Copy, PartialEq, Eq)]
pub enum RequestKind {
    Install,
    Uninstall,
    Clone,
    Attach,
    Detach,
    Mark,
    Move,
    Ready,
    Boot,
    Halt,
    Reboot,
}

/// One step of a request's plan. In a plan the numbers, the directory of an unmount and the claim of a release are `None`, in a
/// turn's reply they are what the step came to.
#[derive(Drop)]
pub enum Step {
    /// The zone's brand is asked.
    Hook(Change),
    /// The stored state changes.
    Record(ZoneState),
    /// The stored zonepath changes.
    Moved,
    /// A part of the zone's files is copied to its zonepath; the parts are numbered from 1.
    Copy(u8),
    /// A part of the zone's files is erased.
    Erase(u8),
    /// The zone that is cloned is looked at.
    Source(ZoneName),
    /// The zone gets its id.
    Zid(Option<u32>),
    /// The zone's limits are set.
    Limits,
    /// The devices that the zone's patterns match, as a count.
    Devices(Option<u32>),
    /// The zone's root is mounted.
    Root,
    /// A file system of the configuration is mounted.
    Mounted(AbsPath),
    /// A dataset, a link or an address of the configuration is claimed.
    Claimed(Claim),
    /// The zone goes into a state that isn't stored, or back to installed.
    State(ZoneState),
    /// The first process begins.
    Init(Option<u32>),
    /// All processes end, as a count.
    Kill(Option<u32>),
    /// A mount goes, the one with the greatest directory. In a plan it stands for all of them.
    Unmount(Option<AbsPath>),
    /// A claim ends, the latest. In a plan it stands for all of them.
    Release(Option<Claim>),
    /// The zone's limits and devices are given up.
    Clear,
    /// The zone gives its id back.
    ZidBack(Option<u32>),
}

/// Why a step fails.
#[derive(Clone, Copy)]
pub enum Failure {
    /// A pool denied what the step asked of it.
    Denied(Pool),
    /// The brand refused, with a code.
    HookRefused(u8),
    /// With the new zonepath the export text would have so many bytes.
    TooLarge(u32),
}

/// How a request or one of its steps ends.
#[derive(Drop)]
pub enum Outcome {
    Done,
    /// The request doesn't begin in this state.
    WrongState(ZoneState),
    /// A pool denied what a step asked of it.
    Denied(Pool),
    /// The brand refused, with a code.
    HookRefused(u8),
    /// The limit set of the zone is none.
    Privilege(PrivFault),
    /// The configuration has a flaw.
    NotVerified(Flaw),
    /// With the new zonepath the export text would have so many bytes.
    TooLarge(u32),
}

/// What one turn of a daemon reports.
#[derive(Drop)]
pub enum TurnReply {
    /// No request waits or is under way.
    Idle,
    /// A request begins, or a reboot goes on as a boot: its ticket and its kind.
    Began(u32, RequestKind),
    Stepped(Step),
    /// The step of this number failed, counted from 1 since the request last began.
    Failed(u32, Outcome),
    /// A step of a failed request is undone.
    Undone(Step),
    /// A request ends: its ticket and its outcome.
    Finished(u32, Outcome),
    /// The next unmount is of a mount that the global zone holds: nothing changes, and the request waits until it is
    /// released. By zoneadmd(8)'s umount of a zone's mounts, umount2(2) EBUSY.
    Stuck,
}

/// What went as the last, as it is moved out of the zone's tables.
#[derive(Drop)]
pub enum Gone {
    Nothing,
    /// The directory of a mount.
    Mount(AbsPath),
    Claim(Claim),
}

impl TurnReply {
    /// What is told of a turn once the last mount or the latest claim went by it.
    pub fn with_gone(self, gone: Gone) -> TurnReply
        ensures { result ≡ with_gone gone self }
    {
        match gone {
            Gone::Nothing => self,
            Gone::Mount(dir) => TurnReply::Stepped(Step::Unmount(Some(dir))),
            Gone::Claim(claim) => TurnReply::Stepped(Step::Release(Some(claim))),
        }
    }
}

impl Request {
    /// What is asked, without its contents.
    pub fn kind(&self) -> RequestKind
        ensures { result ≡ kind_of self.now }
    {
        match self {
            Request::Install => RequestKind::Install,
            Request::Uninstall => RequestKind::Uninstall,
            Request::Clone(_) => RequestKind::Clone,
            Request::Attach => RequestKind::Attach,
            Request::Detach => RequestKind::Detach,
            Request::Mark => RequestKind::Mark,
            Request::Move(_) => RequestKind::Move,
            Request::Ready => RequestKind::Ready,
            Request::Boot(_) => RequestKind::Boot,
            Request::Halt => RequestKind::Halt,
            Request::Reboot(_) => RequestKind::Reboot,
        }
    }

    /// An equal one.
    pub fn copy(&self, alloc: Global) -> Result<Request, AllocError>
        ensures { IfOk result (λ request. request ≡ self.now) }
    {
        Ok(match self {
            Request::Install => Request::Install,
            Request::Uninstall => Request::Uninstall,
            Request::Clone(source) => Request::Clone(source.copy(alloc)?),
            Request::Attach => Request::Attach,
            Request::Detach => Request::Detach,
            Request::Mark => Request::Mark,
            Request::Move(path) => Request::Move(path.copy(alloc)?),
            Request::Ready => Request::Ready,
            Request::Boot(args) => Request::Boot(args.copy(alloc)?),
            Request::Halt => Request::Halt,
            Request::Reboot(args) => Request::Reboot(args.copy(alloc)?),
        })
    }
}

impl Failure {
    /// How the request ends that had the step.
    pub(crate) fn outcome(self) -> Outcome
        ensures { result ≡ as_outcome self }
    {
        match self {
            Failure::Denied(pool) => Outcome::Denied(pool),
            Failure::HookRefused(code) => Outcome::HookRefused(code),
            Failure::TooLarge(size) => Outcome::TooLarge(size),
        }
    }
}
