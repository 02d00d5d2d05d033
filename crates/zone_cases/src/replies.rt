//! What an event is answered.
ghost use Rattle.std.specs.Prelude.{◌≡◌};
ghost use Rattle.zone_cases.specs.Code.Replies.{head_with, reply_with};

use config_verify::Flaw;
use kernel_objects::{Errno, ProcRow};
use loopback_mounts::Mount;
use priv_sets::PrivFault;
use zn_base::{AbsPath, Bytes, Listing, NameFault, Text, ZoneState};
use zone_pools::Pool;
use zoneadmd_steps::{Gone, TurnReply};
use zonecfg_scopes::EditFault;

/// Why a line is refused.
#[derive(Drop)]
pub enum Refusal {
    /// The word that the line gives is no zone's name. Never that memory ran out, which is no reply.
    BadName(NameFault),
    /// What a subcommand of zonecfg(8) is refused for. Never that memory ran out, which is no reply.
    Edit(EditFault),
    /// The configuration has a flaw. Never that memory ran out, which is no reply.
    Flawed(Flaw),
    /// `-F` is missing.
    NeedForce,
    /// The zone's path or brand would change, and the zone is in this state, which isn't configured.
    WrongState(ZoneState),
    /// A pool denies what the line asks of it.
    Denied(Pool),
    /// The zone isn't stored.
    NoZone,
    /// What the session's editor has seen is the first revision, and what is stored by now is the second; 0 is none.
    Changed(u32, u32),
    /// The session waits for this ticket.
    Waiting(u32),
    /// Eight requests of the zone wait, or its ticket numbers are used up.
    DeskFull,
    /// A request of the zone waits or is under way.
    DeskInUse,
    /// The line is none that the session knows.
    Usage,
    /// The zone has no process of this number.
    NoProcess,
    /// The item or the device is declared already.
    Duplicate,
    /// So many are declared of the kind, and there may be no more.
    TooMany(usize),
    /// The zone has as many mounts as it may have.
    TooManyMounts,
    /// The mount is held already, or is not held.
    HoldState,
    /// The zone has no mount there.
    NoMount,
    /// The kernel refuses a call, by intro(2).
    Errno(Errno),
    /// The zone is in this state, in which no session may have what it asks for.
    NotRunning(ZoneState),
    /// A session has the console.
    Taken,
    /// The configuration's limitpriv denotes no limit set. Never that memory ran out, which is no reply.
    Privilege(PrivFault),
}

/// The first line of a reply.
#[derive(Drop)]
pub enum Head {
    Ok,
    Ticket(u32),
    Refused(Refusal),
    Turned(TurnReply),
    /// What the command of a session that is logged in returned, or one at the console, by zlogin(1): 0, 1, or 127 where
    /// there is none such.
    Status(u8),
}

/// What follows the first line.
#[derive(Drop)]
pub enum Body {
    Nothing,
    /// The number of the process that was made.
    Child(u32),
    /// The zone's processes, in order of their numbers.
    Processes(Listing<ProcRow>),
    /// The zone's mounts, in byte order of their directories.
    Mounts(Listing<Mount>),
    /// The zone's links, and then its addresses, in the order in which it claimed them.
    Net(Listing<Text>, Listing<Text>),
    /// The zone's datasets, in the order in which it claimed them.
    Datasets(Listing<Text>),
    /// The devices that the zone was given.
    Devices(Listing<AbsPath>),
    /// Texts, a line each.
    Lines(Listing<Bytes>),
    /// Why a call was refused.
    Why(Refusal),
}

/// What an event is answered.
#[derive(Drop)]
pub struct Reply {
    pub head: Head,
    pub body: Body,
}

impl Head {
    fn with_gone(self, gone: Gone) -> Head
        ensures { result ≡ head_with gone self }
    {
        match self {
            Head::Turned(turn) => Head::Turned(turn.with_gone(gone)),
            head => head,
        }
    }
}

impl Reply {
    /// What is answered once the last mount or the latest claim went.
    #[tactic(auto, using(crate::proofs::Gone_laws::nothing_told))]
    pub fn with_gone(self, gone: Gone) -> Reply
        ensures { result ≡ reply_with gone self }
    {
        match gone {
            Gone::Nothing => self,
            gone => Reply {
                head: self.head.with_gone(gone),
                body: self.body,
            },
        }
    }
}
