//! What an event of a zone comes to. A case is decided before anything is changed, and holds all that its event needs.
ghost use Rattle.std.specs.Prelude.{◌≡◌, IfSome, None, Some, false};
ghost use Rattle.zn_base.specs.Names.{Name};
ghost use Rattle.zone_config.specs.declared.terms.Contents.{Contents};
ghost use Rattle.zone_cases.specs.Code.Cases.{IsNamedCommitter, as_typist, base_by, done_head, refused_reply, seats_committer};
ghost use Rattle.zone_cases.specs.Code.Doings.{sits};
ghost use Rattle.zone_cases.specs.Session.Commits.{based, goes, goes_over, stays};

use crate::replies::{Body, Head, Refusal, Reply};
use crate::session::doings::Doing;
use crate::session::held::{HeldConfig, HeldEditor};
use commit_journal::Row;
use kernel_objects::{ProcRow, Running};
use zn_base::{Bytes, Listing, Text, ZoneName};
use zoneadmd_steps::{ObjectEdit, QueuedRequest, TurnCase};

/// What is new to the system in a configuration that is committed.
#[derive(Clone, Copy)]
pub enum Novelty {
    /// The zone, with its path.
    Zone,
    /// The path, of a zone that is stored.
    Path,
    Nothing,
}

/// What the event's session does from now on, nothing where it is idle, and the name of the zone in which it does.
#[derive(Drop)]
pub struct Sitting {
    pub doing: Option<Doing>,
    pub owner: ZoneName,
}

/// How what a call comes to is answered: as it is, or by a status, to a session that is logged in.
#[derive(Clone, Copy)]
pub enum Manner {
    Plain,
    Status(u8),
}

/// What becomes of a zone's console.
#[derive(Drop)]
pub enum ConsoleEdit {
    Nothing,
    /// The event's session has it from now on, and takes what is kept.
    Hold,
    /// What is kept is taken.
    Take,
    /// No session has it any more.
    Leave,
    /// A line is written.
    Line(Text),
}

/// A process that enters the zone, with which the event's session is logged in then, and the name of the zone.
#[derive(Drop)]
pub struct Login {
    pub running: Running,
    pub escape: Option<u8>,
    pub owner: ZoneName,
}

/// What a call comes to of a process that enters the zone for it alone, by the number that it gets.
#[derive(Drop)]
pub enum Errand {
    /// Nothing but this reply.
    Answers(Reply),
    /// This becomes of the zone's mounts, or of another process.
    Does(ObjectEdit),
    /// A line is written to the zone's console.
    Writes(Text),
    /// The process runs another program.
    Renames(Text),
    /// It exits.
    Exits,
    /// It gives up a privilege.
    GivesUp(u8),
    /// The zone's processes are listed. The last row is its own, which lacks its number yet.
    Lists(Listing<ProcRow>),
    /// It signals a number that no process of the zone had before, with what would end it or not: its own number, or nobody's.
    Signals(bool, u32),
}

/// A process that enters the zone for a call, by zlogin(1), makes it, and goes.
#[derive(Drop)]
pub struct Entering {
    pub running: Running,
    pub errand: Errand,
}

/// What becomes of the zone's console, and perhaps of the event's session, and the reply.
#[derive(Drop)]
pub struct AtConsole {
    pub edit: ConsoleEdit,
    pub sitting: Option<Sitting>,
    pub reply: Reply,
}

/// What becomes of the event's session alone, and the reply.
#[derive(Drop)]
pub struct Seated {
    pub sitting: Sitting,
    pub reply: Reply,
}

/// A session's editor, and the name of the zone that it edits.
#[derive(Drop)]
pub struct Seat {
    pub editor: HeldEditor,
    pub owner: ZoneName,
}

/// Who commits or removes a zone. A session stays in the editor where that is denied.
#[derive(Drop)]
pub enum Committer {
    /// A line that is a session of its own.
    Alone,
    /// A session that goes on, with this configuration for the base of its editor.
    GoesOn(Seat, HeldConfig),
    /// A session that leaves.
    Leaves(Seat),
}

/// A configuration of a zone that is committed, and what the line tells.
#[derive(Drop)]
pub struct Committed {
    /// The number that the grant gives is the record's revision, and gives a new zone's UUID.
    pub row: Box<Row>,
    pub owner: ZoneName,
    pub novelty: Novelty,
    pub told: Listing<Bytes>,
    pub committer: Committer,
}

/// A zone that is removed, and what the line tells.
#[derive(Drop)]
pub struct Removed {
    pub owner: ZoneName,
    pub told: Listing<Bytes>,
    pub committer: Committer,
}

/// What an event of a zone comes to.
#[derive(Drop)]
pub enum Case {
    /// Nothing is done but a reply.
    Says(Head),
    /// Nothing is done but a reply that tells something.
    Tells(Body),
    /// Nothing is done but a reply, which may be a refusal that tells something.
    Answers(Box<Reply>),
    /// What its session does in the zone changes.
    Sit(Box<Seated>),
    /// The zone's objects change.
    Change(ObjectEdit, Manner),
    /// A process makes another.
    Fork(Box<Running>, Manner),
    /// A line is written to the zone's console.
    Write(Text, Manner),
    /// A session is logged in.
    Login(Box<Login>),
    /// A process enters the zone, makes a call and goes.
    Enter(Box<Entering>),
    /// A session begins at the console, is there, or leaves it.
    AtConsole(Box<AtConsole>),
    /// A configuration is committed.
    Commit(Box<Committed>),
    /// A zone is removed.
    Remove(Box<Removed>),
    /// A request is put on the desk, and the session waits for its ticket.
    Put(QueuedRequest, ZoneName),
    Turn(TurnCase),
}

impl Case {
    /// Lets go of what a case holds that isn't done. An exit would drop each form of it where it stands.
    #[inline(never)]
    pub fn let_go(self) {}
}

impl Manner {
    /// How it is answered that something is done.
    pub fn done(self) -> Head
        ensures { result ≡ done_head self }
    {
        match self {
            Manner::Plain => Head::Ok,
            Manner::Status(status) => Head::Status(status),
        }
    }

    /// How a refusal is answered.
    pub fn refusing(self, refusal: Refusal) -> Reply
        ensures { result ≡ refused_reply self refusal }
    {
        match self {
            Manner::Plain => Reply {
                head: Head::Refused(refusal),
                body: Body::Nothing,
            },
            Manner::Status(_) => Reply {
                head: Head::Status(1),
                body: Body::Why(refusal),
            },
        }
    }
}

impl Seat {
    /// The session stays in the editor.
    pub fn stay(self) -> Sitting
        ensures { result ≡ record { doing = Some (Doing.Edits self.editor); owner = self.owner } }
    {
        let Seat { editor, owner } = self;
        Sitting {
            doing: Some(Doing::Edits(editor)),
            owner,
        }
    }

    /// It leaves the editor.
    pub fn leave(self) -> Sitting
        ensures { result ≡ record { doing = None; owner = self.owner } }
    {
        let Seat { editor: _, owner } = self;
        Sitting { doing: None, owner }
    }

    /// It stays, with what was stored for the base of its editor.
    pub fn go_over(self, base: HeldConfig, revision: u32) -> Sitting
        ensures { result ≡ record { doing = Some (Doing.Edits (based base revision self.editor)); owner = self.owner } }
    {
        let Seat { mut editor, owner } = self;
        editor.set_base(base, revision);
        Sitting {
            doing: Some(Doing::Edits(editor)),
            owner,
        }
    }
}

impl Committer {
    /// What becomes of the session where its commit is denied.
    pub fn denied(self) -> Option<Sitting>
        ensures sits { sits result ≡ stays (as_typist self) }
        ensures seats { seats_committer self ≡ false → result ≡ None }
        ensures named { (z : Name) → IsNamedCommitter z self → IfSome result (λ s. s.owner ≡ z) }
    {
        match self {
            Committer::Alone => None,
            Committer::GoesOn(seat, _) => Some(seat.stay()),
            Committer::Leaves(seat) => Some(seat.stay()),
        }
    }

    /// Where a configuration was stored under this number.
    pub fn stored(self, number: u32) -> Option<Sitting>
        ensures sits { (config : Contents) → sits result ≡ goes_over (base_by self config) number (as_typist self) }
        ensures seats { seats_committer self ≡ false → result ≡ None }
        ensures named { (z : Name) → IsNamedCommitter z self → IfSome result (λ s. s.owner ≡ z) }
    {
        match self {
            Committer::Alone => None,
            Committer::GoesOn(seat, base) => Some(seat.go_over(base, number)),
            Committer::Leaves(seat) => Some(seat.leave()),
        }
    }

    /// Where the zone was removed.
    pub fn removed(self) -> Option<Sitting>
        ensures sits { sits result ≡ goes (as_typist self) }
        ensures seats { seats_committer self ≡ false → result ≡ None }
        ensures named { (z : Name) → IsNamedCommitter z self → IfSome result (λ s. s.owner ≡ z) }
    {
        match self {
            Committer::Alone => None,
            Committer::GoesOn(seat, _) => Some(seat.stay()),
            Committer::Leaves(seat) => Some(seat.leave()),
        }
    }
}
