//! Events, their subjects, and what is replied to them.
ghost use Rattle.std.specs.Prelude.{◌≡◌};
ghost use Rattle.zone_cases.specs.Events.{is_restart};

use crate::replies::Reply;
use datalink_table::ClaimKind;
use process_calls::Call;
use zn_base::{AbsPath, Text, ZoneName};
use zone_pools::Grant;

/// Whom an event belongs to.
#[derive(Drop)]
pub enum Subject {
    Zone(ZoneName),
    Global,
    /// The whole system.
    Whole,
}

/// The greatest number of a session, of which the least is 1.
pub const SESSION_MAX: u8 = 64;

/// What is declared for zones to ask for, before anything else comes.
#[derive(Drop)]
pub enum Declaration {
    /// A link, an address or a dataset, which one zone holds at most.
    Item(ClaimKind, Text),
    /// A device, by its path, which any number of zones may be given.
    Device(AbsPath),
}

/// One atomic step of the machine.
#[derive(Drop)]
pub enum Event {
    /// A session, numbered from 1 to `SESSION_MAX`, types a line.
    Session {
        number: u8,
        text: Text,
    },
    /// The daemon of a zone takes a turn.
    Turn {
        zone: ZoneName,
    },
    /// A process of a zone makes a call.
    Process {
        zone: ZoneName,
        pid: u32,
        call: Call,
    },
    /// The whole system declares something.
    System(Declaration),
    /// The whole system restarts.
    Restart,
}

impl Event {
    /// Whether the whole system restarts.
    pub fn is_restart(&self) -> bool
        ensures { result ≡ is_restart self.now }
    {
        matches!(self, Event::Restart)
    }
}

/// Whose an event was, without a copy of the name that the event itself has.
#[derive(Drop)]
pub enum Whose {
    /// The zone that the event has: of a turn the daemon's, of a call the process's; of a declaration and of a restart the whole
    /// system.
    Own,
    /// What was found: the zone that a session's line is for, or the global zone.
    Found(Subject),
}

/// What an event that was lent is answered: whose it was, what the pools gave it, and the reply.
#[derive(Drop)]
pub struct Answer {
    pub whose: Whose,
    pub grant: Grant,
    pub reply: Reply,
}

/// An event that was answered: whose it was, what the pools gave it, and the reply.
#[derive(Drop)]
pub struct Entry {
    pub event: Event,
    pub subject: Subject,
    pub grant: Grant,
    pub reply: Reply,
}
