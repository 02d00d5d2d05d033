//! What an entry says, as far as sessions look at it.
ghost use Rattle.std.specs.Prelude.{◌≡◌};
ghost use Rattle.daemon_threads.specs.Definitions.{line_says, said_by, session_of, told, turn_says, turned_says};

use zone_cases::{Entry, Event, Head};
use zone_threads::{Said, Told};
use zoneadmd_steps::TurnReply;

// Stands for a session where there is none.
const NO_SESSION: u8 = 255;

// The session whose line an event is, 0 of a turn, and of any other event that there is none.
fn session_of(event: &Event) -> u8
    ensures { result ≡ session_of event.now }
{
    match event {
        Event::Session { number: 0, .. } => NO_SESSION,
        Event::Session { number, .. } => *number,
        Event::Turn { .. } => 0,
        Event::Process { .. } | Event::System(_) | Event::Restart => NO_SESSION,
    }
}

fn turn_says(reply: &TurnReply) -> Said
    ensures { result ≡ turn_says reply.now }
{
    match reply {
        TurnReply::Idle => Said::Idle,
        TurnReply::Finished(ticket, _) => Said::Finished(*ticket),
        TurnReply::Stuck => Said::Stuck,
        TurnReply::Began(_, _)
        | TurnReply::Stepped(_)
        | TurnReply::Failed(_, _)
        | TurnReply::Undone(_) => Said::Other,
    }
}

fn turned_says(head: &Head) -> Said
    ensures { result ≡ turned_says head.now }
{
    match head {
        Head::Turned(reply) => turn_says(reply),
        Head::Ok | Head::Ticket(_) | Head::Refused(_) | Head::Status(_) => Said::Other,
    }
}

fn line_says(head: &Head) -> Said
    ensures { result ≡ line_says head.now }
{
    match head {
        Head::Ticket(ticket) => Said::Ticket(*ticket),
        Head::Ok | Head::Refused(_) | Head::Turned(_) | Head::Status(_) => Said::Other,
    }
}

fn said_by(event: &Event, head: &Head) -> Said
    ensures { result ≡ said_by event.now head.now }
{
    match event {
        Event::Session { .. } => line_says(head),
        Event::Turn { .. } => turned_says(head),
        Event::Process { .. } | Event::System(_) | Event::Restart => Said::Other,
    }
}

/// Whose line an entry is, or that it is a turn, and what it says.
pub(crate) fn told(entry: &Entry) -> Told
    ensures { result ≡ told entry.now }
{
    Told {
        session: session_of(&entry.event),
        said: said_by(&entry.event, &entry.reply.head),
    }
}
