//! Scripts, and how far each is.
ghost use Rattle.std.specs.Prelude.{◌≡◌, ◌<◌, ℕ, IfOk, length, slice_index_or};
ghost use Rattle.session_records.specs.Records.{awaited, ends, ends_head};
ghost use Rattle.session_runs.specs.Far.{far_after, wait_of, waits_of};
ghost use Rattle.session_runs.specs.declared.far.Far.{Far as Far_of};
ghost use Rattle.zone_machine.specs.Machine.Local.{is_turn_of};

use std::alloc::{AllocError, Global};
use zn_base::{Text, ZoneName};
use zone_cases::{Entry, Event, Head, Subject};
use zoneadmd_steps::TurnReply;

/// What a session types: its number, and its lines.
#[derive(Drop)]
pub struct Script {
    pub session: u8,
    pub lines: Vec<Text>,
}

/// What a session waits for that was answered a ticket: that a turn of this zone's daemon answers it.
#[derive(Drop)]
pub struct Awaited {
    pub zone: ZoneName,
    pub ticket: u32,
}

/// How far a script is: how many of its lines were typed, and what its session waits for.
#[derive(Drop)]
pub struct Far {
    pub done: usize,
    pub awaits: Option<Awaited>,
}

fn is_turn_of(zone: &ZoneName, event: &Event) -> bool
    ensures { result ≡ is_turn_of zone.now event.now }
{
    match event {
        Event::Turn { zone: of } => zone == of,
        _ => false,
    }
}

// Whether a turn that is told so ends the wait for its zone's ticket: it answers it, or is stuck.
fn ends_head(ticket: u32, head: &Head) -> bool
    ensures { result ≡ ends_head ticket head.now }
{
    match head {
        Head::Turned(TurnReply::Finished(finished, _)) => ticket == *finished,
        Head::Turned(TurnReply::Stuck) => true,
        _ => false,
    }
}

fn ends(awaited: &Awaited, entry: &Entry) -> bool
    ensures { result ≡ ends (wait_of awaited.now) entry.now.event entry.now.reply.head }
{
    is_turn_of(&awaited.zone, &entry.event) && ends_head(awaited.ticket, &entry.reply.head)
}

// A session that waits for nothing more, once this turn was taken, says so.
fn note_one(far: &mut Far, entry: &Entry)
    ensures { far.new ≡ far_after entry.now far.old }
{
    let over = match &far.awaits {
        Some(awaited) => ends(awaited, entry),
        None => false,
    };
    if over {
        far.awaits = None;
    }
}

/// Notes a turn for each script.
pub(crate) fn note_turn(far: &mut Vec<Far>, entry: &Entry)
    ensures len { length far.new.items ≡ length far.old.items }
    ensures each { (i : ℕ) (f : Far_of) → i < length far.old.items → slice_index_or far.new.items i f ≡ far_after entry.now (slice_index_or far.old.items i f) }
{
    for one in far.iter_mut() {
        note_one(one, entry);
    }
}

/// What a session waits for whose line was answered so.
pub(crate) fn given_ticket(alloc: Global, entry: &Entry) -> Result<Option<Awaited>, AllocError>
    ensures { IfOk result (λ waits. waits_of waits ≡ awaited entry.now.subject entry.now.reply.head) }
{
    match (&entry.subject, &entry.reply.head) {
        (Subject::Zone(zone), Head::Ticket(ticket)) => Ok(Some(Awaited {
            zone: zone.copy(alloc)?,
            ticket: *ticket,
        })),
        _ => Ok(None),
    }
}
