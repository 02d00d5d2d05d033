//! The lines of an input are read as events, in order, up to where they end.
ghost use Rattle.std.specs.Prelude.{◌≡◌, ◌⊎◌, ◌≤◌, ◌++◌, ◌∷◌, [], Err, IfErr, IfOk, IfSome, IsErrOf, OnErr, OnOk, length};
ghost use Rattle.std.specs.List.{All};
ghost use Rattle.zn_io.specs.Streams.{Rose};
ghost use Rattle.trace_text.specs.Live.{live_of};
ghost use Rattle.live_input.specs.Input.{IsNumbered, Puts, ended_at, input_of, is_typed};

use input_lines::{Ahead, Got, ReadFault, next_line};
use std::alloc::{AllocError, Global};
use trace_text::{LineFault, read_events_are_right, read_live};
use zn_io::Source;
use zone_cases::Event;

/// The greatest number of lines.
pub const LINES_MAX: u64 = 4000;

/// How the lines of an input end. They are numbered from 1.
#[derive(Clone, Copy, Debug, PartialEq, Eq)]
pub enum Ending {
    /// At its end.
    End,
    /// At a line outside the grammar. Never that memory ran out, which is no ending.
    Grammar(u64, LineFault),
    /// At a line after the greatest number of them, or one that is too long.
    Limit(u64),
}

// Whether a session types a line.
fn is_typed(event: &Event) -> bool
    ensures { result ≡ is_typed event.now }
{
    matches!(event, Event::Session { .. })
}

fn put(events: &mut Vec<Event>, event: Event) -> Result<(), AllocError>
    ensures ok { OnOk result (events.new.items ≡ events.old.items ++ event ∷ []) }
    ensures same { OnErr result (events.new.items ≡ events.old.items) }
{
    Ok(events.push(event)?)
}

// Puts the event that a line says, if it says one, after others, of which a session typed one or not. Answers whether one did
// by now.
fn put_line(
    alloc: Global,
    line: &[u8],
    started: bool,
    events: &mut Vec<Event>,
) -> Result<bool, LineFault>
    requires { length line.now ≤ 4200 }
    ensures ok { IfOk result (λ now. Puts (live_of started line.now) started now events.old.items events.new.items) }
    ensures err { IfErr result (λ fault. (fault ≡ LineFault.Memory) ⊎ (live_of started line.now ≡ Err fault)) }
    ensures same { OnErr result (events.new.items ≡ events.old.items) }
{
    match read_live(alloc, line, started)? {
        Some(event) => {
            let now = started || is_typed(&event);
            put(events, event)?;
            Ok(now)
        }
        None => Ok(started),
    }
}

// What a line that can't be read ends the input with.
fn ended_at(number: u64, fault: LineFault) -> Result<Ending, ReadFault>
    ensures { result ≡ ended_at number fault }
{
    match fault {
        LineFault::Memory => Err(ReadFault::Memory),
        fault => Ok(Ending::Grammar(number, fault)),
    }
}

/// Reads all lines of a source, one at a time, up to the first that is outside the grammar or past a limit, and puts the events
/// that they say into a list, which is empty.
pub fn read_lines<S: Source>(
    alloc: Global,
    source: &mut S,
    events: &mut Vec<Event>,
) -> Result<Ending, ReadFault>
    requires { events.old.items ≡ [] }
    ensures whole { IfOk result (λ ending. IfSome (S.left source.old) (λ bytes. record { events = events.new.items; ending = ending } ≡ input_of bytes)) }
    // Each session that types has a number from 1 to 64, whatever the source is known to hold.
    ensures numbered { OnOk result (All IsNumbered events.new.items) }
    ensures failed { IsErrOf result ReadFault.Failed → Rose (S.faults source.old) (S.faults source.new) }
    ensures later { S.faults source.old ≤ S.faults source.new }
{
    // A law, by which each number of a session is one.
    read_events_are_right();
    let mut ahead = Ahead::new();
    let mut line = Vec::new(alloc);
    let mut started = false;
    for before in 0..LINES_MAX {
        match next_line(&mut ahead, source, &mut line)? {
            Got::End => return Ok(Ending::End),
            Got::TooLong => return Ok(Ending::Limit(before + 1)),
            Got::Line => {}
        }
        match put_line(alloc, &line, started, events) {
            Ok(now) => started = now,
            Err(fault) => return ended_at(before + 1, fault),
        }
    }
    if ahead.refill(source)? {
        return Ok(Ending::Limit(LINES_MAX + 1));
    }
    Ok(Ending::End)
}
