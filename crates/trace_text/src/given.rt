//! Lines of a trace whose events are behind what they were given, read as both.
ghost use Rattle.std.specs.Prelude.{◌≡◌, ◌≤◌, length};
ghost use Rattle.zn_base.specs.Answers.{AnswersUnless};
ghost use Rattle.trace_text.specs.Given.{IsAt, given_of, moved};

use crate::LineFault;
use crate::lines::{is_no_event, read_line};
use grant_text::read_grant;
use std::alloc::Global;
use zone_cases::Event;
use zone_pools::Grant;

// A fault of what begins at a place of its line.
fn moved(place: usize, fault: LineFault) -> LineFault
    requires place { place ≤ 4200 }
    requires fault { IsAt 4200 fault }
    ensures { result ≡ moved place fault }
{
    match fault {
        LineFault::BadWord(at) => LineFault::BadWord(place + at),
        _ => fault,
    }
}

/// The grant and the event that a line says, which has at most 4,200 bytes: the text of the grant, as `push_grant` writes
/// it, one space and the event's own line, as `read_line` reads it. `started` is the same there. A blank line and a comment
/// say neither, but behind a grant they are a fault: an event has to stand there. Places count from the beginning of the
/// line.
pub fn read_given(
    alloc: Global,
    line: &[u8],
    started: bool,
) -> Result<Option<(Grant, Event)>, LineFault>
    requires { length line.now ≤ 4200 }
    ensures { AnswersUnless LineFault.Memory (given_of started line.now) result }
{
    if is_no_event(line) {
        return Ok(None);
    }
    let Some((grant, rest)) = read_grant(line) else {
        return Err(LineFault::GrantForm);
    };
    match read_line(alloc, rest, started) {
        Ok(Some(event)) => Ok(Some((grant, event))),
        Ok(None) => Err(LineFault::BadTag),
        Err(fault) => Err(moved(line.len() - rest.len(), fault)),
    }
}
