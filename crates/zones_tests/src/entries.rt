//! What events come to: what the pools give them, and the text of the replies.
ghost use Rattle.std.specs.Prelude.{IsOk, OnOk};

use crate::kept::Kept;
use crate::texts::is_same;
use std::alloc::Global;
use std::test::Fail;
use trace_text::{LineFault, print_reply, push_answer, read_line};
use zone_cases::{Answer, Entry, Event, Whose};
use zone_machine::StepFault;
use zone_pools::Grant;

/// What an event is to come to: what the pools give it and the text of its reply, or why it isn't answered.
pub type Told = Result<(Grant, &'static [u8]), StepFault>;

/// The event of a line of a trace, if it is one.
pub fn event_of(alloc: Global, line: &[u8]) -> Result<Option<Event>, LineFault> {
    if line.len() > 4096 {
        return Ok(None);
    }
    read_line(alloc, line, false)
}

/// Whether an event with this grant, of which this text tells, came to what it is to.
pub fn is_told(grant: Grant, text: &[u8], told: &Told) -> bool {
    match told {
        Ok((wanted, reply)) => grant == *wanted && is_same(text, reply),
        Err(_) => false,
    }
}

// The same of an entry.
fn is_entry(alloc: Global, entry: &Entry, told: &Told) -> Result<bool, Fail> {
    let text = print_reply(alloc, &entry.subject, &entry.reply)?;
    Ok(is_told(entry.grant, &text, told))
}

/// The same of an entry that is let go.
pub fn was_told(alloc: Global, entry: Entry, told: &Told) -> Result<bool, Fail> {
    let entry = Kept(entry);
    is_entry(alloc, &entry.0, told)
}

/// The same of an event that was to be answered.
pub fn came_to(alloc: Global, came: Result<Entry, StepFault>, told: &Told) -> Result<bool, Fail>
    ensures { OnOk result (IsOk came) }
{
    match came {
        Ok(entry) => was_told(alloc, entry, told),
        Err(fault) => Err(fault.into()),
    }
}

// The same of an answer, which is to say of a session's line whose it is found to be, and of no other event.
fn is_answer(alloc: Global, event: &Event, answer: &Answer, told: &Told) -> Result<bool, Fail> {
    let mut text = Vec::new(alloc);
    push_answer(&mut text, event, answer)?;
    let is_found = matches!(answer.whose, Whose::Found(_));
    Ok(is_found == matches!(event, Event::Session { .. }) && is_told(answer.grant, &text, told))
}

/// The same of an event that was lent.
pub fn answered(
    alloc: Global,
    event: &Event,
    came: Result<Answer, StepFault>,
    told: &Told,
) -> Result<bool, Fail>
    ensures { OnOk result (IsOk came) }
{
    match came {
        Ok(answer) => {
            let answer = Kept(answer);
            is_answer(alloc, event, &answer.0, told)
        }
        Err(fault) => Err(fault.into()),
    }
}
