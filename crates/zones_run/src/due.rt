//! The event that a line says, and the grant that the line states, if it does.
ghost use Rattle.std.specs.Prelude.{◌≤◌, length};
ghost use Rattle.zn_base.specs.Answers.{AnswersUnless};
ghost use Rattle.trace_text.specs.Lines.{event_of};
ghost use Rattle.zones_run.specs.Scripts.{due_said, said_by};

use crate::words::Mode;
use std::alloc::Global;
use trace_text::{LineFault, read_given, read_line};
use zone_cases::Event;
use zone_pools::Grant;

/// An event that is to be answered: under the grant that is stated, or else under the one that the pools give.
#[derive(Drop)]
pub struct Due {
    pub event: Event,
    pub stated: Option<Grant>,
}

// A line that states a grant.
#[inline(always)]
fn read_stated(alloc: Global, line: &[u8], started: bool) -> Result<Option<Due>, LineFault>
    requires { length line.now ≤ 4200 }
    ensures { AnswersUnless LineFault.Memory (said_by Mode.Stated started line.now) result }
{
    match read_given(alloc, line, started) {
        Ok(Some((grant, event))) => Ok(Some(Due {
            event,
            stated: Some(grant),
        })),
        Ok(None) => Ok(None),
        Err(fault) => Err(fault),
    }
}

// A line that states none.
#[inline(always)]
fn read_unstated(alloc: Global, line: &[u8], started: bool) -> Result<Option<Due>, LineFault>
    requires { length line.now ≤ 4200 }
    ensures { AnswersUnless LineFault.Memory (due_said (event_of started line.now)) result }
{
    match read_line(alloc, line, started) {
        Ok(Some(event)) => Ok(Some(Due {
            event,
            stated: None,
        })),
        Ok(None) => Ok(None),
        Err(fault) => Err(fault),
    }
}

/// What a line says that may be an event, by whether one that counts has come.
#[inline(always)]
pub fn read_due(
    alloc: Global,
    mode: &Mode,
    line: &[u8],
    started: bool,
) -> Result<Option<Due>, LineFault>
    requires { length line.now ≤ 4200 }
    ensures { AnswersUnless LineFault.Memory (said_by mode.now started line.now) result }
{
    match mode {
        Mode::Stated => read_stated(alloc, line, started),
        Mode::Replies | Mode::WithTurns(_) | Mode::Purged(_) => read_unstated(alloc, line, started),
    }
}
