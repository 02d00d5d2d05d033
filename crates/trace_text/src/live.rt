//! Lines of live sessions, read as what these type and what is declared, and the record of such sessions, printed.
ghost use Rattle.std.specs.Prelude.{◌≡◌, ◌≤◌, ◌++◌, OnOk, length};
ghost use Rattle.zn_base.specs.Answers.{AnswersUnless};
ghost use Rattle.trace_text.specs.Live.{entry_text, is_traced, live_of};

use crate::LineFault;
use crate::lines::{push_given, read_line};
use crate::replies::{push_reply, subject_text};
use std::alloc::{AllocError, Global};
use zn_base::split_at_byte;
use zone_cases::{Entry, Event};

// Whether a tag is one that a trace alone has.
fn is_traced(tag: &[u8]) -> bool
    ensures { result ≡ is_traced tag.now }
{
    tag == b"D".as_slice() || tag == b"P".as_slice() || tag == b"R".as_slice()
}

/// The event that a line says, which has at most 4,200 bytes, where sessions are live: what one of them types, or a
/// declaration, as `read_line` reads it. A daemon takes its turns unasked there, a process's calls are typed, and nothing
/// restarts the system: so the tags `D`, `P` and `R` are none. `started` is whether a session's line has come before: then
/// no declaration may. A blank line and a comment say no event.
pub fn read_live(alloc: Global, line: &[u8], started: bool) -> Result<Option<Event>, LineFault>
    requires { length line.now ≤ 4200 }
    ensures { AnswersUnless LineFault.Memory (live_of started line.now) result }
{
    let (tag, _) = split_at_byte(line, b' ');
    if is_traced(tag) {
        return Err(LineFault::BadTag);
    }
    read_line(alloc, line, started)
}

/// Puts an entry as a record of live sessions has it, after others: behind `> ` the line of its event, with what it was given, and
/// then the lines of its reply.
#[tactic(auto, unfolding(crate::specs::Replies::reply_text))]
pub fn push_entry(out: &mut Vec<u8>, entry: &Entry) -> Result<(), AllocError>
    ensures { OnOk result (out.new.items ≡ out.old.items ++ entry_text entry.now) }
{
    out.extend_from_slice(b"> ")?;
    push_given(out, entry.grant, &entry.event)?;
    out.push(b'\n')?;
    push_reply(out, subject_text(&entry.subject), &entry.reply)
}
