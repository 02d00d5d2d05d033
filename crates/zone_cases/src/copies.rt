//! Copies of events, of replies and of entries, each equal to what it copies.
ghost use Rattle.std.specs.Prelude.{◌≡◌, IfOk};

pub(crate) mod calls;
pub(crate) mod refusals;
pub(crate) mod replies;
pub(crate) mod turns;

use crate::copies::calls::copy_call;
use crate::copies::replies::{copy_body, copy_head};
use crate::events::{Declaration, Entry, Event, Subject};
use crate::replies::Reply;
use std::alloc::{AllocError, Global};

fn copy_declaration(alloc: Global, what: &Declaration) -> Result<Declaration, AllocError>
    ensures { IfOk result (λ copy. copy ≡ what.now) }
{
    match what {
        Declaration::Item(kind, item) => Ok(Declaration::Item(*kind, item.copy(alloc)?)),
        Declaration::Device(path) => Ok(Declaration::Device(path.copy(alloc)?)),
    }
}

fn copy_subject(alloc: Global, subject: &Subject) -> Result<Subject, AllocError>
    ensures { IfOk result (λ copy. copy ≡ subject.now) }
{
    match subject {
        Subject::Zone(zone) => Ok(Subject::Zone(zone.copy(alloc)?)),
        Subject::Global => Ok(Subject::Global),
        Subject::Whole => Ok(Subject::Whole),
    }
}

impl Event {
    /// An equal event.
    pub fn copy(&self, alloc: Global) -> Result<Event, AllocError>
        ensures { IfOk result (λ event. event ≡ self.now) }
    {
        match self {
            Event::Session { number, text } => Ok(Event::Session {
                number: *number,
                text: text.copy(alloc)?,
            }),
            Event::Turn { zone } => Ok(Event::Turn {
                zone: zone.copy(alloc)?,
            }),
            Event::Process { zone, pid, call } => Ok(Event::Process {
                zone: zone.copy(alloc)?,
                pid: *pid,
                call: copy_call(alloc, call)?,
            }),
            Event::System(what) => Ok(Event::System(copy_declaration(alloc, what)?)),
            Event::Restart => Ok(Event::Restart),
        }
    }
}

impl Reply {
    /// An equal reply.
    pub fn copy(&self, alloc: Global) -> Result<Reply, AllocError>
        ensures { IfOk result (λ reply. reply ≡ self.now) }
    {
        Ok(Reply {
            head: copy_head(alloc, &self.head)?,
            body: copy_body(alloc, &self.body)?,
        })
    }
}

impl Entry {
    /// An equal entry.
    pub fn copy(&self, alloc: Global) -> Result<Entry, AllocError>
        ensures { IfOk result (λ entry. entry ≡ self.now) }
    {
        Ok(Entry {
            event: self.event.copy(alloc)?,
            subject: copy_subject(alloc, &self.subject)?,
            grant: self.grant,
            reply: self.reply.copy(alloc)?,
        })
    }
}
