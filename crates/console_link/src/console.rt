//! The console of one zone.
ghost use Rattle.std.specs.Prelude.{◌≡◌, ◌≤◌, IfErr, IfOk, Ok, OnErr, OnOk, length};
ghost use Rattle.console_link.specs.declared.faults.ConsoleFault.TheVariants.{Memory};
ghost use Rattle.console_link.specs.declared.limits.TheConstants.{OUTPUT_MAX};
ghost use Rattle.console_link.specs.Consoles.{attach_answer, attached, detached, emptied, is_in_use, line_of, new_console, written};

use crate::faults::ConsoleFault;
use crate::limits::OUTPUT_MAX;
use circular_buffer::HeapCircularBuffer;
use std::alloc::Global;
use std::marker::Model;

/// The console of one zone. Contracts see `Console` of `Consoles`: the bytes that are kept and that nobody has taken,
/// and the number of the session that is attached. It has no zone's name.
#[derive(Drop)]
pub struct Console {
    ring: HeapCircularBuffer<u8>,
    session: Option<u8>,
}

impl Model for Console {
    ghost use Rattle.std.specs.Prelude.{◌≡◌};
    ghost use Rattle.console_link.specs.Consoles.{Console};
    ghost use Rattle.console_link.specs.declared.limits.TheConstants.{OUTPUT_MAX};

    ghost Value = { Console };

    ghost view = { λ c. record { output = c.ring.items; holder = c.session } };

    ghost invariant = { λ c. c.ring.capacity ≡ OUTPUT_MAX };
}

impl Console {
    /// A console that nothing was written to and that no session has. The memory of all that it may keep is taken here.
    pub fn new(alloc: Global) -> Result<Self, ConsoleFault>
        ensures console { IfOk result (λ console. console ≡ new_console) }
        ensures memory { IfErr result (λ e. e ≡ Memory) }
    {
        let ring = HeapCircularBuffer::with_capacity(alloc, OUTPUT_MAX)?;
        Ok(Console {
            ring,
            session: None,
        })
    }

    /// The session that is attached.
    pub fn holder(&self) -> Option<u8>
        ensures { result ≡ self.now.holder }
    {
        self.session
    }

    /// Whether the console keeps a byte or has a session. One that doesn't is as a new one.
    pub fn in_use(&self) -> bool
        ensures { result ≡ is_in_use self.now }
    {
        !self.ring.is_empty() || self.session.is_some()
    }

    /// Bytes are written: of those that were kept and these, the last 4,096 are kept.
    pub fn write(&mut self, bytes: &[u8])
        ensures { self.new ≡ written bytes.now self.old }
    {
        self.ring.extend_from_slice(bytes);
    }

    /// A text is written, and a newline after it.
    pub fn write_line(&mut self, text: &[u8])
        ensures { self.new ≡ written (line_of text.now) self.old }
    {
        self.write(text);
        self.write(b"\n");
    }

    /// What is read next: the bytes that are kept and that nobody has taken, 4,096 at most. They stay. `clear` does the rest.
    pub fn output(&self, alloc: Global) -> Result<Vec<u8>, ConsoleFault>
        ensures output { IfOk result (λ output. output.items ≡ self.now.output) }
        ensures few { length self.now.output ≤ OUTPUT_MAX }
        ensures memory { IfErr result (λ e. e ≡ Memory) }
    {
        // The ring's length is within its capacity, which `few` needs.
        let _length = self.ring.len();
        Ok(self.ring.to_vec(alloc)?)
    }

    /// Nothing is kept from now on. Whoever has the console still has it.
    pub fn clear(&mut self)
        ensures { self.new ≡ emptied self.old }
    {
        self.ring.clear();
    }

    /// What is kept is taken: it is answered, and kept no more.
    pub fn take_output(&mut self, alloc: Global) -> Result<Vec<u8>, ConsoleFault>
        ensures output { IfOk result (λ output. output.items ≡ self.old.output) }
        ensures emptied { OnOk result (self.new ≡ emptied self.old) }
        ensures memory { IfErr result (λ e. e ≡ Memory) }
        ensures same { OnErr result (self.new ≡ self.old) }
    {
        let output = self.output(alloc)?;
        self.clear();
        Ok(output)
    }

    /// Whether a session may be attached: `Taken` where one is. `attach_free` does the rest.
    pub fn check_attach(&self) -> Result<(), ConsoleFault>
        ensures { result ≡ attach_answer self.now }
    {
        match self.session {
            Some(_) => Err(ConsoleFault::Taken),
            None => Ok(()),
        }
    }

    /// A session is attached to a console that none has, as `check_attach` tells. What is kept stays, so that it can take
    /// what was written before.
    pub fn attach_free(&mut self, session: u8)
        requires { attach_answer self.old ≡ Ok tt }
        ensures { self.new ≡ attached session self.old }
    {
        self.session = Some(session);
    }

    /// A session is attached: `Taken` where one is already.
    pub fn attach(&mut self, session: u8) -> Result<(), ConsoleFault>
        ensures result { result ≡ attach_answer self.old }
        ensures attached { OnOk result (self.new ≡ attached session self.old) }
        ensures same { OnErr result (self.new ≡ self.old) }
    {
        self.check_attach()?;
        self.attach_free(session);
        Ok(())
    }

    /// No session is attached from now on. The one that was is answered. What is kept stays.
    pub fn detach(&mut self) -> Option<u8>
        ensures session { result ≡ self.old.holder }
        ensures detached { self.new ≡ detached self.old }
    {
        self.session.take()
    }
}
