//! What a session that is attached types, and what it reads then.
ghost use Rattle.std.specs.Prelude.{◌≡◌, ◌++◌, IfErr, IfOk, OnErr, OnOk};
ghost use Rattle.circular_buffer.specs.Buffer.{keep_last};
ghost use Rattle.console_link.specs.declared.faults.ConsoleFault.TheVariants.{Memory};
ghost use Rattle.console_link.specs.declared.limits.TheConstants.{OUTPUT_MAX};
ghost use Rattle.console_link.specs.Consoles.{emptied, line_of, typed};

use crate::console::Console;
use crate::faults::ConsoleFault;
use crate::limits::OUTPUT_MAX;
use std::alloc::{AllocError, Global};

// The last bytes, as many as a console keeps.
fn latest(alloc: Global, bytes: &[u8]) -> Result<Vec<u8>, AllocError>
    ensures { IfOk result (λ latest. latest.items ≡ keep_last OUTPUT_MAX bytes.now) }
{
    let excess = bytes.len().saturating_sub(OUTPUT_MAX);
    Vec::from_slice(alloc, &bytes[excess..])
}

// Of some bytes and a line after them, the last, as many as a console keeps.
fn with_line(alloc: Global, mut output: Vec<u8>, line: &[u8]) -> Result<Vec<u8>, AllocError>
    ensures { IfOk result (λ latest. latest.items ≡ keep_last OUTPUT_MAX (output.items ++ line_of line.now)) }
{
    output.extend_from_slice(line)?;
    output.push(b'\n')?;
    latest(alloc, &output)
}

impl Console {
    /// What is read next once a line is typed: an empty line writes nothing, and another one comes with a newline after it.
    /// Nothing is written yet. `clear` does the rest.
    pub fn output_after(&self, alloc: Global, line: &[u8]) -> Result<Vec<u8>, ConsoleFault>
        ensures output { IfOk result (λ output. output.items ≡ (typed line.now self.now).output) }
        ensures memory { IfErr result (λ e. e ≡ Memory) }
    {
        let output = self.output(alloc)?;
        if line.is_empty() {
            return Ok(output);
        }
        Ok(with_line(alloc, output, line)?)
    }

    /// A line is typed, and then what is kept is taken. An empty line writes nothing.
    pub fn type_line(&mut self, alloc: Global, line: &[u8]) -> Result<Vec<u8>, ConsoleFault>
        ensures output { IfOk result (λ output. output.items ≡ (typed line.now self.old).output) }
        ensures emptied { OnOk result (self.new ≡ emptied (typed line.now self.old)) }
        ensures memory { IfErr result (λ e. e ≡ Memory) }
        ensures same { OnErr result (self.new ≡ self.old) }
    {
        let output = self.output_after(alloc, line)?;
        self.clear();
        Ok(output)
    }
}
