//! Sinks: where bytes go, in pieces.
ghost use Rattle.std.specs.Prelude.{◌≡◌, ◌<◌, ◌≤◌, ℕ, List, length, take, drop, OnOk, OnErr, IfOk, Option};
ghost use Rattle.zn_io.specs.Streams.{HasCause, TakesFront, after_known};

use crate::Failed;

/// Bytes that are written in pieces.
pub trait Sink {
    /// The bytes that the sink has taken, where it shows them.
    ghost holds: { Self → Option (List ℕ) };

    /// How often the sink has failed. The count stands still at 2^64 - 1.
    ghost faults: { Self → ℕ };

    /// Takes at least one byte from the front of `bytes`, and says how many. A fault takes none.
    fn write(&mut self, bytes: &[u8]) -> Result<usize, Failed>
        requires { 0 < length bytes.now }
        ensures some { IfOk result (λ n. 0 < n) }
        ensures bound { IfOk result (λ n. n ≤ length bytes.now) }
        ensures bytes { IfOk result (λ n. holds self.new ≡ after_known (holds self.old) (take n bytes.now)) }
        ensures err { OnErr result (holds self.new ≡ holds self.old) }
        ensures cause { HasCause (faults self.old) (faults self.new) result };
}

/// Writes all of the bytes; where the sink fails, it has taken a front of them.
pub fn write_all<K: Sink>(sink: &mut K, bytes: &[u8]) -> Result<(), Failed>
    ensures all { OnOk result (K.holds sink.new ≡ after_known (K.holds sink.old) bytes.now) }
    ensures front { TakesFront (K.holds sink.old) (K.holds sink.new) (K.faults sink.old) (K.faults sink.new) bytes.now }
    ensures cause { HasCause (K.faults sink.old) (K.faults sink.new) result }
{
    let mut taken = 0;
    while taken < bytes.len() {
        taken += sink.write(rest_from(bytes, taken))?;
    }
    Ok(())
}

fn rest_from(bytes: &[u8], at: usize) -> &[u8]
    requires { at ≤ length bytes.now }
    ensures { result.now ≡ drop at bytes.now }
{
    &bytes[at..]
}
