//! Sources: where bytes come from, in pieces.
ghost use Rattle.std.specs.Prelude.{◌≡◌, ◌<◌, ◌≤◌, ℕ, List, length, take, OnErr, IfOk, Option};
ghost use Rattle.std.specs.Io.KnownBytes.{IsAtEnd};
ghost use Rattle.zn_io.specs.Streams.{HasCause, before_known};

use thiserror::Error;

/// A source, a sink or a disk that was handed in has failed, and has counted it.
#[derive(Clone, Copy, Debug, PartialEq, Eq, Error)]
#[error("what was handed in has failed")]
pub struct Failed;

/// Bytes that are read in pieces.
pub trait Source {
    /// The bytes that are left, where the source shows them.
    ghost left: { Self → Option (List ℕ) };

    /// How often the source has failed. The count stands still at 2^64 - 1.
    ghost faults: { Self → ℕ };

    /// Fills the front of `into`, and says how many bytes that took. No byte means the end of the
    /// input. After a fault nothing that was left is lost.
    fn read(&mut self, into: &mut [u8]) -> Result<usize, Failed>
        requires { 0 < length into.old }
        ensures bound { IfOk result (λ n. n ≤ length into.new) }
        ensures bytes { IfOk result (λ n. left self.old ≡ before_known (take n into.new) (left self.new)) }
        ensures end { IfOk result (λ n. n ≡ 0 → IsAtEnd (left self.new)) }
        ensures err { OnErr result (left self.new ≡ left self.old) }
        ensures cause { HasCause (faults self.old) (faults self.new) result };
}
