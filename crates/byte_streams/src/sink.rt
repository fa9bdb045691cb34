//! The law of what bytes are written to.

ghost use Rattle.std.specs.Prelude.{◌≡◌, ℕ, ◌≤◌, Bool, ◌||◌, List, length, IfOk};
ghost use Rattle.byte_streams.specs.Calls.{carried, takes_none};

use super::source::Failed;

/// What bytes are written to. Contracts know the bytes that each call took, and whether a call has failed.
pub trait Sink {
    /// A call may take these bytes, and lead from the first state to the second.
    ghost takes: { Self → List ℕ → Self → Type 0 };

    /// A call has failed, or has taken none of some bytes.
    ghost failed: { Self → Bool };

    /// Writes some bytes of the beginning of the buffer, and answers how many.
    fn write(&mut self, buf: &[u8]) -> Result<usize, Failed>
        ensures bound { IfOk result (λ n. n ≤ length buf.now) }
        ensures takes { takes self.old (carried result buf.now) self.new }
        ensures failed { failed self.new ≡ (failed self.old || takes_none result buf.now) };
}
