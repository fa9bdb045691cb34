//! The law of what bytes are read from, and the failure of a call.

ghost use Rattle.std.specs.Prelude.{◌≡◌, ℕ, ◌<◌, ◌≤◌, Bool, ◌||◌, List, length, IfOk, is_err};
ghost use Rattle.byte_streams.specs.Calls.{carried};

/// A call of a source or a sink has failed.
#[derive(Clone, Copy, Debug, PartialEq, Eq)]
pub struct Failed;

/// What bytes are read from. Contracts know the bytes that each call gave, whether there are none left, and whether a
/// call has failed.
pub trait Source {
    /// A call may give these bytes, and lead from the first state to the second.
    ghost gives: { Self → List ℕ → Self → Type 0 };

    /// There are no bytes left.
    ghost ended: { Self → Type 0 };

    /// A call has failed.
    ghost failed: { Self → Bool };

    /// Reads some bytes into the beginning of the buffer, and answers how many. None are read only at the end, or into an
    /// empty buffer.
    fn read(&mut self, buf: &mut [u8]) -> Result<usize, Failed>
        ensures bound { IfOk result (λ n. n ≤ length buf.new) }
        ensures gives { gives self.old (carried result buf.new) self.new }
        ensures ended { IfOk result (λ n. n ≡ 0 → 0 < length buf.new → ended self.new) }
        ensures failed { failed self.new ≡ (failed self.old || is_err result) };
}
