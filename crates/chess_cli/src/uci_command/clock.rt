//! The law of a clock that is asked for the time.

/// A clock. Contracts know which readings a call may give: of a clock that is asked for the machine's time, any.
pub trait Clock {
    ghost use Rattle.std.specs.Prelude.{ℕ};

    /// A call may give this reading, and lead from the first state to the second.
    ghost reads: { Self → ℕ → Self → Type 0 };

    /// The milliseconds since some moment.
    fn now_ms(&mut self) -> u64
        ensures { reads self.old result self.new };
}
