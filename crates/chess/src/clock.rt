//! The machine's clock, by which the engine keeps time.

use chess_cli::Clock;
use std::time::Instant;

/// The machine's clock, from when the program began. Contracts allow it any reading.
#[derive(Drop)]
pub struct MachineClock<'r> {
    rt: &'r HostRuntime,
    begun: Option<Instant>,
}

impl<'r> MachineClock<'r> {
    /// The clock from now on. Where the machine gives no time it reads 0.
    pub fn new(rt: &'r HostRuntime) -> MachineClock<'r> {
        let begun = Instant::now(rt).ok();
        MachineClock { rt, begun }
    }
}

impl<'r> Clock for MachineClock<'r> {
    ghost reads = { λ c moment d. Unit {0} };

    fn now_ms(&mut self) -> u64 {
        let Some(begun) = &self.begun else {
            return 0;
        };
        match begun.elapsed(self.rt) {
            Ok(elapsed) => u64::try_from(elapsed.as_millis()).unwrap_or(u64::MAX),
            Err(_) => 0,
        }
    }
}
