//! How far the reading of a collection has come, shown on the standard error once a second.

use std::time::{Duration, Instant};

/// How far the reading of a collection has come, on the standard error, where that is asked for. A fault of the standard error is ignored.
#[derive(Drop)]
pub struct Progress<'r> {
    rt: &'r HostRuntime,
    shown: Option<Instant>,
}

impl<'r> Progress<'r> {
    /// With `is_shown` a line once a second, if the machine has a clock.
    pub fn new(rt: &'r HostRuntime, is_shown: bool) -> Progress<'r> {
        let shown = if is_shown {
            Instant::now(rt).ok()
        } else {
            None
        };
        Progress { rt, shown }
    }

    /// A line with the bytes and games so far, if a second has passed since the last.
    pub fn show(&mut self, bytes: u64, games: u64) {
        let Some(last) = &self.shown else {
            return;
        };
        let Ok(now) = Instant::now(self.rt) else {
            return;
        };
        if now.duration_since(*last) >= Duration::from_secs(1) {
            self.shown = Some(now);
            let _ = eprintln!(self.rt; "{bytes} bytes, {games} games");
        }
    }
}
