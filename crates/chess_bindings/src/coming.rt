//! Bytes of a text of which more may come, as a source.
ghost use Rattle.std.specs.Prelude.{◌≡◌, ◌≤◌, ◌<◌, ◌||◌, length, false, IfOk, is_err};
ghost use Rattle.byte_streams.specs.Calls.{carried};
ghost use Rattle.chess_bindings.specs.Coming.{GivesSome, HasEnded};

use byte_streams::{Failed, Source};
use std::marker::Model;

/// The most bytes that a read gives: games are small, and what a read gives is copied.
const PIECE: usize = 4096;

/// A source over bytes that are lent, the last of a text or not: where none is left and more may come, a read fails.
#[derive(Drop)]
pub struct Coming<'a> {
    left: &'a [u8],
    is_last: bool,
    has_failed: bool,
}

impl<'a> Model for Coming<'a> {
    ghost use Rattle.std.specs.Prelude.{◌≡◌, [], true, false};
    ghost use Rattle.chess_bindings.specs.Coming as coming;

    ghost Value = { coming.Coming };

    ghost view = { λ s. record { left = s.left.now; is_last = s.is_last; failed = s.has_failed } };

    ghost invariant = { λ s. s.has_failed ≡ true → (s.left.now ≡ []) × (s.is_last ≡ false) };
}

impl<'a> Coming<'a> {
    /// The bytes, after which nothing follows, or something may.
    pub fn new(text: &'a [u8], is_last: bool) -> Coming<'a>
        ensures { result ≡ record { left = text.now; is_last = is_last; failed = false } }
    {
        Coming {
            left: text,
            is_last,
            has_failed: false,
        }
    }
}

impl<'a> Source for Coming<'a> {
    ghost gives = { λ s bytes t. GivesSome s bytes t };

    ghost ended = { λ s. HasEnded s };

    ghost failed = { λ s. s.failed };

    fn read(&mut self, buf: &mut [u8]) -> Result<usize, Failed>
        ensures bound { IfOk result (λ n. n ≤ length buf.new) }
        ensures gives { GivesSome self.old (carried result buf.new) self.new }
        ensures ended { IfOk result (λ n. n ≡ 0 → 0 < length buf.new → HasEnded self.new) }
        ensures failed { self.new.failed ≡ (self.old.failed || is_err result) }
    {
        if self.left.is_empty() && !self.is_last {
            self.has_failed = true;
            return Err(Failed);
        }
        let count = self.left.len().min(PIECE).min(buf.len());
        let (prefix, rest) = self.left.split_at(count);
        buf[..count].copy_from_slice(prefix);
        self.left = rest;
        Ok(count)
    }
}
