//! A source over bytes in memory and a sink into them, whose calls can be made to fail.

ghost use Rattle.std.specs.Prelude.{◌≡◌, ◌<◌, ◌≤◌, ◌-◌, ◌||◌, length, take, drop, false, [], ◌++◌, None, Some, IfOk, is_err};
ghost use Rattle.byte_streams.specs.Calls.{carried, takes_none};
ghost use Rattle.byte_streams.specs.Lent.{is_due, one_less, given, refusal_due, one_write_less, is_failing, accepted};

use super::sink::Sink;
use super::source::{Failed, Source};
use super::write_failure::WriteFailure;
use std::marker::Model;

/// A source over bytes that are lent, which gives them in pieces of one size and takes no memory. Contracts see the bytes
/// that are left, the size, and how many calls go well before the one that fails.
#[derive(Drop)]
pub struct FromBytes<'a> {
    left: &'a [u8],
    piece: usize,
    calls_before_failing: Option<u64>,
    has_failed: bool,
}

impl<'a> Model for FromBytes<'a> {
    ghost use Rattle.std.specs.Prelude.{◌<◌};
    ghost use Rattle.byte_streams.specs.Lent.{Left};

    ghost Value = { Left };

    ghost view = { λ s. record { left = s.left.now; piece = s.piece; good_reads = s.calls_before_failing; failed = s.has_failed } };

    ghost invariant = { λ s. 0 < s.piece };
}

impl<'a> FromBytes<'a> {
    /// Gives the bytes, at most `piece` at a call.
    pub fn new(bytes: &'a [u8], piece: usize) -> FromBytes<'a>
        requires { 0 < piece }
        ensures { result ≡ record { left = bytes.now; piece = piece; good_reads = None; failed = false } }
    {
        FromBytes {
            left: bytes,
            piece,
            calls_before_failing: None,
            has_failed: false,
        }
    }

    /// The same, but the call after `calls` calls fails. Those after it go on.
    pub fn failing_after(bytes: &'a [u8], piece: usize, calls: u64) -> FromBytes<'a>
        requires { 0 < piece }
        ensures { result ≡ record { left = bytes.now; piece = piece; good_reads = Some calls; failed = false } }
    {
        FromBytes {
            left: bytes,
            piece,
            calls_before_failing: Some(calls),
            has_failed: false,
        }
    }
}

impl<'a> Source for FromBytes<'a> {
    ghost gives = { λ s bytes t. s.left ≡ bytes ++ t.left };

    ghost ended = { λ s. s.left ≡ [] };

    ghost failed = { λ s. s.failed };

    fn read(&mut self, buf: &mut [u8]) -> Result<usize, Failed>
        ensures bound { IfOk result (λ n. n ≤ length buf.new) }
        ensures gives { self.old.left ≡ carried result buf.new ++ self.new.left }
        ensures ended { IfOk result (λ n. n ≡ 0 → 0 < length buf.new → self.new.left ≡ []) }
        ensures failed { self.new.failed ≡ (self.old.failed || is_err result) }
        ensures fails { is_err result ≡ is_due self.old.good_reads }
        ensures count { IfOk result (λ n. n ≡ given self.old (length buf.old)) }
        ensures bytes { buf.new ≡ take (given self.old (length buf.old)) self.old.left ++ drop (given self.old (length buf.old)) buf.old }
        ensures piece { self.new.piece ≡ self.old.piece }
        ensures good_reads { self.new.good_reads ≡ one_less self.old.good_reads }
    {
        match self.calls_before_failing {
            Some(0) => {
                self.calls_before_failing = None;
                self.has_failed = true;
                return Err(Failed);
            }
            Some(calls) => self.calls_before_failing = Some(calls - 1),
            None => {}
        }
        let count = self.left.len().min(self.piece).min(buf.len());
        let (prefix, rest) = self.left.split_at(count);
        buf[..count].copy_from_slice(prefix);
        self.left = rest;
        Ok(count)
    }
}

/// A sink into bytes that are lent, which takes pieces of one size and no memory. Where they are full it takes nothing.
/// Contracts see the bytes taken so far, how many more have room, the size, and which call goes wrong, and how.
#[derive(Drop)]
pub struct ToBytes<'a> {
    room: &'a mut [u8],
    len: usize,
    piece: usize,
    refusal: Option<(u64, WriteFailure)>,
    has_failed: bool,
}

impl<'a> Model for ToBytes<'a> {
    ghost use Rattle.std.specs.Prelude.{◌≤◌, ◌-◌, length, take};
    ghost use Rattle.byte_streams.specs.Lent.{Written};

    ghost Value = { Written };

    ghost view = { λ s. record { taken = take s.len s.room.now; room = length s.room.now - s.len; piece = s.piece; refuses = s.refusal; failed = s.has_failed } };

    ghost invariant = { λ s. s.len ≤ length s.room.now };
}

impl<'a> ToBytes<'a> {
    /// Takes bytes into the room, at most `piece` at a call.
    pub fn new(room: &'a mut [u8], piece: usize) -> ToBytes<'a>
        ensures { result ≡ record { taken = []; room = length room.old; piece = piece; refuses = None; failed = false } }
    {
        ToBytes {
            room,
            len: 0,
            piece,
            refusal: None,
            has_failed: false,
        }
    }

    /// The same, but the call after `calls` calls goes wrong. Those after it go on.
    pub fn refusing_after(
        room: &'a mut [u8],
        piece: usize,
        calls: u64,
        refusal: WriteFailure,
    ) -> ToBytes<'a>
        ensures { result ≡ record { taken = []; room = length room.old; piece = piece; refuses = Some (calls, refusal); failed = false } }
    {
        ToBytes {
            room,
            len: 0,
            piece,
            refusal: Some((calls, refusal)),
            has_failed: false,
        }
    }

    /// The bytes taken so far.
    pub fn taken(&self) -> &[u8]
        ensures { result.now ≡ self.now.taken }
    {
        &self.room[..self.len]
    }
}

impl<'a> Sink for ToBytes<'a> {
    ghost takes = { λ s bytes t. t.taken ≡ s.taken ++ bytes };

    ghost failed = { λ s. s.failed };

    fn write(&mut self, buf: &[u8]) -> Result<usize, Failed>
        ensures bound { IfOk result (λ n. n ≤ length buf.now) }
        ensures takes { self.new.taken ≡ self.old.taken ++ carried result buf.now }
        ensures failed { self.new.failed ≡ (self.old.failed || takes_none result buf.now) }
        ensures fails { is_err result ≡ is_failing (refusal_due self.old.refuses) }
        ensures count { IfOk result (λ n. n ≡ accepted self.old (length buf.now)) }
        ensures room { self.new.room ≡ self.old.room - accepted self.old (length buf.now) }
        ensures piece { self.new.piece ≡ self.old.piece }
        ensures refuses { self.new.refuses ≡ one_write_less self.old.refuses }
    {
        match self.refusal {
            Some((0, refusal)) => {
                self.refusal = None;
                return match refusal {
                    WriteFailure::Fails => {
                        self.has_failed = true;
                        Err(Failed)
                    }
                    WriteFailure::TakesNothing => {
                        self.has_failed = self.has_failed || !buf.is_empty();
                        Ok(0)
                    }
                };
            }
            Some((calls, refusal)) => self.refusal = Some((calls - 1, refusal)),
            None => {}
        }
        let taken = (self.room.len() - self.len).min(self.piece).min(buf.len());
        let end = self.len + taken;
        self.room[self.len..end].copy_from_slice(&buf[..taken]);
        self.len = end;
        self.has_failed = self.has_failed || (taken == 0 && !buf.is_empty());
        Ok(taken)
    }
}
