//! What a line keeps of each move, in 16 bytes.

ghost use Rattle.std.specs.Prelude.{◌≡◌, None, if◌then◌else◌};
ghost use Rattle.chess_draws.specs.steps.KeptPlies.{passed_counting, passed_of, passed_target};

use chess_play::Record;
use chess_types::{Content, KeptMove, Move, Rights, Square};
use std::marker::Model;

// The en passant target before a move: one on which no legal move captures, or one that counts (FIDE Laws 9.2.3.1).
#[derive(Clone, Copy)]
enum Passed {
    Nothing,
    Idle(Square),
    Counting(Square),
}

impl Passed {
    #[inline(always)]
    fn of(target: Option<Square>, counts: bool) -> Passed
        ensures { result ≡ passed_of counts target }
    {
        match target {
            None => Passed::Nothing,
            Some(at) => {
                if counts {
                    Passed::Counting(at)
                } else {
                    Passed::Idle(at)
                }
            }
        }
    }

    // The target, whether it counts or doesn't.
    #[inline(always)]
    fn target(self) -> Option<Square>
        ensures { result ≡ passed_target self }
    {
        match self {
            Passed::Nothing => None,
            Passed::Idle(at) | Passed::Counting(at) => Some(at),
        }
    }

    // The target where it counts.
    #[inline(always)]
    fn counting(self) -> Option<Square>
        ensures { result ≡ passed_counting self }
    {
        match self {
            Passed::Nothing | Passed::Idle(_) => None,
            Passed::Counting(at) => Some(at),
        }
    }
}

/// What is kept of a move of a line, in 16 bytes: the record by which it is taken back, and the en passant target before it, where it counted. Contracts
/// see both.
#[derive(Clone, Copy)]
pub(crate) struct Ply {
    played: KeptMove,
    captured: Content,
    rights: Rights,
    passed: Passed,
    clock: u32,
}

impl Model for Ply {
    ghost use Rattle.std.specs.Prelude.{is_some};
    ghost use Rattle.chess_draws.specs.steps.KeptPlies.{PlyParts, passed_counting, passed_of, passed_of-kept, passed_target};

    ghost Value = { PlyParts };

    ghost view = { λ k. record { target = passed_counting k.passed; past = record { played = k.played; captured = k.captured; rights = k.rights; target = passed_target k.passed; clock = k.clock } } };

    ghost inverse = { λ p. record { played = p.past.played; captured = p.past.captured; rights = p.past.rights; passed = passed_of (is_some p.target) p.past.target; clock = p.past.clock } };

    ghost inverse_ok = { λ k _ i. record { played = k.played; captured = k.captured; rights = k.rights; passed = passed_of-kept k.passed i; clock = k.clock } };
}

impl Ply {
    /// That of a move with its record; whether the en passant target before it counted.
    #[inline(always)]
    pub(crate) fn of(past: Record, counts: bool) -> Ply
        ensures { result ≡ record { target = if counts then past.target else None; past = past } }
    {
        prove!(size_of::<Ply>() == 16);
        Ply {
            played: KeptMove::of(past.played()),
            captured: past.captured(),
            rights: past.rights(),
            passed: Passed::of(past.target(), counts),
            clock: past.clock(),
        }
    }

    /// The move.
    #[inline(always)]
    pub(crate) fn played(self) -> Move
        ensures { result ≡ self.past.played }
    {
        self.played.get()
    }

    /// The castling rights before it.
    #[inline(always)]
    pub(crate) fn rights(self) -> Rights
        ensures { result ≡ self.past.rights }
    {
        self.rights
    }

    /// The en passant target before it, where it counted.
    #[inline(always)]
    pub(crate) fn target(self) -> Option<Square>
        ensures { result ≡ self.target }
    {
        self.passed.counting()
    }

    /// The record by which it is taken back.
    #[inline(always)]
    pub(crate) fn past(self) -> Record
        ensures { result ≡ self.past }
    {
        Record::from_parts(
            self.played.get(),
            self.captured,
            self.rights,
            self.passed.target(),
            self.clock,
        )
    }
}

impl Default for Ply {
    /// That of no move: it fills the free places of a list of fixed capacity.
    fn default() -> Ply {
        Ply::of(Record::default(), false)
    }
}
