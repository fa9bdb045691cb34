//! What is kept of a move that was made, to take it back.

ghost use Rattle.std.specs.Prelude.{◌≡◌};

use chess_types::{Content, Move, Rights, Square};
use std::marker::Model;

/// What is kept of a move made, to take it back with `Live::take_back`.
#[derive(Clone, Copy, Debug)]
pub struct Record {
    /// The move.
    pub(crate) played: Move,
    /// What it captured.
    pub(crate) captured: Content,
    /// The castling rights before it.
    pub(crate) rights: Rights,
    /// The en passant target before it.
    pub(crate) target: Option<Square>,
    /// The halfmove clock before it.
    pub(crate) clock: u32,
}

impl Model for Record {
    ghost use Rattle.chess_play.specs.Records.{RecordParts};

    ghost Value = { RecordParts };

    ghost view = { λ r. record { played = r.played; captured = r.captured; rights = r.rights; target = r.target; clock = r.clock } };

    ghost inverse = { λ r. record { played = r.played; captured = r.captured; rights = r.rights; target = r.target; clock = r.clock } };
}

impl Record {
    /// That of a move, by its parts.
    #[inline(always)]
    pub fn from_parts(
        played: Move,
        captured: Content,
        rights: Rights,
        target: Option<Square>,
        clock: u32,
    ) -> Record
        ensures { result ≡ record { played = played; captured = captured; rights = rights; target = target; clock = clock } }
    {
        Record {
            played,
            captured,
            rights,
            target,
            clock,
        }
    }

    /// The move.
    #[inline(always)]
    pub fn played(self) -> Move
        ensures { result ≡ self.played }
    {
        self.played
    }

    /// What it captured.
    #[inline(always)]
    pub fn captured(self) -> Content
        ensures { result ≡ self.captured }
    {
        self.captured
    }

    /// The en passant target before it.
    #[inline(always)]
    pub fn target(self) -> Option<Square>
        ensures { result ≡ self.target }
    {
        self.target
    }

    /// The halfmove clock before it, in plies.
    #[inline(always)]
    pub fn clock(self) -> u32
        ensures { result ≡ self.clock }
    {
        self.clock
    }

    /// The castling rights before it.
    #[inline(always)]
    pub fn rights(self) -> Rights
        ensures { result ≡ self.rights }
    {
        self.rights
    }
}

impl Default for Record {
    /// The record of no move: it fills the free places of a list of fixed capacity.
    fn default() -> Record {
        Record {
            played: Move::default(),
            captured: Content::empty(),
            rights: Rights::NONE,
            target: None,
            clock: 0,
        }
    }
}

/// What is kept of the move just made. It must be spent: by `Live::undo`, or by `keep`.
pub struct Made {
    pub(crate) record: Record,
}

impl Model for Made {
    ghost use Rattle.chess_play.specs.Records.{RecordParts};

    ghost Value = { RecordParts };

    ghost view = { λ m. m.record };
}

impl Made {
    /// The same as a plain value, for `Live::take_back`.
    pub fn keep(self) -> Record
        ensures { result ≡ self }
    {
        let Made { record } = self;
        record
    }
}
