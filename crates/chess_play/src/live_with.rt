//! A position with whatever follows it: moves are made, taken back, and tested for pseudo-legality.

ghost use Rattle.std.specs.Prelude.{◌≡◌, ◌≤◌, IsTrue};
ghost use Rattle.chess_types.specs.board.Attack.{is_attacked};
ghost use Rattle.chess_types.specs.board.Position.{IsSetup, man_on};
ghost use Rattle.chess_types.specs.board.Pseudo.{is_pseudo};
ghost use Rattle.chess_types.specs.board.After.{after};
ghost use Rattle.chess_play.specs.Castling.{may_castle};
ghost use Rattle.chess_play.specs.Records.{Fits, IsBefore, record_of};
ghost use Rattle.chess_play.specs.LiveParts.{TakesBack};

use crate::make::make;
use crate::pseudo::{is_pseudo, may_castle};
use crate::record::{Made, Record};
use crate::take_back::{man_on, take_back};
use chess_attack::Follower;
use chess_types::{Colour, Move, Position, Setup, Square, Wing};
use std::marker::Model;

/// A position, in which the side not to move may be in check, with what follows it and agrees with it at every moment.
#[derive(Drop)]
pub struct LiveWith<F: Follower> {
    setup: Setup,
    kept: F,
}

impl<F: Follower> Model for LiveWith<F> {
    ghost use Rattle.chess_play.specs.LiveParts.{LiveParts, coded_live};

    ghost Value = { LiveParts };

    ghost coded = { coded_live };

    ghost view = { λ l. record { position = l.setup; words = F.words l.kept; ticks = F.ticks l.kept } };

    ghost use Rattle.std.specs.Prelude.{◌≤◌};
    ghost use Rattle.chess_types.specs.board.Position.{IsSetup};

    ghost invariant = { λ l. (IsSetup l.setup) × (F.agrees l.kept l.setup.placement) × (F.ticks l.kept ≤ 216) };
}

impl<F: Follower> LiveWith<F> {
    /// The position, with what agrees with it.
    pub fn with(position: Position, kept: F) -> LiveWith<F>
        requires agrees { F.agrees kept position.placement }
        requires ticks { F.ticks kept ≤ 216 }
        ensures { result ≡ record { position = position; words = F.words kept; ticks = F.ticks kept } }
    {
        LiveWith {
            setup: position.into_setup(),
            kept,
        }
    }

    /// The position.
    #[inline(always)]
    pub fn position(&self) -> &Setup
        ensures value { result.now ≡ self.now.position }
        ensures setup { IsSetup self.now.position }
    {
        &self.setup
    }

    /// Another one with the same position and all that is kept beside it.
    pub fn copied(&self) -> LiveWith<F>
        ensures { result ≡ self.now }
    {
        let Ok(setup) = self.setup.clone() else {
            unreachable!();
        };
        LiveWith {
            setup,
            kept: self.kept.copied(),
        }
    }

    /// What is kept beside it.
    #[inline(always)]
    pub fn kept(&self) -> &F
        ensures agrees { F.agrees result.now self.now.position.placement }
        ensures words { F.words result.now ≡ self.now.words }
        ensures ticks { F.ticks result.now ≡ self.now.ticks }
        ensures at_most { self.now.ticks ≤ 216 }
        ensures setup { IsSetup self.now.position }
    {
        &self.kept
    }

    /// Whether a man of the colour attacks the square (FIDE Laws 3.1.2).
    #[inline(always)]
    pub fn is_attacked(&self, colour: Colour, square: Square) -> bool
        ensures { result ≡ is_attacked (man_on self.now.position) colour square }
    {
        self.kept.sees(&self.setup.placement, colour, square)
    }

    /// Whether the move is pseudo-legal: legal but perhaps for the mover's own king (FIDE Laws 3.1 to 3.8).
    pub fn is_pseudo(&self, m: Move) -> bool
        ensures { result ≡ is_pseudo self.now.position m }
    {
        is_pseudo(&self.setup, &self.kept, m)
    }

    /// Whether the king of the side to move may castle to that wing (FIDE Laws 3.8.2).
    pub fn may_castle(&self, wing: Wing) -> bool
        ensures { result ≡ may_castle self.now.position wing }
    {
        may_castle(&self.setup, &self.kept, wing)
    }

    /// Makes the move, by at most four puts, clears and replacements: the position is the one after it (FIDE Laws 3.1 to 3.8). The halfmove
    /// clock and the fullmove number are at most 1,000,000. The answer must be spent, by `undo` or by `Made::keep`.
    pub fn make(&mut self, m: Move) -> Made
        requires pseudo { IsTrue (is_pseudo self.old.position m) }
        requires clock { self.old.position.clock ≤ 1000000 }
        requires number { self.old.position.number ≤ 1000000 }
        ensures position { self.new.position ≡ after self.old.position m }
        ensures words { self.new.words ≡ self.old.words }
        ensures record { result ≡ record_of self.old.position m }
        ensures is_before { IsBefore self.new.position result self.old.position }
        ensures at_most { self.new.ticks ≤ 216 }
        ensures at_least { F.suffices self.old.position.placement self.new.position.placement self.new.ticks }
    {
        self.kept.begin();
        match man_on(&self.setup, m.from) {
            None => unreachable!(),
            Some(man) => Made {
                record: make(&mut self.setup, &mut self.kept, man, m),
            },
        }
    }

    /// Takes back the move just made, or the last one not yet taken back: all is as before that `make`, but for the ticks.
    pub fn undo(&mut self, made: Made)
        requires fits { Fits self.old.position made }
        ensures { TakesBack F.suffices self.old made self.new }
    {
        self.take_back(made.keep());
    }

    /// Takes back the move of the record: all is as before that `make`, but for the ticks.
    pub fn take_back(&mut self, past: Record)
        requires fits { Fits self.old.position past }
        ensures { TakesBack F.suffices self.old past self.new }
    {
        self.kept.begin();
        take_back(&mut self.setup, &mut self.kept, past);
    }
}
