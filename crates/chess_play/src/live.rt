//! A position with its attack counts, its evaluation and its key.

ghost use Rattle.std.specs.Prelude.{◌≡◌, ◌≤◌};
ghost use Rattle.chess_types.specs.board.Position.{man_on};
ghost use Rattle.chess_attack.specs.KeptCounts.{AreCounts};
ghost use Rattle.chess_eval.specs.Evaluation.{evaluation, IsWithin};
ghost use Rattle.chess_key.specs.Keys.{IsKeyOf};

use crate::followers::Followers;
use crate::live_with::LiveWith;
use chess_attack::Counts;
use chess_key::{Key, KeyTable};
use chess_types::Position;

/// A position, in which the side not to move may be in check, with its attack counts, its evaluation and its key, which
/// agree with it at every moment.
pub type Live<'k> = LiveWith<Followers<'k>>;

impl<'k> LiveWith<Followers<'k>> {
    /// The position, its numbers computed once; no tick.
    pub fn new(position: Position, table: &'k KeyTable) -> Live<'k>
        ensures { result ≡ record { position = position; words = table.now; ticks = 0 } }
    {
        let kept = Followers::of(&position.setup().placement, table);
        LiveWith::with(position, kept)
    }

    /// Its attack counts.
    #[inline(always)]
    pub fn counts(&self) -> &Counts
        ensures agrees { AreCounts result.now self.now.position.placement }
        ensures ticks { result.now.ticks ≡ self.now.ticks }
    {
        &self.kept().counts
    }

    /// Its evaluation, in centipawns for White: at most 13,605 either way.
    pub fn white(&self) -> i32
        ensures value { result ≡ evaluation (man_on self.now.position) }
        ensures in_range { IsWithin 13605 result }
    {
        self.kept().sum.white()
    }

    /// Its key.
    pub fn key(&self) -> &Key<'k>
        ensures agrees { IsKeyOf result.now self.now.position.placement }
        ensures words { result.now.words ≡ self.now.words }
    {
        &self.kept().key
    }

    /// The ticks of the last `make`, `undo` or `take_back`; 0 before any. Always those of `counts`.
    pub fn last_ticks(&self) -> u32
        ensures value { result ≡ self.now.ticks }
        ensures at_most { result ≤ 216 }
    {
        self.kept().counts.ticks()
    }
}
