//! Lines that are cut off before their legal moves are listed.

ghost use Rattle.std.specs.Prelude.{◌≡◌, ℕ, ◌<◌, ◌≤◌, false, length, IfSome};
ghost use Rattle.chess_types.specs.board.Legal.{legal_moves};
ghost use Rattle.chess_types.specs.board.Lines.{last};
ghost use Rattle.chess_eval.specs.Evaluation.{AreSumsOf};
ghost use Rattle.chess_draws.specs.LineParts.{IsAsBefore};
ghost use Rattle.chess_search.specs.Value.{counts_drawn, value};
ghost use Rattle.chess_search.specs.Asked.{tree_size};
ghost use Rattle.chess_search.specs.steps.Frontiers.{AreSumsAt, IsFarWhereFree, IsFrontier};
ghost use Rattle.chess_search.specs.steps.Windows.{FitsWindow, IsScore, IsWindow};

use crate::frontier::{Frontier, answer_by};
use crate::search::{Searcher, evaluation_for};
use chess_attack::attacks;
use chess_draws::Line;
use chess_eval::Sum;
use chess_types::{Kind, Man, Move, Setup, Square};
use std::alloc::Allocator;

/// What a move that takes nothing adds to the evaluation, at most by far the most of them, in centipawns.
const STEP: i32 = 60;

/// The kinds of men, the least valuable first.
const KINDS: [Kind; 6] = [
    Kind::Pawn,
    Kind::Knight,
    Kind::Bishop,
    Kind::Rook,
    Kind::Queen,
    Kind::King,
];

/// A move of the least valuable man who takes the one on that square, if he may; no promotion.
fn taker(setup: &Setup, at: Square) -> Option<Move> {
    let (side, placement) = (setup.side, &setup.placement);
    for kind in KINDS {
        let man = Man {
            colour: side.opponent(),
            kind,
        };
        let men = attacks(placement, man, at).intersection(placement.of_kind(side, kind));
        if let Some(from) = men.lowest() {
            return Some(Move {
                from,
                to: at,
                promo: None,
            });
        }
    }
    None
}

impl Searcher {
    // An answer for a line with one ply left that is no less than beta: what the move is worth, where it is legal and that is known without
    // its being made.
    #[inline(always)]
    fn cut_by<A: Allocator>(
        &self,
        line: &mut Line<'_, A>,
        frontier: &Option<Frontier>,
        sums: &Sum,
        m: Move,
        alpha: i32,
        beta: i32,
    ) -> Option<i32>
        requires playing { counts_drawn self.now.claims line.old.line ≡ false }
        requires frontier { IfSome frontier.now (λ f. IsFrontier f (last line.old.line)) }
        requires far { IfSome frontier.now (λ f. IsFarWhereFree self.now.claims f line.old.line) }
        requires sums { AreSumsOf sums.now (last line.old.line).placement }
        requires window { IsWindow alpha beta }
        ensures answer { IfSome result (λ answer. (distance : ℕ) → FitsWindow alpha beta (value self.now.claims 1 line.old.line distance) answer) }
        ensures score { IfSome result IsScore }
        ensures some { IfSome result (λ answer. 0 < length (legal_moves (last line.old.line))) }
        ensures line { IsAsBefore line.old line.new }
    {
        if !line.is_legal(m) {
            return None;
        }
        let answer = answer_by(frontier, sums, line.live(), m, alpha, beta)?;
        if answer < beta {
            return None;
        }
        Some(answer)
    }

    /// An answer for a line that isn't drawn, with one ply left, that is no less than beta, where a move surely gives one that is likely to:
    /// one that cut off before at that distance, or, where more is needed, the capture of the man who has just moved. The legal moves aren't
    /// listed then.
    #[inline(always)]
    pub(crate) fn cut_early<A: Allocator>(
        &self,
        line: &mut Line<'_, A>,
        drawn: bool,
        came: Square,
        frontier: &Option<Frontier>,
        sums: &Option<Sum>,
        depth: u8,
        distance: u8,
        alpha: i32,
        beta: i32,
    ) -> Option<i32>
        requires drawn { drawn ≡ counts_drawn self.now.claims line.old.line }
        requires frontier { IfSome frontier.now (λ f. IsFrontier f (last line.old.line)) }
        requires far { IfSome frontier.now (λ f. IsFarWhereFree self.now.claims f line.old.line) }
        requires sums { AreSumsAt sums.now (last line.old.line) }
        requires distance { distance < 16 }
        requires window { IsWindow alpha beta }
        ensures answer { IfSome result (FitsWindow alpha beta (value self.now.claims depth line.old.line distance)) }
        ensures score { IfSome result IsScore }
        ensures asked { IfSome result (λ answer. 2 ≤ tree_size self.now.claims depth line.old.line) }
        ensures line { IsAsBefore line.old line.new }
    {
        if depth != 1 || drawn {
            return None;
        }
        let Some(sums) = sums else {
            return None;
        };
        if evaluation_for(line.live()) + STEP < beta {
            let m = taker(line.live().position(), came)?;
            return self.cut_by(line, frontier, sums, m, alpha, beta);
        }
        let two = self.experience.last_two(distance);
        let newest = self.cut_by(line, frontier, sums, two.newest?, alpha, beta);
        if newest.is_some() {
            return newest;
        }
        self.cut_by(line, frontier, sums, two.other?, alpha, beta)
    }
}
