//! The line of a score: the best replies, found by the value that is known of each position.

ghost use Rattle.std.specs.Prelude.{◌≡◌, ◌+◌, ◌-◌, ◌++◌, ◌≤◌, ◌<◌, length, IfSome, IsTrue, is_some, neg_ℤ};
ghost use Rattle.chess_types.specs.board.Legal.{is_legal, legal_moves};
ghost use Rattle.chess_types.specs.board.Lines.{extended, last};
ghost use Rattle.chess_draws.specs.LineParts.{IsAsBefore};
ghost use Rattle.chess_search.specs.Best.{AtRoot};
ghost use Rattle.chess_search.specs.Replies.{IsLineOfScore, first_worth, replies_holding};
ghost use Rattle.chess_search.specs.Scores.{IsValue};
ghost use Rattle.chess_search.specs.Value.{worth};
ghost use Rattle.chess_search.specs.Watches.{IsFree, Watched};

use crate::nodes::Nodes;
use crate::search::Searcher;
use crate::watch::Watch;
use arrayvec::ArrayVec;
use chess_draws::Line;
use chess_types::Move;
use std::alloc::Allocator;

impl Searcher {
    /// The first legal move that is worth at least so much to the side that makes it, `depth` plies deep after it; the outer `None` if
    /// the search is abandoned.
    fn first_worth<A: Allocator, W: Watch>(
        &mut self,
        line: &mut Line<'_, A>,
        watch: &mut W,
        depth: u8,
        distance: u8,
        least: i32,
    ) -> Option<Option<Move>>
        requires room { line.old.looked + depth < 16 }
        requires distance { distance + depth < 16 }
        requires least { IsValue least }
        ensures first { IfSome result (λ found. found ≡ first_worth (worth self.old.claims depth line.old.line distance) least (legal_moves (last line.old.line))) }
        ensures claims { self.new.claims ≡ self.old.claims }
        ensures stays { W.says watch.new ≡ W.says watch.old }
        ensures watched { IsFree (W.says watch.old self.old.nodes) → Watched (W.says watch.old) self.old.nodes self.new.nodes (is_some result) }
        ensures line { IsAsBefore line.old line.new }
    {
        let mut moves = ArrayVec::new();
        line.moves_into(&mut moves);
        for m in moves.as_slice() {
            if self.is_worth(line, watch, *m, depth, distance, least)? {
                return Some(Some(*m));
            }
        }
        Some(None)
    }

    /// Puts the replies that hold a value behind the moves; `None` if the search is abandoned.
    fn follow<A: Allocator, W: Watch>(
        &mut self,
        line: &mut Line<'_, A>,
        watch: &mut W,
        depth: u8,
        distance: u8,
        value: i32,
        moves: &mut ArrayVec<Move, 16>,
    ) -> Option<()>
        requires room { line.old.looked + depth ≤ 16 }
        requires distance { distance + depth ≤ 16 }
        requires value { IsValue value }
        requires few { length moves.old.items + depth ≤ 16 }
        ensures replies { IfSome result (λ done. moves.new.items ≡ moves.old.items ++ replies_holding self.old.claims depth line.old.line distance value) }
        ensures stays { W.says watch.new ≡ W.says watch.old }
        ensures watched { IsFree (W.says watch.old self.old.nodes) → Watched (W.says watch.old) self.old.nodes self.new.nodes (is_some result) }
        ensures line { IsAsBefore line.old line.new }
    {
        if depth == 0 || line.is_drawn(self.claims) {
            return Some(());
        }
        let Some(m) = self.first_worth(line, watch, depth - 1, distance, value)? else {
            return Some(());
        };
        moves.push(m);
        line.look(m);
        let followed = self.follow(line, watch, depth - 1, distance + 1, -value, moves);
        line.unlook();
        followed
    }
}

/// The replies after a legal move along which its value is held: from the side that replies on, each is the first legal move that is worth
/// as much as is known. If the move is worth the value at that depth, in the words of `best`, they are the line of the score. `None`
/// if the watch has the search abandoned. No move is looked at, and the depth is 1 to 16 plies; `nodes` counts this search alone.
pub fn replies_within<A: Allocator, W: Watch>(
    line: &mut Line<'_, A>,
    depth: u8,
    m: Move,
    value: i32,
    nodes: &mut Nodes,
    claims: bool,
    watch: &mut W,
) -> Option<ArrayVec<Move, 16>>
    requires root { AtRoot line.old depth }
    requires legal { IsTrue (is_legal (last line.old.line) m) }
    requires value { IsValue value }
    ensures replies { IfSome result (λ moves. moves.items ≡ replies_holding claims (depth - 1) (extended line.old.line m) 1 (neg_ℤ value)) }
    // They are the first best replies, at whose end the value stands, where it is the move's.
    ensures score { value ≡ worth claims (depth - 1) line.old.line 0 m → IfSome result (λ moves. IsLineOfScore claims (depth - 1) (extended line.old.line m) 1 (neg_ℤ value) moves.items) }
    // It is abandoned where the watch says that the time is up, and nowhere else.
    ensures stays { W.says watch.new ≡ W.says watch.old }
    ensures watched { IsFree (W.says watch.old 1) → Watched (W.says watch.old) 1 nodes.new (is_some result) }
    ensures line { IsAsBefore line.old line.new }
{
    let mut searcher = Searcher::new(claims);
    let mut moves = ArrayVec::new();
    line.look(m);
    let followed = searcher.follow(line, watch, depth - 1, 1, -value, &mut moves);
    line.unlook();
    *nodes = searcher.nodes;
    followed?;
    Some(moves)
}
