//! A search that goes on root by root, one for each call.

ghost use Rattle.std.specs.Prelude.{◌≡◌, ◌+◌, ◌-◌, ◌^◌, ◌<◌, ◌≤◌, None, length, min, take, true, false, IsTrue};
ghost use Rattle.chess_draws.specs.LineParts.{IsAsBefore};
ghost use Rattle.chess_search.specs.Best.{best};
ghost use Rattle.chess_search.specs.Slices.{Progress, IsInRange, HasBorder, GoesWith, done_of, next_root};
ghost use Rattle.chess_search.specs.Asked.{trees_below};
ghost use Rattle.chess_search.specs.Watches.{Watched};

use crate::nodes::Nodes;
use crate::search::{LEAST, Searcher};
use crate::watch::{AtMost, Endless, Watch};
use arrayvec::ArrayVec;
use chess_draws::Line;
use chess_types::Move;
use std::alloc::Allocator;
use std::marker::Model;

/// A search of some roots of a line at one depth, one root for each call.
#[derive(Drop)]
pub struct Slices {
    depth: u8,
    roots: ArrayVec<Move, 432>,
    searched: usize,
    kept: Option<(Move, i32)>,
    searcher: Searcher,
}

impl Model for Slices {
    ghost use Rattle.std.specs.Prelude.{◌≤◌, length};
    ghost use Rattle.chess_search.specs.Slices.{Progress, IsInRange, HasBorder};

    ghost Value = { Progress };

    ghost view = { λ s. record { depth = s.depth; claims = s.searcher.claims; roots = s.roots.items; searched = s.searched; kept = s.kept; nodes = s.searcher.nodes } };

    ghost invariant = { λ s. (1 ≤ s.depth) × (s.depth ≤ 16) × (s.searched ≤ length s.roots.items) × IsInRange s.kept × HasBorder s.kept };
}

impl Slices {
    /// A search that has not begun: of these roots, 1 to 16 plies deep. Draws that may be claimed count as draws where `claims`.
    pub fn start(depth: u8, roots: ArrayVec<Move, 432>, claims: bool) -> Slices
        requires deep { 1 ≤ depth }
        requires shallow { depth ≤ 16 }
        ensures { result ≡ record { depth = depth; claims = claims; roots = roots.items; searched = 0; kept = None; nodes = 1 } }
    {
        Slices {
            depth,
            roots,
            searched: 0,
            kept: None,
            searcher: Searcher::new(claims),
        }
    }

    /// Searches one root more. Not each was searched, the roots are legal moves of the line, and what is kept is the best of those that
    /// were; no move is looked at.
    pub fn next<A: Allocator>(&mut self, line: &mut Line<'_, A>)
        requires not_done { done_of self.old ≡ None }
        requires some { 0 < length self.old.roots }
        requires none { line.old.looked ≡ 0 }
        requires goes { GoesWith line.old.line self.old }
        ensures search { (self.new.depth ≡ self.old.depth) × (self.new.claims ≡ self.old.claims) × (self.new.roots ≡ self.old.roots) }
        ensures searched { self.new.searched ≡ self.old.searched + 1 }
        ensures kept { self.new.kept ≡ best self.old.claims self.old.depth line.old.line (take (self.old.searched + 1) self.old.roots) }
        // The root is asked for, and no more positions than plain minimax asks for it.
        ensures at_least { min (self.old.nodes + 1) (2 ^ 64 - 1) ≤ self.new.nodes }
        ensures at_most { self.new.nodes ≤ self.old.nodes + trees_below self.old.claims (self.old.depth - 1) line.old.line (next_root self.old) }
        ensures goes { GoesWith line.new.line self.new }
        ensures done { self.new.searched ≡ length self.new.roots → done_of self.new ≡ best self.new.claims self.new.depth line.new.line self.new.roots }
        ensures line { IsAsBefore line.old line.new }
    {
        let _searched = self.next_within(line, &mut Endless);
    }

    /// Searches one root more, as `next` does, and says that it was searched; or says that it wasn't, where the watch has the search
    /// abandoned: then all is as before, but that the positions count which were asked for, and the order of moves that was learned is kept.
    pub fn next_within<A: Allocator, W: Watch>(
        &mut self,
        line: &mut Line<'_, A>,
        watch: &mut W,
    ) -> bool
        requires not_done { done_of self.old ≡ None }
        requires some { 0 < length self.old.roots }
        requires none { line.old.looked ≡ 0 }
        requires goes { GoesWith line.old.line self.old }
        ensures search { (self.new.depth ≡ self.old.depth) × (self.new.claims ≡ self.old.claims) × (self.new.roots ≡ self.old.roots) }
        ensures searched { result ≡ true → self.new.searched ≡ self.old.searched + 1 }
        ensures kept { result ≡ true → self.new.kept ≡ best self.old.claims self.old.depth line.old.line (take (self.old.searched + 1) self.old.roots) }
        ensures abandoned { result ≡ false → (self.new.searched ≡ self.old.searched) × (self.new.kept ≡ self.old.kept) }
        // One position at least is asked for, and no more than plain minimax asks for the root.
        ensures at_least { min (self.old.nodes + 1) (2 ^ 64 - 1) ≤ self.new.nodes }
        ensures at_most { self.new.nodes ≤ self.old.nodes + trees_below self.old.claims (self.old.depth - 1) line.old.line (next_root self.old) }
        // It is abandoned where the watch says that the time is up, and nowhere else.
        ensures stays { W.says watch.new ≡ W.says watch.old }
        ensures watched { Watched (W.says watch.old) self.old.nodes self.new.nodes result }
        ensures goes { GoesWith line.new.line self.new }
        ensures line { IsAsBefore line.old line.new }
    {
        let m = self.roots.as_slice()[self.searched];
        let tried = self
            .searcher
            .try_above(line, watch, LEAST, self.kept, m, self.depth);
        match tried {
            Some(better) => {
                self.kept = better;
                self.searched += 1;
                true
            }
            None => false,
        }
    }

    /// Searches one root more, as `next` does, for which `budget` positions more may be asked for, and says whether it was searched: it is abandoned at the
    /// first position beyond them, and then all is as before but for the number of positions. The positions together are fewer than 2^64.
    #[tactic(auto, using(crate::proofs::WatchLemmas::at_most))]
    pub fn next_at_most<A: Allocator>(&mut self, line: &mut Line<'_, A>, budget: u64) -> bool
        requires not_done { done_of self.old ≡ None }
        requires some { 0 < length self.old.roots }
        requires none { line.old.looked ≡ 0 }
        requires goes { GoesWith line.old.line self.old }
        requires few { self.old.nodes + budget < 2 ^ 64 }
        ensures search { (self.new.depth ≡ self.old.depth) × (self.new.claims ≡ self.old.claims) × (self.new.roots ≡ self.old.roots) }
        ensures searched { result ≡ true → self.new.searched ≡ self.old.searched + 1 }
        ensures kept { result ≡ true → self.new.kept ≡ best self.old.claims self.old.depth line.old.line (take (self.old.searched + 1) self.old.roots) }
        ensures at_most { result ≡ true → self.new.nodes ≤ self.old.nodes + budget }
        ensures abandoned { result ≡ false → (self.new.searched ≡ self.old.searched) × (self.new.kept ≡ self.old.kept) × (self.new.nodes ≡ self.old.nodes + budget + 1) }
        ensures goes { GoesWith line.new.line self.new }
        ensures line { IsAsBefore line.old line.new }
    {
        let mut watch = AtMost {
            nodes: self.nodes() + budget,
        };
        self.next_within(line, &mut watch)
    }

    /// The search of the same roots at another depth, 1 to 16 plies, which has not begun. What was learned of the order of moves is kept.
    pub fn again(&mut self, depth: u8)
        requires deep { 1 ≤ depth }
        requires shallow { depth ≤ 16 }
        ensures { self.new ≡ record { depth = depth; claims = self.old.claims; roots = self.old.roots; searched = 0; kept = None; nodes = 1 } }
    {
        self.depth = depth;
        self.searched = 0;
        self.kept = None;
        self.searcher.begin();
    }

    /// Counts the positions anew: none was asked for yet.
    pub fn count_anew(&mut self)
        ensures { self.new ≡ record self.old { nodes = 0 } }
    {
        self.searcher.nodes = Nodes::new();
    }

    /// How many plies deep each root is searched.
    pub fn depth(&self) -> u8
        ensures value { result ≡ self.now.depth }
        ensures deep { 1 ≤ result }
        ensures shallow { result ≤ 16 }
    {
        self.depth
    }

    /// The roots.
    pub fn roots(&self) -> &ArrayVec<Move, 432>
        ensures { result.now.items ≡ self.now.roots }
    {
        &self.roots
    }

    /// How many of the roots were searched.
    pub fn searched(&self) -> usize
        ensures value { result ≡ self.now.searched }
        ensures at_most { result ≤ length self.now.roots }
    {
        self.searched
    }

    /// The best of the roots that were searched, with its worth; `None` while none was.
    pub fn so_far(&self) -> Option<(Move, i32)>
        ensures kept { result ≡ self.now.kept }
        ensures in_range { IsInRange result }
        ensures border { HasBorder result }
    {
        self.kept
    }

    /// The best of all roots once each was searched, else `None`.
    pub fn done(&self) -> Option<(Move, i32)>
        ensures { result ≡ done_of self.now }
    {
        if self.searched == self.roots.len() {
            self.kept
        } else {
            None
        }
    }

    /// The positions whose value this search has asked for, its root included; or those since they were last counted anew.
    pub fn nodes(&self) -> u64
        ensures { result ≡ self.now.nodes }
    {
        self.searcher.nodes.nodes()
    }
}
