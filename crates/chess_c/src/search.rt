//! A search that the caller drives.
ghost use Rattle.std.specs.Prelude.{◌≡◌, ◌≤◌, ◌<◌, [], false, length, min, is_some, IfOk, IfSome, MatchOption};
ghost use Rattle.chess_tree.specs.GameTree.{line_to};
ghost use Rattle.chess_c.specs.Held.{roots};
ghost use Rattle.chess_draws.specs.LineParts.{IsAsBefore};
ghost use Rattle.chess_search.specs.Best.{AtRoot, best};
ghost use Rattle.chess_search.specs.Watches.{IsFree};
ghost use Rattle.chess_uci.specs.Within.{IsWatched};
ghost use Rattle.chess_c.specs.Asked.{AsksWithin};
ghost use Rattle.chess_c.specs.Searches.{new_search, left, next_if, next_size, one_more, best_so_far};

use arrayvec::ArrayVec;
use chess_bindings::cursor_line;
use chess_draws::Line;
use chess_key::KeyTable;
use chess_memory::{Handle, Heap};
use chess_search::{Nodes, Slices, Watch, best_within};
use chess_tree::Tree;
use chess_types::Move;
use std::alloc::{AllocError, Allocator};
use std::marker::Model;

/// A search of all legal moves of a line's last position at one depth, one root at a time. The line is its own.
#[derive(Drop)]
pub struct Search {
    line: Line<'static, Handle>,
    slices: Slices,
}

impl Model for Search {
    ghost use Rattle.std.specs.Prelude.{◌≡◌};
    ghost use Rattle.chess_c.specs.Held.{Searching, coded_searching};
    ghost use Rattle.chess_c.specs.Searches.{IsSearchOf};

    ghost Value = { Searching };

    ghost coded = { coded_searching };

    ghost view = { λ s. record { line = s.line.line; depth = s.slices.depth; searched = s.slices.searched } };

    ghost invariant = { λ s. IsSearchOf s.line.line s.slices × (s.line.looked ≡ 0) };
}

/// The best of all legal moves of a line and its value, unless the search for it is abandoned; `nodes` counts the positions asked for.
pub fn best_of_all<A: Allocator, W: Watch>(
    line: &mut Line<'_, A>,
    depth: u8,
    legal: &ArrayVec<Move, 432>,
    watch: &mut W,
    nodes: &mut Nodes,
) -> Option<Option<(Move, i32)>>
    requires root { AtRoot line.old depth }
    requires all { legal.now.items ≡ roots line.old.line }
    requires free { IsFree (W.says watch.old 1) }
    ensures best { IfSome result (λ found. found ≡ best false depth line.old.line (roots line.old.line)) }
    ensures asked { AsksWithin (W.says watch.old) line.old.line depth (is_some result) nodes.new }
    ensures stays { W.says watch.new ≡ W.says watch.old }
    ensures line { IsAsBefore line.old line.new }
{
    best_within(line, depth, legal, nodes, false, watch)
}

impl Search {
    /// A search of the position at the tree's cursor, 1 to 16 plies deep, that has not begun; `None` where there is no legal move.
    ///
    /// # Errors
    ///
    /// Want of memory for the line.
    pub fn start(
        handle: Handle,
        table: &'static KeyTable,
        tree: &Tree<'_, Heap>,
        depth: u8,
    ) -> Result<Option<Search>, AllocError>
        requires deep { 1 ≤ depth }
        requires shallow { depth ≤ 16 }
        ensures { IfOk result (λ found. MatchOption found (roots (line_to tree.now) ≡ []) (λ search. (search ≡ new_search depth (line_to tree.now)) × (0 < length (roots (line_to tree.now))))) }
    {
        let mut line = cursor_line(handle, table, tree)?;
        let legal = line.moves();
        if legal.is_empty() {
            return Ok(None);
        }
        Ok(Some(Search {
            line,
            slices: Slices::start(depth, legal, false),
        }))
    }

    /// Searches one root more, if one is left.
    pub fn next(&mut self)
        ensures { self.new ≡ one_more self.old }
    {
        if self.slices.searched() < self.slices.roots().len() {
            self.slices.next(&mut self.line);
        }
    }

    /// Searches one root more, if one is left, and says how many positions were asked for; `false` where the watch has it abandoned, and then all is as before.
    pub fn next_within<W: Watch>(&mut self, watch: &mut W, nodes: &mut u64) -> bool
        ensures search { self.new ≡ next_if result self.old }
        ensures stays { W.says watch.new ≡ W.says watch.old }
        ensures watched { IsWatched (W.says watch.old) nodes.new result }
        ensures at_least { min 1 (next_size self.old) ≤ nodes.new }
        ensures at_most { nodes.new ≤ next_size self.old }
    {
        *nodes = 0;
        if self.slices.searched() >= self.slices.roots().len() {
            return true;
        }
        self.slices.count_anew();
        let searched = self.slices.next_within(&mut self.line, watch);
        *nodes = self.slices.nodes();
        searched
    }

    /// How many roots are left.
    pub fn left(&self) -> usize
        ensures { result ≡ left self.now }
    {
        self.slices.roots().len() - self.slices.searched()
    }

    /// The best of the roots that were searched, with its worth to the side to move; `None` while none was.
    pub fn so_far(&self) -> Option<(Move, i32)>
        ensures { result ≡ best_so_far self.now }
    {
        self.slices.so_far()
    }
}
