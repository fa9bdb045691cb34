//! A search that runs in a session, depth by depth and root by root.

ghost use Rattle.std.specs.Prelude.{◌≡◌, ◌≤◌, ◌<◌, ◌∷◌, ◌++◌, [], ◌+◌, ◌-◌, ◌==◌, Some, None, option_map, is_some, IfSome, IfNone, false, length, min};
ghost use Rattle.chess_types.specs.board.Lines.{Line as GameLine};
ghost use Rattle.chess_search.specs.Slices.{GoesWith};
ghost use Rattle.chess_draws.specs.LineParts.{IsAsBefore};
ghost use Rattle.chess_uci.specs.Machine.{slice, is_reached, ended_with, info, chosen, first_root};
ghost use Rattle.chess_uci.specs.Within.{IsWatched, search_size};
ghost use Rattle.chess_uci.specs.steps.Searches.{GoesOn, completed, search_of, turn_of};

use crate::reply::Reply;
use arrayvec::ArrayVec;
use chess_draws::Line;
use chess_search::{Slices, Watch};
use chess_types::Move;
use std::alloc::Allocator;

/// A search that runs.
#[derive(Drop)]
pub(crate) struct Search {
    pub(crate) slices: Slices,
    pub(crate) last: u8,
    pub(crate) infinite: bool,
    /// The moment at which it began.
    pub(crate) begin: u64,
    /// The milliseconds that it may take, if it is timed.
    pub(crate) budget: Option<u32>,
    /// The last completed depth, 0 before the first.
    pub(crate) done: u8,
    /// The best at that depth.
    pub(crate) completed: Option<(Move, i32)>,
}

/// What is replied to a slice, and whether the search has ended.
#[derive(Drop)]
pub(crate) struct Turn {
    pub(crate) replies: ArrayVec<Reply, 4>,
    pub(crate) over: bool,
}

/// No reply.
pub(crate) fn silence() -> ArrayVec<Reply, 4>
    ensures { result.items ≡ [] }
{
    ArrayVec::new()
}

/// A list of one.
pub(crate) fn one<T: Default + Drop>(item: T) -> ArrayVec<T, 4>
    ensures { result.items ≡ item ∷ [] }
{
    let mut list = ArrayVec::new();
    list.push(item);
    list
}

/// A list of two.
pub(crate) fn two<T: Default + Drop>(first: T, second: T) -> ArrayVec<T, 4>
    ensures { result.items ≡ first ∷ second ∷ [] }
{
    let mut list = ArrayVec::new();
    list.push(first);
    list.push(second);
    list
}

// Nothing is replied, and the search goes on.
fn quiet() -> Turn
    ensures replies { result.replies.items ≡ [] }
    ensures over { result.over ≡ false }
{
    Turn {
        replies: silence(),
        over: false,
    }
}

// The first root.
fn first_root(roots: &ArrayVec<Move, 432>) -> Option<Move>
    ensures { result ≡ first_root roots.now.items }
{
    match roots.as_slice() {
        [] => None,
        [first, ..] => Some(*first),
    }
}

impl Search {
    /// What is replied when it ends.
    pub(crate) fn end(&self) -> ArrayVec<Reply, 4>
        ensures { result.items ≡ (ended_with self.now.completed self.now.slices.roots).0 }
    {
        match self.completed {
            Some((best, _value)) => one(Reply::BestMove(Some(best))),
            None => one(Reply::BestMove(first_root(self.slices.roots()))),
        }
    }

    // What is reported of the completed depth.
    fn info(&self) -> ArrayVec<Reply, 4>
        ensures { result.items ≡ info self.now.done self.now.completed }
    {
        match self.completed {
            Some((best, value)) => one(Reply::Info {
                depth: self.done,
                best,
                value,
            }),
            None => silence(),
        }
    }

    // What is reported of it where the search ends with it.
    fn last_info(&self) -> ArrayVec<Reply, 4>
        ensures { result.items ≡ info self.now.done self.now.completed ++ Reply.BestMove (chosen self.now.completed self.now.slices.roots) ∷ [] }
    {
        match self.completed {
            Some((best, value)) => two(
                Reply::Info {
                    depth: self.done,
                    best,
                    value,
                },
                Reply::BestMove(Some(best)),
            ),
            None => self.end(),
        }
    }

    /// Whether the moment ends it.
    pub(crate) fn is_reached(&self, moment: u64) -> bool
        requires { self.now.begin ≤ moment }
        ensures { result ≡ is_reached (option_map (λ b. self.now.begin + b) self.now.budget) moment }
    {
        match self.budget {
            Some(budget) => moment - self.begin >= u64::from(budget),
            None => false,
        }
    }

    /// After how many milliseconds from the moment the clock ends it, if it does.
    pub(crate) fn time_left(&self, moment: u64) -> Option<u64>
        requires { self.now.begin ≤ moment }
        ensures { result ≡ option_map (λ b. self.now.begin + b - moment) self.now.budget }
    {
        match self.budget {
            Some(budget) => Some(u64::from(budget).saturating_sub(moment - self.begin)),
            None => None,
        }
    }

    // A depth is complete, with its best move.
    fn complete(&mut self, best: Option<(Move, i32)>) -> Turn
        requires depth { self.old.slices.depth ≤ self.old.last }
        requires last { self.old.last ≤ 16 }
        requires all { self.old.slices.searched ≡ length self.old.slices.roots }
        ensures turn { turn_of result self.new ≡ completed (self.old.slices.depth == self.old.last) self.old.infinite (search_of self.old) best }
        ensures going { (line : GameLine) → GoesWith line self.old.slices → 0 < length self.old.slices.roots → result.over ≡ false → GoesOn line self.new }
        ensures begun { self.new.begin ≡ self.old.begin }
    {
        self.done = self.slices.depth();
        self.completed = best;
        if self.done == self.last && !self.infinite {
            return Turn {
                replies: self.last_info(),
                over: true,
            };
        }
        if self.done < self.last {
            self.slices.again(self.done + 1);
        }
        Turn {
            replies: self.info(),
            over: false,
        }
    }

    /// Searches one root more, if one is left, and says how many positions were asked for; `None` where the watch has it abandoned, and then
    /// the search is as before.
    pub(crate) fn slice_within<A: Allocator, W: Watch>(
        &mut self,
        line: &mut Line<'_, A>,
        watch: &mut W,
        nodes: &mut u64,
    ) -> Option<Turn>
        requires none { line.old.looked ≡ 0 }
        requires goes { GoesOn line.old.line self.old }
        ensures made { IfSome result (λ turn. turn_of turn self.new ≡ slice line.old.line (search_of self.old)) }
        ensures abandoned { IfNone result (search_of self.new ≡ search_of self.old) }
        ensures going { IfSome result (λ turn. turn.over ≡ false → GoesOn line.old.line self.new) }
        ensures goes { IfNone result (GoesOn line.old.line self.new) }
        ensures begun { self.new.begin ≡ self.old.begin }
        ensures stays { W.says watch.new ≡ W.says watch.old }
        ensures watched { IsWatched (W.says watch.old) nodes.new (is_some result) }
        ensures at_least { min 1 (search_size line.old.line (Some (search_of self.old))) ≤ nodes.new }
        ensures at_most { nodes.new ≤ search_size line.old.line (Some (search_of self.old)) }
        ensures line { IsAsBefore line.old line.new }
    {
        *nodes = 0;
        let roots = self.slices.roots().len();
        if self.slices.searched() >= roots {
            return Some(quiet());
        }
        self.slices.count_anew();
        let searched = self.slices.next_within(line, watch);
        *nodes = self.slices.nodes();
        if !searched {
            return None;
        }
        if self.slices.searched() < roots {
            return Some(quiet());
        }
        let best = self.slices.done();
        Some(self.complete(best))
    }
}
