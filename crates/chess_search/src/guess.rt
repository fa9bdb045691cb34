//! Which root is likely to be the best, guessed before the search.

ghost use Rattle.std.specs.Prelude.{◌≡◌, ◌<◌, ◌+◌, ◌≤◌, IsTrue, true, length};
ghost use Rattle.std.specs.List.{All};
ghost use Rattle.chess_types.specs.board.Legal.{is_legal};
ghost use Rattle.chess_types.specs.board.Lines.{last};
ghost use Rattle.chess_draws.specs.LineParts.{IsAsBefore};

use crate::frontier::{sums_after, sums_of};
use crate::search::{MOST, evaluation_for, turned_to};
use arrayvec::ArrayVec;
use chess_draws::Line;
use chess_types::{Move, Square};
use std::alloc::Allocator;

/// From which depth on a guess pays: what it costs is a small part of such a search.
const DEPTH: u8 = 3;

// The most that the side to move has by the evaluation, at once or after a capture on that square.
fn most_on<A: Allocator>(line: &mut Line<'_, A>, square: Square) -> i32
    ensures line { IsAsBefore line.old line.new }
{
    let mut moves: ArrayVec<Move, 432> = ArrayVec::new();
    line.moves_into(&mut moves);
    let live = line.live();
    let sums = sums_of(None, live);
    let mut most = evaluation_for(live);
    for m in moves.as_slice() {
        if m.to == square
            && let Some(next) = sums_after(&sums, live, *m, 1)
        {
            most = most.max(turned_to(live.position().side, next.white()));
        }
    }
    most
}

// The most that the other side is left with after a capture.
fn left_after<A: Allocator>(line: &mut Line<'_, A>, m: Move) -> i32
    requires legal { IsTrue (is_legal (last line.old.line) m) }
    requires few { line.old.looked < 16 }
    ensures line { IsAsBefore line.old line.new }
{
    line.look(m);
    let left = most_on(line, m.to);
    line.unlook();
    left
}

// The least that the side that doesn't move is left with, at once or after a capture that is answered on its square.
fn least_left<A: Allocator>(line: &mut Line<'_, A>) -> i32
    requires few { line.old.looked < 16 }
    ensures line { IsAsBefore line.old line.new }
{
    let mut moves: ArrayVec<Move, 432> = ArrayVec::new();
    line.moves_into(&mut moves);
    let mut least = -evaluation_for(line.live());
    for m in moves.as_slice() {
        if line.live().position().placement.get(m.to).is_some() {
            least = least.min(left_after(line, *m));
        }
    }
    least
}

// What a move is likely to be worth.
fn promise<A: Allocator>(line: &mut Line<'_, A>, m: Move) -> i32
    requires legal { IsTrue (is_legal (last line.old.line) m) }
    requires few { line.old.looked + 1 < 16 }
    ensures line { IsAsBefore line.old line.new }
{
    line.look(m);
    let left = least_left(line);
    line.unlook();
    left
}

/// The place of a root that is likely to be the best: the first that leaves most by the evaluation, whatever is captured after it and
/// captured back. No answer depends on it.
// (its lists of moves are off the stack again when the search begins)
#[inline(never)]
pub(crate) fn guess<A: Allocator>(line: &mut Line<'_, A>, roots: &[Move], depth: u8) -> usize
    requires none { line.old.looked ≡ 0 }
    requires some { 0 < length roots.now }
    requires legal { All (λ m. is_legal (last line.old.line) m ≡ true) roots.now }
    ensures inside { result < length roots.now }
    ensures line { IsAsBefore line.old line.new }
{
    if depth < DEPTH {
        return 0;
    }
    let mut best = (0, -MOST);
    for place in 0..roots.len() {
        let m = roots[place];
        let promised = promise(line, m);
        if promised > best.1 {
            best = (place, promised);
        }
    }
    best.0
}
