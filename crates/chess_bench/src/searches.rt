//! The best of all legal moves with the number of positions that were asked for, to be timed.

ghost use Rattle.std.specs.Prelude.{◌≡◌, ◌≤◌};
ghost use Rattle.chess_draws.specs.LineParts.{IsAsBefore};
ghost use Rattle.chess_search.specs.Slices.{IsInRange};

use chess_draws::Line;
use chess_search::{Nodes, best_counted};
use chess_types::Move;
use std::alloc::Allocator;

/// The best of all legal moves, `depth` plies deep, and how many positions were asked for.
#[tactic(auto, using(chess_search::proofs::RootLemmas::roots_legal))]
pub fn best_of_all<A: Allocator>(
    line: &mut Line<'_, A>,
    depth: u8,
    nodes: &mut Nodes,
) -> Option<(Move, i32)>
    requires none { line.old.looked ≡ 0 }
    requires deep { 1 ≤ depth }
    requires shallow { depth ≤ 16 }
    ensures in_range { IsInRange result }
    ensures line { IsAsBefore line.old line.new }
{
    let roots = line.moves();
    best_counted(line, depth, &roots, nodes, false)
}
