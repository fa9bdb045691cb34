//! The line of moves to a tree's cursor, made for a search of its own.

ghost use Rattle.std.specs.Prelude.{◌≡◌, IfOk};
ghost use Rattle.chess_tree.specs.GameTree.{line_to};

use chess_draws::Line;
use chess_key::KeyTable;
use chess_tree::Tree;
use std::alloc::{AllocError, Allocator};

/// The line from a tree's root to its cursor, its moves made again.
///
/// # Errors
///
/// Want of memory.
pub fn cursor_line<'k, A: Allocator, B: Allocator>(
    alloc: B,
    table: &'k KeyTable,
    tree: &Tree<'_, A>,
) -> Result<Line<'k, B>, AllocError>
    ensures line { IfOk result (λ line. line.line ≡ line_to tree.now) }
    ensures none { IfOk result (λ line. line.looked ≡ 0) }
{
    let Ok(start) = tree.position().clone() else {
        unreachable!();
    };
    let mut line = Line::start(alloc, start, table);
    if line.reserve(tree.depth()).is_err() {
        return Err(AllocError);
    }
    let mut node = tree.root();
    for ply in 0..tree.depth() {
        let Some(place) = tree.path_at(ply) else {
            unreachable!();
        };
        let Some(next) = node.child(place) else {
            unreachable!();
        };
        let Some(m) = next.move_at() else {
            unreachable!();
        };
        line.push_prepared(m);
        node = next;
    }
    Ok(line)
}
