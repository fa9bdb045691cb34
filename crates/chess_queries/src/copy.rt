//! A line copied, its moves made again.

ghost use Rattle.std.specs.Prelude.{◌≡◌, ◌≤◌, IfOk};

use chess_draws::Line;
use chess_key::KeyTable;
use std::alloc::{AllocError, Allocator};

/// The same line once more, its moves made again.
///
/// # Errors
///
/// Want of memory.
pub fn copy_line<'k, A: Allocator, B: Allocator>(
    alloc: B,
    table: &'k KeyTable,
    line: &Line<'_, A>,
) -> Result<Line<'k, B>, AllocError>
    requires none { line.now.looked ≡ 0 }
    requires clock { line.now.line.start.clock ≤ 99999 }
    requires number { line.now.line.start.number ≤ 99999 }
    ensures line { IfOk result (λ copy. copy.line ≡ line.now.line) }
    ensures none { IfOk result (λ copy. copy.looked ≡ 0) }
{
    let Ok(root) = line.root().clone() else {
        unreachable!();
    };
    let mut copy = Line::start(alloc, root, table);
    if copy.reserve(line.plies()).is_err() {
        return Err(AllocError);
    }
    for ply in 0..line.plies() {
        let Some(m) = line.played(ply) else {
            unreachable!();
        };
        copy.push_prepared(m);
    }
    Ok(copy)
}
