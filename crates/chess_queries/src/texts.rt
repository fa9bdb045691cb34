//! The legal moves of a position, each with its text.

ghost use Rattle.std.specs.Prelude.{◌≡◌, IfOk, map};
ghost use Rattle.chess_types.specs.board.Legal.{legal_moves};
ghost use Rattle.chess_types.specs.board.Lines.{last};
ghost use Rattle.chess_san.specs.Writing.{san};
ghost use Rattle.chess_draws.specs.LineParts.{IsAsBefore};
ghost use Rattle.chess_queries.specs.Texts.{moves_of, texts_of};

use arrayvec::ArrayString;
use chess_draws::Line;
use chess_types::Move;
use std::alloc::{AllocError, Allocator};

/// A move and its text.
#[derive(Clone, Copy)]
pub struct MoveText {
    pub played: Move,
    /// In standard algebraic notation, at most 7 bytes (PGN 8.2.3).
    pub san: ArrayString<8>,
}

/// The legal moves of a line's last position, in order (FIDE Laws 3.1 to 3.10), each with its text in standard algebraic notation (PGN 8.2.3).
///
/// # Errors
///
/// Want of memory.
pub fn move_texts<A: Allocator, B: Allocator>(
    alloc: B,
    line: &mut Line<'_, A>,
) -> Result<Vec<MoveText, B>, AllocError>
    ensures moves { IfOk result (λ found. moves_of found.items ≡ legal_moves (last line.old.line)) }
    ensures texts { IfOk result (λ found. texts_of found.items ≡ map (san (last line.old.line)) (legal_moves (last line.old.line))) }
    ensures as_before { IsAsBefore line.old line.new }
{
    let moves = line.moves();
    let mut found = Vec::new(alloc);
    found.reserve(moves.len())?;
    for played in moves.as_slice() {
        let san = line.write_move(*played);
        found.push_reserved(MoveText {
            played: *played,
            san,
        });
    }
    Ok(found)
}
