//! Which legal moves a `go` line has searched.

ghost use Rattle.std.specs.Prelude.{◌≡◌, filter};
ghost use Rattle.chess_types.specs.board.Texts.{move_text};
ghost use Rattle.byte_streams.specs.Words.{words};
ghost use Rattle.chess_uci.specs.Commands.{gaps};
ghost use Rattle.chess_uci.specs.Go.{is_listed};
ghost use Rattle.chess_uci.specs.Machine.{or_all};

use crate::go::is_listed;
use arrayvec::ArrayVec;
use chess_types::Move;

// The moves whose texts are listed.
fn listed(moves: &ArrayVec<Move, 432>, list: &[u8]) -> ArrayVec<Move, 432>
    ensures { result.items ≡ filter (λ m. is_listed (move_text m) (words gaps list.now)) moves.now.items }
{
    let mut found = ArrayVec::new();
    for m in moves.as_slice() {
        if is_listed(m.text().as_str().as_bytes(), list) {
            found.push(*m);
        }
    }
    found
}

/// The moves whose texts are listed, or all where none is.
pub(crate) fn roots_among(moves: ArrayVec<Move, 432>, list: &[u8]) -> ArrayVec<Move, 432>
    ensures { result.items ≡ or_all (filter (λ m. is_listed (move_text m) (words gaps list.now)) moves.items) moves.items }
{
    let found = listed(&moves, list);
    if found.is_empty() { moves } else { found }
}
