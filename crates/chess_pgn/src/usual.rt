//! The position in which a game begins unless its tags say otherwise.

ghost use Rattle.std.specs.Prelude.{◌≡◌, IsTrue, bytes_eq};
ghost use Rattle.chess_fen.specs.Writing.{written};
ghost use Rattle.chess_types.specs.board.Position.{start};

use arrayvec::ArrayString;
use chess_items::is;
use chess_tree::Tree;
use std::alloc::Allocator;

/// Whether that is the FEN of the position in which a game begins where no tag says otherwise.
fn is_usual(fen: &[u8]) -> bool
    ensures { result ≡ bytes_eq fen.now (written start) }
{
    is(
        fen,
        b"rnbqkbnr/pppppppp/8/8/8/8/PPPPPPPP/RNBQKBNR w KQkq - 0 1",
    )
}

/// The FEN of the position in which a game begins, and whether that is the usual one.
pub fn start_of<'a, A: Allocator>(tree: &Tree<'a, A>) -> (ArrayString<128>, bool)
    ensures text { result.0.bytes ≡ written tree.now.tree.start }
    ensures usual { result.1 ≡ bytes_eq result.0.bytes (written start) }
    ensures start { IsTrue result.1 → tree.now.tree.start ≡ start }
{
    let fen = chess_fen::write(tree.position());
    let usual = is_usual(fen.as_bytes());
    (fen, usual)
}
