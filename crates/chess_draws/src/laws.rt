//! The law of the text that shows which positions are the same (FIDE Laws 9.2.3).

ghost use Rattle.std.specs.Prelude.{◌≡◌, true};
ghost use Rattle.chess_types.specs.board.Lines.{last};
ghost use Rattle.chess_types.specs.board.Repetition.{is_same};
ghost use Rattle.chess_fen.specs.Writing.{identity};

use crate::line::Line;
use chess_fen::write_fields;
use std::alloc::Allocator;

/// The last positions of two lines are the same (FIDE Laws 9.2.3) exactly where they have the same text of four fields, as `Line::identity` writes it.
pub fn identity_laws<A: Allocator>(some: &Line<'_, A>, other: &Line<'_, A>)
    ensures same { is_same (last some.now.line) (last other.now.line) ≡ true → identity (last some.now.line) ≡ identity (last other.now.line) }
    ensures apart { identity (last some.now.line) ≡ identity (last other.now.line) → is_same (last some.now.line) (last other.now.line) ≡ true }
{
    // No man is anywhere but on the 64 squares.
    let some = some.live();
    let _some = write_fields(some.position(), None);
    let other = other.live();
    let _other = write_fields(other.position(), None);
}
