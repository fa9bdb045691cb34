//! The move before a row, made on the line, and its text where a column asks for it.

ghost use Rattle.std.specs.Prelude.{◌≡◌, ◌<◌, ◌++◌, Some, true, length, IfOk, OnOk};
ghost use Rattle.chess_types.specs.board.After.{after};
ghost use Rattle.chess_types.specs.board.Legal.{is_legal};
ghost use Rattle.chess_types.specs.board.Lines.{extended, last};
ghost use Rattle.chess_san.specs.Writing.{mark_text, san};
ghost use Rattle.chess_draws.specs.LineParts.{IsAsBefore};
ghost use Rattle.chess_draws.specs.Pushes.{most_plies};
ghost use Rattle.chess_positions.specs.steps.Made.{IsReached};

use arrayvec::ArrayString;
use chess_draws::PlainLine;
use chess_types::Move;
use std::alloc::{AllocError, Allocator};

/// The move that was made last.
#[derive(Clone, Copy)]
pub(crate) struct Made {
    pub played: Move,
    /// Its text in standard algebraic notation without its mark, where that is asked for.
    pub unmarked: ArrayString<8>,
}

// The text of a legal move without its mark, where it is asked for.
fn unmarked_if<A: Allocator>(
    line: &mut PlainLine<A>,
    with_san: bool,
    played: Move,
) -> ArrayString<8>
    requires legal { is_legal (last line.old.line) played ≡ true }
    ensures text { with_san ≡ true → result.bytes ++ mark_text (after (last line.old.line) played) ≡ san (last line.old.line) played }
    ensures as_before { IsAsBefore line.old line.new }
{
    if with_san {
        line.write_unmarked(played)
    } else {
        ArrayString::new()
    }
}

/// Makes a legal move.
pub(crate) fn make<A: Allocator>(
    line: &mut PlainLine<A>,
    with_san: bool,
    played: Move,
) -> Result<Made, AllocError>
    requires none { line.old.looked ≡ 0 }
    requires legal { is_legal (last line.old.line) played ≡ true }
    requires few { length line.old.line.moves < most_plies }
    ensures line { OnOk result (line.new.line ≡ extended line.old.line played) }
    ensures none { OnOk result (line.new.looked ≡ 0) }
    ensures made { IfOk result (λ made. IsReached with_san line.new.line (Some made)) }
{
    let unmarked = unmarked_if(line, with_san, played);
    if line.reserve(1).is_err() {
        return Err(AllocError);
    }
    line.push_prepared(played);
    Ok(Made { played, unmarked })
}
