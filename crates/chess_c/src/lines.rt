//! Lines of the board's language answered for C, as the program answers them.

ghost use Rattle.std.specs.Prelude.{◌≡◌, ℕ, List, ◌⊎◌, Some, None};
ghost use Rattle.chess_tree.specs.GameTree.{TreeParts};
ghost use Rattle.chess_cli.specs.Requests.{request};
ghost use Rattle.chess_c.specs.Calls.{IsAnswerHanded};

use crate::slot::{Slot, put, take};
use chess_bindings::EMPTY;
use chess_memory::Kept;

/// Answers a line of the board, as the program does, and writes the answer with the line feed at its end. Where the answer is longer than the room
/// for it, or there is no memory to gather it in, the line has been answered all the same; only `path` and `pgn` have answers of more than 2,600 bytes.
#[unsafe(no_mangle)]
pub extern "C" fn jatshegi_board_answer(
    alloc: Kept,
    slot: &mut Slot,
    line: &[u8],
    answer: &mut [u8],
    count: &mut usize,
) -> u32
    ensures { IsAnswerHanded slot.old.held line.now result count.old count.new answer.old answer.new slot.new.held }
{
    let Some(mut session) = take(slot, alloc) else {
        return EMPTY;
    };
    let code = session.answer(line, answer, count);
    put(slot, session, alloc);
    code
}
