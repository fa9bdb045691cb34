//! The game of a text, loaded into a board.
ghost use Rattle.chess_bindings.specs.Loads.{LoadsFrom};

use crate::codes::{MEMORY, NO_GAME, OK};
use crate::games::refused;
use crate::heading::Heading;
use chess_cli::Board;
use chess_pgn::read_game;
use std::alloc::Allocator;

/// Begins with the game at the start of a text (PGN): its tree, the cursor at its root, its tags and how it ended; and says how many bytes of the text it takes:
/// 0. 16 where only whitespace follows. Where no game is there, the number of the text's first fault and 40, and the fault's place where else the bytes taken
/// are. 2 where there is no memory, and nothing is written. But for 0 board and heading are as they were.
pub fn load<'a, A: Allocator>(
    board: &mut Board<'a, A>,
    heading: &mut Heading<'a, A>,
    text: &[u8],
    used: &mut usize,
) -> u32
    ensures { LoadsFrom text.now board.old heading.old result used.old used.new board.new heading.new }
{
    let alloc = heading.alloc();
    match read_game(alloc, text) {
        Ok(Some((game, taken))) => {
            let Ok(()) = board.begin_with(game.tree) else {
                return MEMORY;
            };
            *heading = Heading::of(alloc, game.tags, game.result);
            *used = taken;
            OK
        }
        Ok(None) => NO_GAME,
        Err(fault) => refused(fault, text, used),
    }
}
