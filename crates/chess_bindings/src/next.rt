//! The first game of bytes of which more may come.
ghost use Rattle.std.specs.Prelude.{◌≡◌, [], IfErr, IfOk};
ghost use Rattle.chess_pgn.specs.steps.GameCode.{game_of};
ghost use Rattle.chess_bindings.specs.Next.{BeginsAnyhow, IsNext, IsNoNext, LoadsNext};

use crate::codes::{MEMORY, MORE, NO_GAME, OK, fault_code};
use crate::coming::Coming;
use crate::games::is_of_text;
use crate::heading::Heading;
use chess_cli::Board;
use chess_pgn::{Game, Games, GamesFault};
use std::alloc::Allocator;

// The game, where one is at the start of the bytes whatever follows, and the number of its bytes; else the status, and the number of the bytes to pass over.
fn read_next<'a, A: Allocator>(
    alloc: &'a A,
    text: &[u8],
    is_last: bool,
    used: &mut usize,
) -> Result<Game<'a, A>, u32>
    ensures game { IfOk result (λ game. BeginsAnyhow text.now is_last (game_of game) used.new) }
    ensures cursor { IfOk result (λ game. game.tree.path ≡ []) }
    ensures none { IfErr result (λ code. IsNoNext text.now is_last code used.old used.new) }
{
    let mut games = Games::new(alloc, Coming::new(text, is_last));
    match games.next() {
        Ok(Some(game)) => {
            *used = games.used() as usize;
            Ok(game)
        }
        Ok(None) => {
            *used = text.len();
            Err(NO_GAME)
        }
        Err(GamesFault::Read) => Err(MORE),
        Err(GamesFault::Pgn(fault)) => {
            if !is_of_text(fault.kind) {
                return Err(MEMORY);
            }
            match games.pass_over() {
                Ok(_) => {
                    *used = games.used() as usize;
                    Err(fault_code(fault.kind))
                }
                Err(GamesFault::Read) => Err(MORE),
                Err(GamesFault::Pgn(_)) => Err(MEMORY),
            }
        }
    }
}

/// How many bytes of a text to pass over to what follows its first game, where only its first bytes are known, or all (`is_last`): 0, those of the game at their
/// start, which is there whatever follows them. 16 where they are all whitespace, and nothing follows. Where no game is there, the number of the text's first
/// fault and 40, and the bytes that are given up with it. 14 where more bytes decide, and 2 where there is no memory: the number is as it was.
pub fn next_game<A: Allocator>(alloc: &A, text: &[u8], is_last: bool, used: &mut usize) -> u32
    ensures { IsNext text.now is_last result used.old used.new }
{
    match read_next(alloc, text, is_last, used) {
        Ok(_) => OK,
        Err(code) => code,
    }
}

/// The same, and where a game is there, board and heading have it: its tree, the cursor at its root, its tags and how it ended. But for 0 they are as they were.
pub fn load_next<'a, A: Allocator>(
    board: &mut Board<'a, A>,
    heading: &mut Heading<'a, A>,
    text: &[u8],
    is_last: bool,
    used: &mut usize,
) -> u32
    ensures { LoadsNext text.now is_last board.old heading.old result used.old used.new board.new heading.new }
{
    let alloc = heading.alloc();
    let mut taken = *used;
    match read_next(alloc, text, is_last, &mut taken) {
        Ok(game) => {
            let Ok(()) = board.begin_with(game.tree) else {
                return MEMORY;
            };
            *heading = Heading::of(alloc, game.tags, game.result);
            *used = taken;
            OK
        }
        Err(code) => {
            *used = taken;
            code
        }
    }
}
