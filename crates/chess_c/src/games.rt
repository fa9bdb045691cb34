//! Games at the start of a text for C: read, salvaged, reported on, or passed over.

ghost use Rattle.chess_bindings.specs.Games.{IsGameHanded, IsPassed};
ghost use Rattle.chess_bindings.specs.Next.{IsNext};
ghost use Rattle.chess_bindings.specs.Reports.{IsReport};
ghost use Rattle.chess_bindings.specs.Saved.{IsReadOrSaved};

use chess_bindings::{
    GameReport, MEMORY, RepairReport, game, next_game, passed, report, saved_game,
};
use chess_memory::{Lender, handle_of};

/// The game at the start of a text (PGN), in export form, and how many bytes of the text it takes: 0. 16 where only whitespace follows. Where no game is
/// there, the number of the text's first fault and 40, and the fault's place where else the bytes taken are. 2 where there is no memory, and nothing is
/// written.
#[unsafe(no_mangle)]
pub extern "C" fn jatshegi_game_read(
    lender: Lender,
    text: &[u8],
    room: &mut [u8],
    count: &mut usize,
    used: &mut usize,
) -> u32
    ensures { IsGameHanded text.now result count.old count.new used.old used.new room.old room.new }
{
    let Some(handle) = handle_of(lender) else {
        return MEMORY;
    };
    game(&handle, text, room, count, used)
}

/// The same, and where strict reading refuses the text, what that gives of it after repair, with the repairs, as many as there are places for, and their
/// number: 0. Where no game can be saved, the number of the text's first fault and 40, and the bytes to pass over where else the bytes taken are.
#[unsafe(no_mangle)]
pub extern "C" fn jatshegi_game_salvage(
    lender: Lender,
    text: &[u8],
    room: &mut [u8],
    count: &mut usize,
    repairs: &mut [RepairReport],
    repaired: &mut usize,
    used: &mut usize,
) -> u32
    ensures { IsReadOrSaved text.now result count.old count.new used.old used.new repaired.old repaired.new room.old room.new repairs.old repairs.new }
{
    let Some(handle) = handle_of(lender) else {
        return MEMORY;
    };
    saved_game(&handle, text, room, count, repairs, repaired, used)
}

/// What the Laws say of the main line of the game at the start of a text (FIDE Laws 5 and 9), the FEN of its last position, at most 128 bytes, and how many
/// bytes of the text the game takes: 0. Where no game is there, it is answered as by `jatshegi_game_read`.
#[unsafe(no_mangle)]
pub extern "C" fn jatshegi_game_report(
    lender: Lender,
    text: &[u8],
    found: &mut GameReport,
    fen: &mut [u8],
    count: &mut usize,
    used: &mut usize,
) -> u32
    ensures { IsReport text.now result count.old count.new used.old used.new found.old found.new fen.old fen.new }
{
    let Some(handle) = handle_of(lender) else {
        return MEMORY;
    };
    report(&handle, text, found, fen, count, used)
}

/// How many bytes to pass over to what follows the game at the start of a text: those that it takes, or all where only whitespace follows, or those that are
/// given up with a game that can't be read, which the text alone decides (`GivesUp` of `chess_items`). 2 where there is no memory, and the number is as it
/// was.
#[unsafe(no_mangle)]
pub extern "C" fn jatshegi_game_pass(lender: Lender, text: &[u8], used: &mut usize) -> u32
    ensures { IsPassed text.now result used.old used.new }
{
    let Some(handle) = handle_of(lender) else {
        return MEMORY;
    };
    passed(&handle, text, used)
}

/// How many bytes of a text to pass over to what follows its first game, where only its first bytes are known, or all (`is_last`): 0, those of the game at
/// their start, which is there whatever follows. 16 where all are whitespace, and nothing follows. Where no game is there, the number of the text's first
/// fault and 40, and the bytes that are given up with it, as `jatshegi_game_pass` has them of the whole text. 14 where more bytes decide, and 2 where there is
/// no memory: the number is as it was.
#[unsafe(no_mangle)]
pub extern "C" fn jatshegi_game_next(
    lender: Lender,
    text: &[u8],
    is_last: bool,
    used: &mut usize,
) -> u32
    ensures { IsNext text.now is_last result used.old used.new }
{
    let Some(handle) = handle_of(lender) else {
        return MEMORY;
    };
    next_game(&handle, text, is_last, used)
}
