//! Games of a text: read, passed over, and reported on.
ghost use Rattle.std.specs.Prelude.{◌≡◌, ◌⊎◌};
ghost use Rattle.chess_items.specs.declared.fault.FaultKind.TheVariants.{Memory};
ghost use Rattle.chess_pgn.specs.Reading.{HasNoGame, IsWhite};
ghost use Rattle.chess_bindings.specs.Games.{IsGameHanded, IsNone, IsPassed, is_of_text};
ghost use Rattle.chess_bindings.specs.Reports.{IsReport};

use crate::codes::{MEMORY, NO_GAME, OK, fault_code};
use crate::reports::{GameReport, report_of};
use crate::texts::hand;
use chess_items::given_up;
use chess_pgn::{FaultKind, PgnFault, read_game, write_game};
use std::alloc::Allocator;

// Whether it is a fault of the text, and not want of memory.
pub(crate) fn is_of_text(kind: FaultKind) -> bool
    ensures { result ≡ is_of_text kind }
{
    match kind {
        FaultKind::Memory => false,
        _ => true,
    }
}

/// What is answered where no game is at the start of a text, by the fault of its reader: the number of the fault and 40, with the fault's place in the text;
/// or 2 for want of memory, and the place is as it was.
pub fn refused(fault: PgnFault, text: &[u8], used: &mut usize) -> u32
    requires none { (fault.kind ≡ Memory) ⊎ HasNoGame text.now }
    requires not_white { IsWhite text.now → fault.kind ≡ Memory }
    ensures { IsNone text.now result used.old used.new }
{
    if !is_of_text(fault.kind) {
        return MEMORY;
    }
    *used = (fault.place as usize).min(text.len());
    fault_code(fault.kind)
}

/// The game at the start of a text (PGN), in export form, and how many bytes of the text it takes: 0. 16 where only whitespace follows. Where no game is
/// there, the number of the text's first fault and 40, and the fault's place where else the bytes taken are. 2 where there is no memory, and nothing is
/// written.
pub fn game<A: Allocator>(
    alloc: &A,
    text: &[u8],
    room: &mut [u8],
    count: &mut usize,
    used: &mut usize,
) -> u32
    ensures { IsGameHanded text.now result count.old count.new used.old used.new room.old room.new }
{
    match read_game(alloc, text) {
        Ok(Some((found, taken))) => match write_game(alloc, &found) {
            Ok(export) => {
                *used = taken;
                hand(export.as_slice(), room, count)
            }
            Err(_) => MEMORY,
        },
        Ok(None) => NO_GAME,
        Err(fault) => refused(fault, text, used),
    }
}

/// How many bytes to pass over to what follows the game at the start of a text: those that it takes, or all where only whitespace follows, or those that are
/// given up with a game that can't be read, which the text alone decides (`GivesUp` of `chess_items`). 2 where there is no memory, and the number is as it
/// was.
pub fn passed<A: Allocator>(alloc: &A, text: &[u8], used: &mut usize) -> u32
    ensures { IsPassed text.now result used.old used.new }
{
    match read_game(alloc, text) {
        Ok(Some((found, end))) => {
            *used = end;
            OK
        }
        Ok(None) => {
            *used = text.len();
            OK
        }
        Err(fault) => {
            if !is_of_text(fault.kind) {
                return MEMORY;
            }
            *used = given_up(text);
            OK
        }
    }
}

/// What the Laws say of the main line of the game at the start of a text, the FEN of its last position, and how many bytes of the text it takes: 0. Where
/// there is no game, it is answered as by `game`.
pub fn report<A: Allocator>(
    alloc: &A,
    text: &[u8],
    report: &mut GameReport,
    room: &mut [u8],
    count: &mut usize,
    used: &mut usize,
) -> u32
    ensures { IsReport text.now result count.old count.new used.old used.new report.old report.new room.old room.new }
{
    match read_game(alloc, text) {
        Ok(Some((found, taken))) => match report_of(alloc, &found) {
            Ok((codes, last)) => {
                *report = codes;
                *used = taken;
                hand(chess_fen::write(&last).as_str().as_bytes(), room, count)
            }
            Err(_) => MEMORY,
        },
        Ok(None) => NO_GAME,
        Err(fault) => refused(fault, text, used),
    }
}
