//! What the tests of games begin with: the words for keys, a game that is read, and one that is written.
ghost use Rattle.std.specs.Prelude.{◌<◌};
ghost use Rattle.chess_pgn.specs.Sources.{IsSound};

use byte_streams::{FromBytes, Source};
use chess_key::KeyTable;
use chess_pgn::{
    FaultKind, Game, Games, GamesFault, PgnFault, Texts, read_game, write_game, write_game_with,
};
use std::alloc::{AllocError, Allocator};
use std::process::Abort;

/// Words for keys.
pub fn a_table() -> KeyTable {
    KeyTable::new([0; 768])
}

/// That there is no memory.
pub const NO_MEMORY: PgnFault = PgnFault {
    place: 0,
    kind: FaultKind::Memory,
};

/// What was answered; nothing where there was no memory for it.
pub fn unless_no_memory<T>(rt: &impl Abort, answer: Result<T, PgnFault>) -> Option<T> {
    match answer {
        Ok(answered) => Some(answered),
        Err(fault) => {
            assert!(rt; fault == NO_MEMORY);
            None
        }
    }
}

/// The game that a text begins with, and how many bytes it uses.
pub fn first_game<'a, A: Allocator>(
    rt: &impl Abort,
    alloc: &'a A,
    text: &[u8],
) -> (Game<'a, A>, usize) {
    match read_game(alloc, text) {
        Ok(found) => found.expect(rt, "a game"),
        Err(_) => panic!(rt; "a fault"),
    }
}

/// The tags before the result of a game of which nothing is known.
pub const UNKNOWN: &str =
    "[Event \"?\"]\n[Site \"?\"]\n[Date \"????.??.??\"]\n[Round \"?\"]\n[White \"?\"]\n[Black \"?\"]\n";

/// Whether the text is the tags of an unknown game and that movetext.
fn is_unknown(text: &[u8], movetext: &str) -> bool {
    let Some(rest) = text.strip_prefix(UNKNOWN.as_bytes()) else {
        return false;
    };
    rest.strip_prefix(b"[Result \"*\"]\n\n".as_slice()) == Some(movetext.as_bytes())
}

/// Whether the game's text is the tags of an unknown game and that movetext.
pub fn is_written<'a, A: Allocator>(alloc: &'a A, game: &Game<'a, A>, movetext: &str) -> bool {
    match write_game(alloc, game) {
        Ok(text) => is_unknown(text.as_slice(), movetext),
        Err(_) => false,
    }
}

/// Writes the export forms of the games that are left after a text, a word with each that is another by the texts of moves that the
/// reader has found out; the fault that ends them.
fn export<'a, A: Allocator, R: Source>(
    alloc: &'a A,
    games: &mut Games<'a, R, A>,
    text: &mut Vec<u8, &'a A>,
    most: u32,
) -> Result<Option<GamesFault>, AllocError>
    requires sound { IsSound R.ended games.old }
{
    if most == 0 {
        return Ok(None);
    }
    let mut texts = Texts::new(alloc);
    match games.next_with(&mut texts) {
        Ok(None) => Ok(None),
        Err(fault) => Ok(Some(fault)),
        Ok(Some(game)) => {
            let Ok(written) = write_game(alloc, &game) else {
                return Err(AllocError);
            };
            let Ok(known) = write_game_with(alloc, &game, &texts) else {
                return Err(AllocError);
            };
            text.extend_from_slice(written.as_slice())?;
            if known.as_slice() != written.as_slice() {
                text.extend_from_slice(b"another")?;
            }
            export(alloc, games, text, most - 1)
        }
    }
}

/// What a source in pieces of one size gives: the export forms of its games, and the fault after them.
pub fn read_all<'a, A: Allocator>(
    alloc: &'a A,
    input: &[u8],
    piece: usize,
) -> Result<(Vec<u8, &'a A>, Option<GamesFault>), AllocError>
    requires { 0 < piece }
{
    let mut games = Games::new(alloc, FromBytes::new(input, piece));
    let mut text = Vec::new(alloc);
    let fault = export(alloc, &mut games, &mut text, 100)?;
    Ok((text, fault))
}
