//! What the tests of rows share: layouts, games, and whether rows are written so.

use arrayvec::ArrayVec;
use chess_pgn::{Game, read_game};
use chess_positions::{Column, Format, Layout, header, rows};
use std::alloc::{AllocError, Allocator};
use std::process::Abort;

/// Rows of these columns.
pub fn layout_of(format: Format, columns: &[Column]) -> Layout {
    let mut chosen = ArrayVec::new();
    for column in columns {
        let _ = chosen.try_push(*column);
    }
    Layout {
        format,
        columns: chosen,
    }
}

/// The game of a text.
pub fn game_of<'a, A: Allocator>(rt: &impl Abort, alloc: &'a A, text: &[u8]) -> Game<'a, A> {
    let Ok(Some((game, _))) = read_game(alloc, text) else {
        panic!(rt; "no game");
    };
    game
}

/// The header and the rows of a game.
pub fn all_of<'a, A: Allocator>(
    alloc: &'a A,
    layout: &Layout,
    number: u64,
    game: &Game<'_, A>,
) -> Result<Vec<u8, &'a A>, AllocError> {
    let mut all = header(alloc, layout)?;
    let more = rows(alloc, layout, number, game)?;
    all.extend_from_slice(more.as_slice())?;
    Ok(all)
}

/// Whether these are the rows of the game that a text has, the seventh.
pub fn is_written(
    rt: &impl Abort,
    alloc: &impl Allocator,
    format: Format,
    columns: &[Column],
    text: &[u8],
    expected: &str,
) -> bool {
    let game = game_of(rt, alloc, text);
    let layout = layout_of(format, columns);
    let all = all_of(alloc, &layout, 7, &game).expect(rt, "memory");
    all.as_slice() == expected.as_bytes()
}
