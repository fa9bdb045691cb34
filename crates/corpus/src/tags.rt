//! Tags for random games.

use chess_pgn::Tags;
use std::alloc::{AllocError, Allocator};

const NAMES: [&str; 6] = [
    "Anderssen, Adolf",
    "Kieseritzky, Lionel",
    "Menchik, Vera",
    "Morphy, Paul",
    "Polgar, Judit",
    "Capablanca, Jose Raul",
];

const OPENINGS: [&str; 4] = ["A00", "B20", "C33", "E90"];

fn text<'a, A: Allocator>(alloc: &'a A, bytes: &[u8]) -> Result<Vec<u8, &'a A>, AllocError> {
    let mut text = Vec::new(alloc);
    text.extend_from_slice(bytes)?;
    Ok(text)
}

fn pick<'n>(names: &[&'n str], index: u32) -> &'n str {
    let place = (index as usize).checked_rem(names.len()).unwrap_or(0);
    names.get(place).copied().unwrap_or("?")
}

/// Names and numbers for the game of that number.
pub fn name_game<'a, A: Allocator>(
    alloc: &'a A,
    tags: &mut Tags<'a, A>,
    index: u32,
) -> Result<(), AllocError> {
    tags.event = text(alloc, b"A game of random moves")?;
    tags.site = text(alloc, b"London ENG")?;
    tags.date = text(alloc, b"1851.06.21")?;
    tags.round = text(alloc, b"1")?;
    tags.white = text(alloc, pick(NAMES.as_slice(), index).as_bytes())?;
    tags.black = text(alloc, pick(NAMES.as_slice(), index / 6).as_bytes())?;
    let opening = pick(OPENINGS.as_slice(), index);
    tags.others
        .insert(text(alloc, b"ECO")?, text(alloc, opening.as_bytes())?)?;
    tags.others
        .insert(text(alloc, b"WhiteElo")?, text(alloc, b"2400")?)?;
    tags.others
        .insert(text(alloc, b"BlackElo")?, text(alloc, b"2398")?)
}
