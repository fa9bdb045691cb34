//! What a `go` line asks for: the moves to search, the time, and the last depth.

ghost use Rattle.std.specs.Prelude.{◌≡◌, ◌≤◌, []};
ghost use Rattle.byte_streams.specs.Words.{words};
ghost use Rattle.chess_uci.specs.Commands.{gaps};
ghost use Rattle.chess_uci.specs.Go.{is_searchmoves, is_name, after_searchmoves, is_listed, share, budget, last_depth};

use crate::command::GAPS;
use crate::fields::{Fields, name_of};
use byte_streams::split_word;
use chess_types::Colour;

fn is_searchmoves(word: &[u8]) -> bool
    ensures { result ≡ is_searchmoves word.now }
{
    word == b"searchmoves".as_slice()
}

fn is_name(word: &[u8]) -> bool
    ensures { result ≡ is_name word.now }
{
    name_of(word).is_some()
        || word == b"infinite".as_slice()
        || word == b"ponder".as_slice()
        || is_searchmoves(word)
}

/// What comes after the last `searchmoves`.
pub(crate) fn after_searchmoves(text: &[u8]) -> &[u8]
    ensures { words gaps result.now ≡ after_searchmoves [] (words gaps text.now) }
{
    let mut found: &[u8] = &[];
    let mut rest = text;
    while let Some((word, others)) = split_word(rest, GAPS) {
        if is_searchmoves(word) {
            found = others;
        }
        rest = others;
    }
    found
}

/// Whether the word is among those before the first name.
pub(crate) fn is_listed(text: &[u8], list: &[u8]) -> bool
    ensures { result ≡ is_listed text.now (words gaps list.now) }
{
    let mut rest = list;
    while let Some((word, others)) = split_word(rest, GAPS) {
        if is_name(word) {
            return false;
        }
        if word == text {
            return true;
        }
        rest = others;
    }
    false
}

fn share(time: u32, increment: u32) -> u32
    ensures { result ≡ share time increment }
{
    (time / 20 + increment / 2).min(time.saturating_sub(50).max(1))
}

/// The milliseconds that a search may take, if it is timed.
pub(crate) fn budget(fields: Fields, side: Colour) -> Option<u32>
    ensures { result ≡ budget fields side }
{
    if fields.infinite {
        return None;
    }
    if let Some(n) = fields.movetime {
        return Some(n);
    }
    let (time, increment) = match side {
        Colour::White => (fields.white_time, fields.white_increment),
        Colour::Black => (fields.black_time, fields.black_increment),
    };
    match time {
        Some(time) => Some(share(time, increment.unwrap_or(0))),
        None => None,
    }
}

/// The last depth of the search, in plies.
pub(crate) fn last_depth(fields: Fields, side: Colour) -> u8
    ensures value { result ≡ last_depth fields side }
    ensures deep { 1 ≤ result }
    ensures shallow { result ≤ 16 }
{
    match fields.depth {
        Some(depth) => depth.max(1).min(16) as u8,
        None => {
            if fields.infinite || budget(fields, side).is_some() {
                16
            } else {
                4
            }
        }
    }
}
