//! The line of moves that a `position` line names.

ghost use Rattle.std.specs.Prelude.{◌≡◌, ◌∷◌, ◌++◌, Some, true, is_some, OnErr, OnOk, IfOk, codes};
ghost use Rattle.chess_types.specs.board.Position.{start};
ghost use Rattle.byte_streams.specs.Words.{words};
ghost use Rattle.chess_fen.specs.Reading.{fen_reading};
ghost use Rattle.chess_uci.specs.Commands.{gaps};
ghost use Rattle.chess_uci.specs.Placing.{is_moves, before_moves, after_moves, start_line, spaced, if_read, begun_by, line_with_word, line_played, placed, names_fen, AddsMove, Grows};
ghost use Rattle.chess_uci.specs.steps.Places.{Places, Begins};

use crate::command::GAPS;
use byte_streams::split_word;
use chess_draws::{Line, LineFault};
use chess_key::KeyTable;
use chess_types::{Move, Position};
use std::alloc::{AllocError, Allocator};

/// Why a `position` line leads to no line of moves.
#[derive(Clone, Copy)]
pub(crate) enum PlaceFault {
    /// It names none.
    Refused,
    /// There is no memory for it.
    Memory,
}

fn is_moves(word: &[u8]) -> bool
    ensures { result ≡ is_moves word.now }
{
    word == b"moves".as_slice()
}

/// The line of a game as it begins.
#[tactic(auto, unfolding(chess_types::specs::board::Position::start))]
pub(crate) fn start_line<'a, A: Allocator>(alloc: &'a A, table: &'a KeyTable) -> Line<'a, &'a A>
    ensures line { result.line ≡ start_line }
    ensures looked { result.looked ≡ 0 }
{
    Line::start(alloc, Position::start(), table)
}

// What comes after the first `moves`; nothing where there is none.
fn after_moves(text: &[u8]) -> &[u8]
    ensures { words gaps result.now ≡ after_moves (words gaps text.now) }
{
    let mut rest = text;
    while let Some((word, others)) = split_word(rest, GAPS) {
        if is_moves(word) {
            return others;
        }
        rest = others;
    }
    &[]
}

// A word and a space after it.
fn add_word<'a, A: Allocator>(text: &mut Vec<u8, &'a A>, word: &[u8]) -> Result<(), AllocError>
    ensures { OnOk result (text.new.items ≡ text.old.items ++ (word.now ++ codes " ")) }
{
    text.extend_from_slice(word)?;
    text.push(b' ')?;
    Ok(())
}

// The words up to the first `moves`, each with a space after it.
fn fen_text<'a, A: Allocator>(alloc: &'a A, text: &[u8]) -> Result<Vec<u8, &'a A>, AllocError>
    ensures fen { IfOk result (λ fen. fen.items ≡ spaced (before_moves (words gaps text.now))) }
    ensures grows { OnErr result (names_fen (codes "fen" ∷ before_moves (words gaps text.now)) ≡ true) }
{
    let mut fen = Vec::new(alloc);
    let mut rest = text;
    while let Some((word, others)) = split_word(rest, GAPS) {
        if is_moves(word) {
            return Ok(fen);
        }
        add_word(&mut fen, word)?;
        rest = others;
    }
    Ok(fen)
}

// The line that begins in the position whose FEN comes before the first `moves`.
fn begin_in<'a, A: Allocator>(
    alloc: &'a A,
    table: &'a KeyTable,
    text: &[u8],
) -> Result<Line<'a, &'a A>, PlaceFault>
    ensures begun { Begins (names_fen (codes "fen" ∷ before_moves (words gaps text.now)) ≡ true) (if_read (fen_reading (spaced (before_moves (words gaps text.now))))) result }
{
    let Ok(fen) = fen_text(alloc, text) else {
        return Err(PlaceFault::Memory);
    };
    match chess_fen::read(fen.as_slice()) {
        Ok(position) => Ok(Line::start(alloc, position, table)),
        Err(_fault) => Err(PlaceFault::Refused),
    }
}

// Where the line begins, by the words up to the first `moves`.
fn begin<'a, A: Allocator>(
    alloc: &'a A,
    table: &'a KeyTable,
    text: &[u8],
) -> Result<Line<'a, &'a A>, PlaceFault>
    ensures begun { Begins (names_fen (before_moves (words gaps text.now)) ≡ true) (begun_by (before_moves (words gaps text.now))) result }
{
    let Some((word, rest)) = split_word(text, GAPS) else {
        return Err(PlaceFault::Refused);
    };
    if word == b"fen".as_slice() {
        return begin_in(alloc, table, rest);
    }
    if word != b"startpos".as_slice() {
        return Err(PlaceFault::Refused);
    }
    match split_word(rest, GAPS) {
        Some((word, _rest)) if !is_moves(word) => Err(PlaceFault::Refused),
        _ => Ok(start_line(alloc, table)),
    }
}

// The move that the word names in long algebraic notation is made.
fn play_word<A: Allocator>(line: &mut Line<'_, A>, word: &[u8]) -> Result<(), PlaceFault>
    requires none { line.old.looked ≡ 0 }
    ensures played { Places (is_some (line_with_word (Some line.old.line) word.now) ≡ true) (line_with_word (Some line.old.line) word.now) line.new.line result }
    ensures looked { line.new.looked ≡ 0 }
{
    let Some(m) = Move::parse(word) else {
        return Err(PlaceFault::Refused);
    };
    match line.push(m) {
        Ok(()) => Ok(()),
        Err(LineFault::Illegal) => Err(PlaceFault::Refused),
        Err(LineFault::TooLong) => Err(PlaceFault::Refused),
        Err(LineFault::Memory) => Err(PlaceFault::Memory),
    }
}

// The moves that the words name are made.
fn play<A: Allocator>(line: &mut Line<'_, A>, moves: &[u8]) -> Result<(), PlaceFault>
    requires none { line.old.looked ≡ 0 }
    ensures played { Places (AddsMove (Some line.old.line) (words gaps moves.now)) (line_played (Some line.old.line) (words gaps moves.now)) line.new.line result }
    ensures looked { line.new.looked ≡ 0 }
{
    let mut rest = moves;
    while let Some((word, others)) = split_word(rest, GAPS) {
        if let Err(fault) = play_word(line, word) {
            return Err(fault);
        }
        rest = others;
    }
    Ok(())
}

/// The line that the words after `position` name.
pub(crate) fn place<'a, A: Allocator>(
    alloc: &'a A,
    table: &'a KeyTable,
    text: &[u8],
) -> Result<Line<'a, &'a A>, PlaceFault>
    ensures placed { Begins (Grows (words gaps text.now)) (placed (words gaps text.now)) result }
{
    match begin(alloc, table, text) {
        Ok(mut line) => match play(&mut line, after_moves(text)) {
            Ok(()) => Ok(line),
            Err(fault) => Err(fault),
        },
        Err(fault) => Err(fault),
    }
}
