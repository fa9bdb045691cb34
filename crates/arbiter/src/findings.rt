//! What is wrong with a game.

ghost use Rattle.std.specs.Prelude.{◌≡◌, bytes_eq, codes, option_map};
ghost use Rattle.byte_streams.specs.Words.{words};
ghost use Rattle.chess_fen.specs.Reading.{has_letter, rights_of};
ghost use Rattle.chess_fen.specs.Writing.{target_text};
ghost use Rattle.chess_pgn.specs.Games.{tag_value};
ghost use Rattle.chess_pgn.specs.Tags.{is_usual};
ghost use Rattle.chess_pgn.specs.steps.GameCode.{tags_of};
ghost use Rattle.chess_report.specs.Findings.{is_open};
ghost use Rattle.chess_types.specs.board.Mating.{is_bare};
ghost use Rattle.chess_types.specs.board.Repetition.{same_bool, same_rights};
ghost use Rattle.arbiter.specs.Rows.{fen_tag, gives_start, is_another, is_changed, is_chess, is_other_variant, is_unmarked, wins_bare};
ghost use Rattle.arbiter.specs.steps.Reports.{is_finding, is_unended};

use byte_streams::split_word;
use chess_collection::Heading;
use chess_items::is;
use chess_pgn::{Game, Outcome};
use chess_report::Report;
use chess_types::{Colour, Position, Rights, Setup, Square, Status};
use std::alloc::Allocator;

// Whether a Variant tag names chess, or nothing.
fn is_chess(variant: &[u8]) -> bool
    ensures { result ≡ is_chess variant.now }
{
    variant.eq_ignore_ascii_case(b"standard")
        || variant.eq_ignore_ascii_case(b"chess")
        || variant.eq_ignore_ascii_case(b"normal")
        || variant.eq_ignore_ascii_case(b"classical")
        || variant.eq_ignore_ascii_case(b"from position")
        || variant.eq_ignore_ascii_case(b"?")
        || variant.eq_ignore_ascii_case(b"")
}

/// Whether a Variant tag, if there is one, names another game.
pub fn is_other_variant(variant: Option<&[u8]>) -> bool
    ensures { result ≡ is_other_variant (option_map (λ v. v.now) variant.entry) }
{
    match variant {
        Some(variant) => !is_chess(variant),
        None => false,
    }
}

/// Whether the last position ends the game, and no marker says how.
pub fn is_left_open(report: &Report) -> bool
    ensures { result ≡ is_unended report.now }
{
    report.marker == Outcome::Unfinished && report.status != Status::Play
}

// Whether a side has only its king.
fn is_bare(position: &Position, side: Colour) -> bool
    ensures { result ≡ is_bare position.now side }
{
    position.setup().placement.men(side) == 1
}

/// Whether the marker is a win of a side that has only its king (FIDE Laws 6.9).
pub fn wins_bare(report: &Report) -> bool
    ensures { result ≡ wins_bare report.now.last report.now.marker }
{
    match report.marker {
        Outcome::WhiteWins => is_bare(&report.last, Colour::White),
        Outcome::BlackWins => is_bare(&report.last, Colour::Black),
        _ => false,
    }
}

/// Whether a Result tag says another result than the marker (PGN 8.1.1.7).
pub fn is_another(value: Option<&[u8]>, marker: Outcome) -> bool
    ensures { result ≡ is_another (option_map (λ v. v.now) value.entry) marker }
{
    match value {
        Some(value) => !is(value, marker.marker().as_bytes()),
        None => false,
    }
}

/// Whether a game with those bytes has no marker (PGN 8.2.6).
pub fn is_unmarked(bytes: &[u8], marker: Outcome) -> bool
    ensures { result ≡ is_unmarked bytes.now marker }
{
    marker == Outcome::Unfinished && !bytes.ends_with(b"*")
}

// Whether a letter stands in the field if the right is held, and only then.
fn is_written(field: &[u8], letter: u8, held: bool) -> bool
    ensures { result ≡ same_bool (has_letter field.now letter) held }
{
    field.contains(&letter) == held
}

// Whether the letters of a FEN's third field are those of the rights (PGN 16.1.3.3).
fn gives_rights(field: &[u8], rights: Rights) -> bool
    ensures { result ≡ same_rights (rights_of field.now) rights }
{
    is_written(field, b'K', rights.white_king)
        && is_written(field, b'Q', rights.white_queen)
        && is_written(field, b'k', rights.black_king)
        && is_written(field, b'q', rights.black_queen)
}

// Whether a FEN's fourth field is the target's square, or a hyphen if there is no target (PGN 16.1.3.4).
#[tactic(auto, unfolding(chess_fen::specs::Writing::target_text))]
fn gives_target(field: &[u8], target: Option<Square>) -> bool
    ensures { result ≡ bytes_eq field.now (target_text target) }
{
    match target {
        Some(square) => is(field, square.text().as_str().as_bytes()),
        None => is(field, b"-"),
    }
}

// Whether a FEN gives the castling rights and the target that the position has.
fn gives_start(fen: &[u8], start: &Setup) -> bool
    ensures { result ≡ gives_start (words (codes " ") fen.now) start.now }
{
    let Some((_, rest)) = split_word(fen, b" ") else {
        return false;
    };
    let Some((_, rest)) = split_word(rest, b" ") else {
        return false;
    };
    let Some((castling, rest)) = split_word(rest, b" ") else {
        return false;
    };
    let Some((target, _)) = split_word(rest, b" ") else {
        return false;
    };
    gives_rights(castling, start.rights) && gives_target(target, start.target)
}

/// Whether the FEN of a tag gives other castling rights, or another target, than the position has.
pub fn is_changed(given: Option<&[u8]>, start: &Position) -> bool
    ensures { result ≡ is_changed (option_map (λ v. v.now) given.entry) start.now }
{
    match given {
        Some(given) => !gives_start(given, start.setup()),
        None => false,
    }
}

// Whether a SetUp of 0 says that the game begins in the usual position (PGN 9.7.1).
fn is_usual(value: Option<&[u8]>) -> bool
    ensures { result ≡ is_usual (option_map (λ v. v.now) value.entry) }
{
    match value {
        Some(value) => is(value, b"0"),
        None => false,
    }
}

/// The FEN that the tags give, unless they say that the game begins in the usual position.
pub fn fen_tag(heading: &Heading) -> Option<&[u8]>
    ensures { option_map (λ v. v.now) result ≡ fen_tag heading.now }
{
    if is_usual(heading.set_up()) {
        return None;
    }
    heading.fen()
}

/// Whether something is wrong with a game: moves follow after it was over, its marker disagrees with the board, leaves open a game that is over, or is a
/// win of a king alone, it is a game of another variant, it has no marker or another than its Result tag, or its FEN is changed.
pub fn has_finding<A: Allocator>(
    game: &Game<'_, A>,
    report: &Report,
    start: &Position,
    heading: &Heading,
    is_unmarked: bool,
) -> bool
    ensures { result ≡ is_finding (tags_of game.now.tags) report.now start.now heading.now is_unmarked }
{
    report.played_on().is_some()
        || !report.agrees
        || is_left_open(report)
        || wins_bare(report)
        || is_other_variant(game.tag(b"Variant"))
        || is_another(heading.result(), report.marker)
        || is_unmarked
        || is_changed(fen_tag(heading), start)
}
