//! The columns of a report: their names, and the cells of a game that was read and of one that can't be.

ghost use Rattle.std.specs.Prelude.{◌≡◌, ◌++◌, codes, map, option_map, IfOk, Some};
ghost use Rattle.chess_types.specs.board.Outcome.{status_text};
ghost use Rattle.chess_fen.specs.Writing.{written};
ghost use Rattle.chess_items.specs.Faults.{name_of};
ghost use Rattle.chess_pgn.specs.steps.GameCode.{tags_of};
ghost use Rattle.arbiter.specs.Cells.{maybe, name_and_value, row_text, Number, Text};
ghost use Rattle.arbiter.specs.Rows.{colour_text, ending_cells, fault_cells, lost_cells, place_cells, roster_cells, roster_in, start_text};
ghost use Rattle.arbiter.specs.steps.Reports.{move_by, report_cells};
ghost use Rattle.arbiter.specs.steps.Rosters.{read_roster};

use crate::cell::{Cell, any_number, any_text, any_truth, any_word, nothing, number, truth, word};
use crate::findings::{fen_tag, is_another, is_changed, is_left_open, is_other_variant, wins_bare};
use crate::roster::{Roster, roster_in};
use crate::row::{Format, row_bytes};
use chess_collection::Heading;
use chess_command_line::Place;
use chess_items::is;
use chess_pgn::{Game, PgnFault};
use chess_report::{Over, Report};
use chess_types::{Colour, Position};
use std::alloc::{AllocError, Allocator, Global};

/// The row of the names of the columns, as comma-separated values.
pub const HEADER: &str =
    "number,offset,white,black,white_elo,black_elo,event,site,date,round,variant,other_variant,start_fen,fen_changed,plies,result,result_tag,other_result,no_marker,status,winner,over_ply,over_move,over_why,threefold_ply,threefold_move,fifty_ply,fifty_move,repetitions,quiet,agrees,left_open,bare_king_wins,fen,fault_place,fault\r\n";

// The FEN of the position in which a game usually begins.
const USUAL: &str = "rnbqkbnr/pppppppp/8/8/8/8/PPPPPPPP/RNBQKBNR w KQkq - 0 1";

// The word of a side.
fn colour_text(colour: Colour) -> &'static str
    ensures { result.now ≡ colour_text colour }
{
    match colour {
        Colour::White => "white",
        Colour::Black => "black",
    }
}

// The side that has mated the other.
fn winner_text(winner: Option<Colour>) -> Option<&'static str>
    ensures { option_map (λ text. text.now) result ≡ option_map colour_text winner }
{
    match winner {
        Some(side) => Some(colour_text(side)),
        None => None,
    }
}

// Where the game was over before its last move.
fn over_ply(over: Option<Over>) -> Option<u32>
    ensures { result ≡ option_map (λ o. o.ply) over }
{
    match over {
        Some(over) => Some(over.ply),
        None => None,
    }
}

// Why it was.
fn over_why(over: Option<Over>) -> Option<&'static str>
    ensures { option_map (λ text. text.now) result ≡ option_map (λ o. status_text o.why) over }
{
    match over {
        Some(over) => Some(over.why.name()),
        None => None,
    }
}

// The number of the move that leads to a ply; of a ply that is none, or has no move before it, nothing.
fn move_leading_to<'v>(name: &'static str, start: &Position, ply: Option<u32>) -> Cell<'v>
    ensures { name_and_value result ≡ (name.now, maybe Number (move_by start.now ply)) }
{
    let first = start.setup().number as u64;
    let black = match start.setup().side {
        Colour::White => 0u64,
        Colour::Black => 1u64,
    };
    match ply {
        None | Some(0) => nothing(name),
        Some(ply) => number(name, first + ((ply as u64 - 1) + black) / 2),
    }
}

// The FEN of a game's start, where it is another than the usual one.
fn start_fen<'v>(fen: &'v str) -> Cell<'v>
    ensures { name_and_value result ≡ (codes "start_fen", maybe Text (start_text fen.now)) }
{
    if is(fen.as_bytes(), USUAL.as_bytes()) {
        nothing("start_fen")
    } else {
        word("start_fen", fen)
    }
}

/// What is said of a game beside its report.
#[derive(Clone, Copy)]
pub struct Said<'v> {
    pub heading: &'v Heading,
    /// Whether it has no marker, if that is known.
    pub is_unmarked: Option<bool>,
    /// Why it can't be read as it is.
    pub fault: Option<PgnFault>,
}

// Where the fault of a game is.
fn fault_place<'v>(fault: Option<PgnFault>) -> Cell<'v>
    ensures { name_and_value result ≡ (codes "fault_place", maybe Number (option_map (λ f. f.place) fault)) }
{
    match fault {
        Some(fault) => number("fault_place", fault.place),
        None => nothing("fault_place"),
    }
}

// What kind of fault it is.
fn fault_kind<'v>(fault: Option<PgnFault>) -> Cell<'v>
    ensures { name_and_value result ≡ (codes "fault", maybe Text (option_map (λ f. name_of f.kind) fault)) }
{
    match fault {
        Some(fault) => word("fault", fault.kind.name()),
        None => nothing("fault"),
    }
}

// The cells of a game's place and its tags.
fn roster_cells<'v>(place: Place, roster: Roster<'v>) -> [Cell<'v>; 12]
    ensures { map name_and_value result ≡ place_cells place.number place.offset ++ roster_cells (read_roster roster.entry) }
{
    [
        number("number", place.number),
        number("offset", place.offset),
        any_text("white", roster.white),
        any_text("black", roster.black),
        any_text("white_elo", roster.white_elo),
        any_text("black_elo", roster.black_elo),
        any_text("event", roster.event),
        any_text("site", roster.site),
        any_text("date", roster.date),
        any_text("round", roster.round),
        any_text("variant", roster.variant),
        truth("other_variant", is_other_variant(roster.variant)),
    ]
}

// Those of its main line, whose first and last positions have those FENs.
fn line_cells<'v>(
    said: Said<'v>,
    report: &Report,
    start: &Position,
    first: &'v str,
    fen: &'v str,
) -> [Cell<'v>; 24]
    ensures { map name_and_value result ≡ report_cells report.now start.now first.now fen.now said.entry.heading.now said.entry.is_unmarked ++ ending_cells said.entry.fault }
{
    let over = report.played_on();
    [
        start_fen(first),
        truth("fen_changed", is_changed(fen_tag(said.heading), start)),
        number("plies", report.plies as u64),
        word("result", report.marker.marker()),
        any_text("result_tag", said.heading.result()),
        truth(
            "other_result",
            is_another(said.heading.result(), report.marker),
        ),
        any_truth("no_marker", said.is_unmarked),
        word("status", report.status.name()),
        any_word("winner", winner_text(report.winner)),
        any_number("over_ply", over_ply(over)),
        move_leading_to("over_move", start, over_ply(over)),
        any_word("over_why", over_why(over)),
        any_number("threefold_ply", report.threefold),
        move_leading_to("threefold_move", start, report.threefold),
        any_number("fifty_ply", report.fifty),
        move_leading_to("fifty_move", start, report.fifty),
        number("repetitions", report.repetitions as u64),
        number("quiet", report.quiet as u64),
        truth("agrees", report.agrees),
        truth("left_open", is_left_open(report)),
        truth("bare_king_wins", wins_bare(report)),
        word("fen", fen),
        fault_place(said.fault),
        fault_kind(said.fault),
    ]
}

/// The row of a game that begins in that position, whose FEN is given.
pub fn game_row<A: Allocator>(
    alloc: Global,
    format: Format,
    place: Place,
    game: &Game<'_, A>,
    said: Said<'_>,
    start: &Position,
    first: &str,
    report: &Report,
) -> Result<Vec<u8>, AllocError>
    ensures { IfOk result (λ row. row.items ≡ row_text format (place_cells place.number place.offset ++ (roster_cells (roster_in (tags_of game.now.tags)) ++ (report_cells report.now start.now first.now (written report.now.last) said.entry.heading.now said.entry.is_unmarked ++ ending_cells said.entry.fault)))) }
{
    let fen = chess_fen::write(&report.last);
    let mut cells = Vec::from_slice(alloc, &roster_cells(place, roster_in(game)))?;
    cells.extend_from_slice(&line_cells(said, report, start, first, fen.as_str()))?;
    row_bytes(alloc, format, cells.as_slice())
}

// What is said of a game that can't be read, and isn't repaired, beside its tags.
fn lost_cells<'v>(result_tag: Option<&'v [u8]>, fault: PgnFault) -> [Cell<'v>; 24]
    ensures { map name_and_value result ≡ lost_cells (option_map (λ v. v.now) result_tag.entry) ++ ending_cells (Some fault) }
{
    [
        nothing("start_fen"),
        nothing("fen_changed"),
        nothing("plies"),
        nothing("result"),
        any_text("result_tag", result_tag),
        nothing("other_result"),
        nothing("no_marker"),
        nothing("status"),
        nothing("winner"),
        nothing("over_ply"),
        nothing("over_move"),
        nothing("over_why"),
        nothing("threefold_ply"),
        nothing("threefold_move"),
        nothing("fifty_ply"),
        nothing("fifty_move"),
        nothing("repetitions"),
        nothing("quiet"),
        nothing("agrees"),
        nothing("left_open"),
        nothing("bare_king_wins"),
        nothing("fen"),
        number("fault_place", fault.place),
        word("fault", fault.kind.name()),
    ]
}

/// The row of a game that can't be read, and isn't repaired.
pub fn fault_row(
    alloc: Global,
    format: Format,
    place: Place,
    roster: Roster<'_>,
    heading: &Heading,
    fault: PgnFault,
) -> Result<Vec<u8>, AllocError>
    ensures { IfOk result (λ row. row.items ≡ row_text format (fault_cells place.number place.offset (read_roster roster.entry) heading.now fault)) }
{
    let mut cells = Vec::from_slice(alloc, &roster_cells(place, roster))?;
    cells.extend_from_slice(&lost_cells(heading.result(), fault))?;
    row_bytes(alloc, format, cells.as_slice())
}
