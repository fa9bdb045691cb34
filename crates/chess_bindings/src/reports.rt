//! The report of a game, as numbers.
ghost use Rattle.std.specs.Prelude.{◌≡◌, IfOk, option_map};
ghost use Rattle.chess_types.specs.board.Lines.{last};
ghost use Rattle.chess_fen.specs.Writing.{written};
ghost use Rattle.chess_pgn.specs.steps.GameCode.{game_of};
ghost use Rattle.chess_report.specs.MainLine.{main};
ghost use Rattle.chess_bindings.specs.Codes.{outcome_code};
ghost use Rattle.chess_bindings.specs.Reports.{marker_code, ply_code, report_code, why_of, winner_code};

use crate::codes::outcome_code;
use chess_pgn::{Game, Outcome};
use chess_report::{Over, Report};
use chess_types::{Colour, Position, Status};
use std::alloc::{AllocError, Allocator};

/// The ply of what never happens.
pub const NEVER: u32 = 4294967295;

/// What the Laws say of a game's main line (`chess_report`), as a caller sees it. A ply is a number of moves made, from 0 to `plies`, or `NEVER`.
#[repr(C)]
#[derive(Clone, Copy)]
pub struct GameReport {
    /// The moves of the main line, at most 20,000.
    pub plies: u32,
    /// How the game ended, as its text says: 0 for `*`, 1 for `1-0`, 2 for `0-1`, 3 for `1/2-1/2`.
    pub marker: u32,
    /// The last position's status, as a number of `outcome_code` (FIDE Laws 5.1.1, 5.2.1, 5.2.2, 9.6).
    pub status: u32,
    /// The side that has mated the other there: 0 for none, 1 for White, 2 for Black (FIDE Laws 1.4.1).
    pub winner: u32,
    /// The first ply at which the game is over. Where that isn't the last, moves follow it.
    pub over: u32,
    /// Why it is over there, as a number of `outcome_code`; 5 where it never is.
    pub why: u32,
    /// The first ply at which a draw may be claimed by repetition (FIDE Laws 9.2.2).
    pub threefold: u32,
    /// The first ply at which a draw may be claimed by fifty moves (FIDE Laws 9.3.2).
    pub fifty: u32,
    /// The most often a position has come up, at least 1 (FIDE Laws 9.2.3).
    pub repetitions: u32,
    /// The most plies in a row without a pawn's move or a capture, those before the start as its halfmove clock has them.
    pub quiet: u32,
    /// Whether the marker agrees with the board: after mate it is the winner's, after each other end a draw; else, and where it is open, any.
    pub agrees: bool,
}

/// How a game ended, as a number: 0 for `*`, 1 for `1-0`, 2 for `0-1`, 3 for `1/2-1/2` (PGN 8.2.6).
pub fn marker_code(marker: Outcome) -> u32
    ensures { result ≡ marker_code marker }
{
    match marker {
        Outcome::Unfinished => 0,
        Outcome::WhiteWins => 1,
        Outcome::BlackWins => 2,
        Outcome::Draw => 3,
    }
}

fn winner_code(winner: Option<Colour>) -> u32
    ensures { result ≡ winner_code winner }
{
    match winner {
        None => 0,
        Some(Colour::White) => 1,
        Some(Colour::Black) => 2,
    }
}

fn ply_code(ply: Option<u32>) -> u32
    ensures { result ≡ ply_code ply }
{
    match ply {
        Some(ply) => ply,
        None => NEVER,
    }
}

// The ply at which a game is over, and why.
fn over_codes(over: Option<Over>) -> (u32, u32)
    ensures ply { result.0 ≡ ply_code (option_map (λ o. o.ply) over) }
    ensures why { result.1 ≡ outcome_code (why_of over) }
{
    match over {
        Some(over) => (over.ply, outcome_code(over.why)),
        None => (NEVER, outcome_code(Status::Play)),
    }
}

/// The report of a game, and the last position of its main line.
///
/// # Errors
///
/// Want of memory.
pub fn report_of<A: Allocator, B: Allocator>(
    alloc: B,
    game: &Game<'_, A>,
) -> Result<(GameReport, Position), AllocError>
    ensures report { IfOk result (λ r. r.0 ≡ report_code (game_of game.now)) }
    ensures last { IfOk result (λ r. r.1 ≡ last (main game.now.tree.tree)) }
{
    let found = Report::of(alloc, game)?;
    let (over, why) = over_codes(found.over);
    let report = GameReport {
        plies: found.plies,
        marker: marker_code(found.marker),
        status: outcome_code(found.status),
        winner: winner_code(found.winner),
        over,
        why,
        threefold: ply_code(found.threefold),
        fifty: ply_code(found.fifty),
        repetitions: found.repetitions,
        quiet: found.quiet,
        agrees: found.agrees,
    };
    Ok((report, found.last))
}
