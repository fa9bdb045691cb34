//! What the Laws say of a game's main line, from the start to the last position.

ghost use Rattle.std.specs.Prelude.{◌≡◌, ◌≤◌, ◌<◌, [], ◌||◌, suc, true, length, IfOk, IfSome, OnOk, option_map};
ghost use Rattle.chess_types.specs.board.Legal.{is_legal};
ghost use Rattle.chess_types.specs.board.Lines.{extended, last};
ghost use Rattle.chess_types.specs.board.Outcome.{status, winner};
ghost use Rattle.chess_draws.specs.Pushes.{most_plies};
ghost use Rattle.chess_report.specs.MainLine.{as_far, main};
ghost use Rattle.chess_report.specs.Findings.{agrees, first_fifty, first_over, first_threefold, marker_fits, is_open, is_win_of, longest_quiet, most_repetitions, played_on};
ghost use Rattle.chess_report.specs.steps.Tallies.{IsTally};
ghost use Rattle.chess_tree.specs.Forest.{height};
ghost use Rattle.chess_tree.specs.WellFormed.{AreSound};

use crate::tally::Tally;
use chess_attack::Nothing;
use chess_draws::{LineWith, PlainLine};
use chess_pgn::{Game, Outcome};
use chess_tree::Tree;
use chess_types::{Colour, Move, Position, Status};
use std::alloc::{AllocError, Allocator};

/// Where a game is over by the Laws, and why.
#[derive(Clone, Copy, Debug, PartialEq, Eq)]
pub struct Over {
    /// How many moves were made, from 0.
    pub ply: u32,
    /// Mate, stalemate, dead, fivefold or seventyfive.
    pub why: Status,
}

/// What the Laws say of a game's main line. A ply is a number of moves made, from 0 to `plies`.
#[derive(Drop)]
pub struct Report {
    /// The moves of the main line, at most 20,000.
    pub plies: u32,
    /// How the game ended, as its text says.
    pub marker: Outcome,
    /// The last position's status (FIDE Laws 5.1.1, 5.2.1, 5.2.2, 9.6).
    pub status: Status,
    /// The side that has mated the other there (FIDE Laws 1.4.1, 5.1.1).
    pub winner: Option<Colour>,
    /// The first ply at which the game is over, and why. Where that isn't the last, moves follow it.
    pub over: Option<Over>,
    /// The first ply at which a draw may be claimed by repetition (FIDE Laws 9.2.2).
    pub threefold: Option<u32>,
    /// The first ply at which a draw may be claimed by fifty moves (FIDE Laws 9.3.2).
    pub fifty: Option<u32>,
    /// The most often a position has come up (FIDE Laws 9.2.3), at least 1.
    pub repetitions: u32,
    /// The most plies in a row without a pawn's move or a capture, those before the start as its halfmove clock has them.
    pub quiet: u32,
    /// Whether the marker agrees with the board: after mate it is the winner's, after each other end a draw; else, and where it is open, any.
    pub agrees: bool,
    /// The last position.
    pub last: Position,
}

// Makes a legal move.
fn push<A: Allocator>(line: &mut PlainLine<A>, played: Move) -> Result<(), AllocError>
    requires none { line.old.looked ≡ 0 }
    requires legal { is_legal (last line.old.line) played ≡ true }
    requires few { length line.old.line.moves < most_plies }
    ensures line { OnOk result (line.new.line ≡ extended line.old.line played) }
    ensures none { OnOk result (line.new.looked ≡ 0) }
{
    if line.reserve(1).is_err() {
        return Err(AllocError);
    }
    line.push_prepared(played);
    Ok(())
}

// Makes the moves of the main line, and goes over its plies.
fn follow<A: Allocator, B: Allocator>(
    line: &mut PlainLine<B>,
    tree: &Tree<'_, A>,
) -> Result<Tally, AllocError>
    requires start { line.old.line ≡ record { start = tree.now.tree.start; moves = [] } }
    requires none { line.old.looked ≡ 0 }
    requires sound { AreSound tree.now.tree.start tree.now.tree.below }
    requires deep { height tree.now.tree.below ≤ most_plies }
    ensures line { IfOk result (λ _. line.new.line ≡ main tree.now.tree) }
    ensures none { IfOk result (λ _. line.new.looked ≡ 0) }
    ensures tally { IfOk result (λ t. IsTally (main tree.now.tree) (suc (length (main tree.now.tree).moves)) t) }
{
    let mut tally = Tally::new();
    tally.add(line);
    let mut node = tree.root();
    while let Some(next) = node.child(0) {
        let Some(played) = next.move_at() else {
            unreachable!();
        };
        push(line, played)?;
        tally.add(line);
        node = next;
    }
    Ok(tally)
}

// Whether the marker is the winner's.
fn is_win_of(won: Option<Colour>, marker: Outcome) -> bool
    ensures { result ≡ is_win_of won marker }
{
    match won {
        Some(Colour::White) => marker == Outcome::WhiteWins,
        Some(Colour::Black) => marker == Outcome::BlackWins,
        None => false,
    }
}

// Whether the marker goes with a board of that status.
fn fits(status: Status, won: Option<Colour>, marker: Outcome) -> bool
    ensures { result ≡ marker_fits status won marker }
{
    match status {
        Status::Play => true,
        Status::Mate => is_win_of(won, marker),
        _ => marker == Outcome::Draw,
    }
}

// The same, or the marker is open.
fn agrees(status: Status, won: Option<Colour>, marker: Outcome) -> bool
    ensures { result ≡ (is_open marker || marker_fits status won marker) }
{
    let is_open = marker == Outcome::Unfinished;
    is_open | fits(status, won, marker)
}

impl Report {
    /// What the Laws say of the main line of a game. It goes over the line once, and at each ply looks back no further than the last pawn's move or capture.
    ///
    /// # Errors
    ///
    /// Want of memory for the line.
    pub fn of<A: Allocator, B: Allocator>(
        alloc: B,
        game: &Game<'_, A>,
    ) -> Result<Report, AllocError>
        ensures plies { IfOk result (λ r. r.plies ≡ length (main game.now.tree.tree).moves) }
        ensures marker { IfOk result (λ r. r.marker ≡ game.now.result) }
        ensures status { IfOk result (λ r. r.status ≡ status (main game.now.tree.tree)) }
        ensures winner { IfOk result (λ r. r.winner ≡ winner (last (main game.now.tree.tree))) }
        ensures over { IfOk result (λ r. option_map (λ o. o.ply) r.over ≡ first_over (main game.now.tree.tree)) }
        ensures why { IfOk result (λ r. IfSome r.over (λ o. o.why ≡ status (as_far o.ply (main game.now.tree.tree)))) }
        ensures threefold { IfOk result (λ r. r.threefold ≡ first_threefold (main game.now.tree.tree)) }
        ensures fifty { IfOk result (λ r. r.fifty ≡ first_fifty (main game.now.tree.tree)) }
        ensures repetitions { IfOk result (λ r. r.repetitions ≡ most_repetitions (main game.now.tree.tree)) }
        ensures quiet { IfOk result (λ r. r.quiet ≡ longest_quiet (main game.now.tree.tree)) }
        ensures agrees { IfOk result (λ r. r.agrees ≡ agrees (main game.now.tree.tree) game.now.result) }
        ensures last { IfOk result (λ r. r.last ≡ last (main game.now.tree.tree)) }
    {
        let Ok(start) = game.tree.position().clone() else {
            unreachable!();
        };
        let mut line = LineWith::with(alloc, start, Nothing);
        let tally = follow(&mut line, &game.tree)?;
        let status = line.status();
        let winner = line.winner();
        Ok(Report {
            plies: line.plies(),
            marker: game.result,
            status,
            winner,
            over: tally.over,
            threefold: tally.threefold,
            fifty: tally.fifty,
            repetitions: tally.repetitions,
            quiet: tally.quiet,
            agrees: agrees(status, winner, game.result),
            last: line.position(),
        })
    }

    /// Where the game was over by the Laws, and moves follow it all the same.
    pub fn played_on(&self) -> Option<Over>
        ensures { result ≡ played_on self.now.over self.now.plies }
    {
        let over = self.over?;
        if over.ply < self.plies {
            Some(over)
        } else {
            None
        }
    }
}
