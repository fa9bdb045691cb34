//! Plain minimax, move by move, and the positions that it is asked about.
ghost use Rattle.std.specs.Prelude.{◌≡◌, ◌+◌, ◌<◌, ◌≤◌, true};
ghost use Rattle.chess_types.specs.board.Legal.{is_legal};
ghost use Rattle.chess_types.specs.board.Lines.{last};
ghost use Rattle.chess_draws.specs.LineParts.{IsAsBefore};
ghost use Rattle.chess_search.specs.Best.{IsAsked};
ghost use Rattle.chess_search.specs.Scores.{IsValue};

use arrayvec::ArrayVec;
use chess_draws::Line;
use chess_fen::read;
use chess_play::Live;
use chess_types::{Colour, Move, Position};
use std::alloc::Allocator;
use std::process::Abort;

/// Positions of middle games and endings.
pub(crate) const MIDDLE_GAMES: [&[u8]; 10] = [
    b"r3k2r/p1ppqpb1/bn2pnp1/3PN3/1p2P3/2N2Q1p/PPPBBPPP/R3K2R w KQkq - 0 1",
    b"8/2p5/3p4/KP5r/1R3p1k/8/4P1P1/8 w - - 0 1",
    b"r4rk1/1pp1qppp/p1np1n2/2b1p1B1/2B1P1b1/P1NP1N2/1PP1QPPP/R4RK1 w - - 0 10",
    b"rnbq1k1r/pp1Pbppp/2p5/8/2B5/8/PPP1NnPP/RNBQK2R w KQ - 1 8",
    b"r1bqkbnr/pppp1ppp/2n5/4p3/2B1P3/5Q2/PPPP1PPP/RNB1K1NR w KQkq - 2 4",
    b"8/8/8/2k5/3Pp3/8/8/4K2R b K d3 98 60",
    b"7k/5Q2/8/6K1/8/8/8/8 w - - 148 99",
    b"6k1/5ppp/8/8/2q5/8/8/K2R4 b - - 3 40",
    b"r3k2r/Pppp1ppp/1b3nbN/nP6/BBP1P3/q4N2/Pp1P2PP/R2Q1RK1 w kq - 0 1",
    b"r2q1rk1/pp2bppp/2n1bn2/3p4/3N4/2N1B1P1/PP2PPBP/R2Q1RK1 b - - 4 11",
];

pub(crate) const START: &[u8] = b"rnbqkbnr/pppppppp/8/8/8/8/PPPPPPPP/RNBQKBNR w KQkq - 0 1";

/// The position of a FEN.
pub(crate) fn at(rt: &impl Abort, fen: &[u8]) -> Position
    ensures clock { result.clock ≤ 99999 }
    ensures number { result.number ≤ 99999 }
{
    read(fen).expect(rt, "a FEN")
}

/// The evaluation for the side to move.
fn evaluation_for(live: &Live) -> i32
    ensures in_range { IsValue result }
{
    let white = live.white();
    match live.position().side {
        Colour::White => white,
        Colour::Black => -white,
    }
}

/// What a legal move is worth to the side that makes it, by plain minimax.
#[cycle(plain_value)]
fn plain_worth<A: Allocator>(
    line: &mut Line<'_, A>,
    m: Move,
    depth: u8,
    distance: u8,
    claims: bool,
) -> i32
    requires legal { is_legal (last line.old.line) m ≡ true }
    requires room { line.old.looked + depth < 16 }
    requires distance { distance + depth < 16 }
    ensures in_range { IsValue result }
    ensures line { IsAsBefore line.old line.new }
{
    line.look(m);
    let value = -plain_value(line, depth, distance + 1, claims);
    line.unlook();
    value
}

/// The line's value by plain minimax.
#[cycle(plain_value)]
pub(crate) fn plain_value<A: Allocator>(
    line: &mut Line<'_, A>,
    depth: u8,
    distance: u8,
    claims: bool,
) -> i32
    requires room { line.old.looked + depth ≤ 16 }
    requires distance { distance + depth ≤ 16 }
    ensures in_range { IsValue result }
    ensures line { IsAsBefore line.old line.new }
{
    let moves = line.moves();
    if moves.is_empty() {
        return if line.in_check() {
            i32::from(distance) - 30000
        } else {
            0
        };
    }
    if line.is_drawn(claims) {
        return 0;
    }
    if depth == 0 {
        return evaluation_for(line.live());
    }
    let mut best: i32 = -30000;
    for m in moves.as_slice() {
        let worth = plain_worth(line, *m, depth - 1, distance, claims);
        best = best.max(worth);
    }
    best
}

/// The first of the roots of greatest plain value.
pub(crate) fn plain_best<A: Allocator>(
    line: &mut Line<'_, A>,
    depth: u8,
    roots: &ArrayVec<Move, 432>,
    claims: bool,
) -> Option<(Move, i32)>
    requires asked { IsAsked line.old depth roots.now.items }
    ensures line { IsAsBefore line.old line.new }
{
    let mut best = None;
    for m in roots.as_slice() {
        let value = plain_worth(line, *m, depth - 1, 0, claims);
        best = match best {
            Some((_, greatest)) if greatest >= value => best,
            _ => Some((*m, value)),
        };
    }
    best
}
