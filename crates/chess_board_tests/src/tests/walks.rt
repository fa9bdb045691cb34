//! Random walks: at each ply the list of legal moves is the one found by making each pseudo-legal move and looking at the king.
ghost use Rattle.std.specs.Prelude.{◌≤◌};
ghost use Rattle.chess_play.specs.Records.{IsBefore};

use arrayvec::ArrayVec;
use chess_attack::in_check_by;
use chess_fen::read;
use chess_key::KeyTable;
use chess_moves::{count_legal, has_legal, moves};
use chess_play::{Live, Made};
use chess_types::{Colour, Kind, Move, Square};
use std::process::Abort;

pub(crate) const PROMOTIONS: [Option<Kind>; 5] = [
    None,
    Some(Kind::Queen),
    Some(Kind::Rook),
    Some(Kind::Bishop),
    Some(Kind::Knight),
];

/// Where the walks begin: checks and double checks, pins along every line, en passant, promotions, castling beside attacks.
const STARTS: [&[u8]; 20] = [
    b"rnbqkbnr/pppppppp/8/8/8/8/PPPPPPPP/RNBQKBNR w KQkq - 0 1",
    b"r3k2r/p1ppqpb1/bn2pnp1/3PN3/1p2P3/2N2Q1p/PPPBBPPP/R3K2R w KQkq - 0 1",
    b"8/2p5/3p4/KP5r/1R3p1k/8/4P1P1/8 w - - 0 1",
    b"r3k2r/Pppp1ppp/1b3nbN/nP6/BBP1P3/q4N2/Pp1P2PP/R2Q1RK1 w kq - 0 1",
    b"rnbq1k1r/pp1Pbppp/2p5/8/2B5/8/PPP1NnPP/RNBQK2R w KQ - 1 8",
    b"r4rk1/1pp1qppp/p1np1n2/2b1p1B1/2B1P1b1/P1NP1N2/1PP1QPPP/R4RK1 w - - 0 10",
    b"8/8/8/K2pP2r/8/8/8/7k w - d6 0 2",
    b"8/8/8/8/k2Pp2Q/8/8/3K4 b - d3 0 1",
    b"8/6bb/8/8/R1pP2k1/4P3/P7/K7 b - d3 0 1",
    b"3k4/3p4/8/K1P4r/8/8/8/8 b - - 0 1",
    b"8/8/1k6/2b5/2pP4/8/5K2/8 b - d3 0 1",
    b"r3k2r/8/8/8/8/8/8/R3K2R w KQkq - 0 1",
    b"r3k2r/1b4bq/8/8/8/8/7B/R3K2R w KQkq - 0 1",
    b"2K2r2/4P3/8/8/8/8/8/3k4 w - - 0 1",
    b"8/8/1P2K3/8/2n5/1q6/8/5k2 b - - 0 1",
    b"4k3/1P6/8/8/8/8/K7/8 w - - 0 1",
    b"8/P1k5/K7/8/8/8/8/8 w - - 0 1",
    b"8/k1P5/8/1K6/8/8/8/8 w - - 0 1",
    b"4k3/4r3/8/1b5q/4N3/3BPB2/4K3/r2R3q w - - 0 1",
    b"n1n5/PPPk4/8/8/8/8/4Kppp/5N1N b - - 0 1",
];

/// The position of the FEN.
pub(crate) fn live_in<'k>(rt: &impl Abort, fen: &str, table: &'k KeyTable) -> Live<'k>
    ensures clock { result.position.clock ≤ 99999 }
    ensures number { result.position.number ≤ 99999 }
{
    Live::new(read(fen.as_bytes()).expect(rt, "a FEN"), table)
}

/// The move of a text in long algebraic notation.
pub(crate) fn a_move(rt: &impl Abort, text: &str) -> Move {
    Move::parse(text.as_bytes()).expect(rt, "the text of a move")
}

/// Makes a move, which is pseudo-legal.
pub(crate) fn make_move(rt: &impl Abort, live: &mut Live, m: Move) -> Made
    ensures { IsBefore live.new.position result live.old.position }
{
    assert!(rt; live.is_pseudo(m));
    assert!(rt; live.position().clock < 1_000_000 && live.position().number < 1_000_000);
    live.make(m)
}

/// Whether the king of that colour is attacked.
fn is_in_check(live: &Live, colour: Colour) -> bool {
    in_check_by(live.counts(), &live.position().placement, colour)
}

/// Whether the mover's king isn't attacked after the pseudo-legal move: it is made, the king looked at, and taken back.
fn is_safe(rt: &impl Abort, live: &mut Live, m: Move) -> bool {
    let side = live.position().side;
    let made = make_move(rt, live, m);
    let safe = !is_in_check(live, side);
    live.undo(made);
    safe
}

/// The legal moves, each candidate tried.
fn tried(rt: &impl Abort, live: &mut Live) -> ArrayVec<Move, 432> {
    let mut list = ArrayVec::new();
    for from in 0..64u8 {
        let from = Square::from_index(from);
        let Some(man) = live.position().placement.get(from) else {
            continue;
        };
        if man.colour != live.position().side {
            continue;
        }
        for to in 0..64u8 {
            for promo in PROMOTIONS {
                let to = Square::from_index(to);
                let m = Move { from, to, promo };
                if promo.is_some() && man.kind != Kind::Pawn {
                    continue;
                }
                if live.is_pseudo(m) && is_safe(rt, live, m) {
                    assert!(rt; list.len() < 432);
                    list.push(m);
                }
            }
        }
    }
    list
}

/// One ply: the lists are compared, and a move is made; false where there is none.
fn step(rt: &impl Abort, live: &mut Live, chosen: u64) -> bool {
    assert!(rt; live.position().clock < 1_000_000 && live.position().number < 1_000_000);
    let list = moves(live);
    let expected = tried(rt, live);
    assert!(rt; list.as_slice() == expected.as_slice());
    assert!(rt; live.position().clock < 1_000_000 && live.position().number < 1_000_000);
    assert!(rt; count_legal(live) == list.len());
    assert!(rt; live.position().clock < 1_000_000 && live.position().number < 1_000_000);
    assert!(rt; has_legal(live) == !list.is_empty());
    if list.is_empty() {
        return false;
    }
    let m = list[chosen as usize % list.len()];
    make_move(rt, live, m).keep();
    true
}

/// A game of at most 100 plies from the position.
fn game(rt: &impl Abort, table: &KeyTable, start: &[u8], first: u64) {
    let mut seed = first;
    let mut live = Live::new(chess_fen::read(start).expect(rt, "a position"), table);
    for _ply in 0..100u32 {
        seed ^= seed << 13;
        seed ^= seed >> 7;
        seed ^= seed << 17;
        if !step(rt, &mut live, seed >> 20) {
            return;
        }
    }
}

#[test]
fn lists_are_those_found_by_trying(rt: HostRuntime) {
    let table = KeyTable::new([0; 768]);
    for start in STARTS {
        for number in 0..100u64 {
            game(&rt, &table, start, 88172645463325252 + 1000003 * number);
        }
    }
}
