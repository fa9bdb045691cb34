//! Tests of standard algebraic notation: moves written, texts read, and faults.

use super::walks::{a_move, live_in};
use arrayvec::ArrayString;
use chess_key::KeyTable;
use chess_moves::is_legal;
use chess_san::{SanFault, read, write};
use chess_types::Move;
use std::process::Abort;

const START: &str = "rnbqkbnr/pppppppp/8/8/8/8/PPPPPPPP/RNBQKBNR w KQkq - 0 1";

const CASTLING: &str = "r3k2r/8/8/8/8/8/8/R3K2R w KQkq - 0 1";

const PROMOTION: &str = "4k3/P7/8/8/8/8/8/4K3 w - - 0 1";

const CAPTURE: &str = "rnbqkbnr/ppp2ppp/8/3pp3/4P3/8/PPPP1PPP/RNBQKBNR w KQkq - 0 3";

const PASSING: &str = "4k3/8/8/2PpP3/8/8/8/4K3 w - d6 0 2";

const PINNED: &str = "4k3/8/8/8/1b6/2N5/8/4K1N1 w - - 0 1";

const KNIGHTS: &str = "4k3/8/8/8/8/2N5/8/4K1N1 w - - 0 1";

const QUEENS: &str = "1k6/8/8/8/4Q2Q/8/8/K6Q w - - 0 1";

const MATING: &str = "7k/8/6K1/8/8/8/8/R7 w - - 149 90";

/// What the text reads as in the position of the FEN.
fn read_in(rt: &impl Abort, fen: &str, text: &str) -> Result<Move, SanFault> {
    let table = KeyTable::new([0; 768]);
    read(&mut live_in(rt, fen, &table), text.as_bytes())
}

/// The text of the move in the position of the FEN.
fn text_in(rt: &impl Abort, fen: &str, text: &str) -> ArrayString<8> {
    let table = KeyTable::new([0; 768]);
    let mut live = live_in(rt, fen, &table);
    let m = a_move(rt, text);
    assert!(rt; is_legal(&mut live, m));
    write(&mut live, m)
}

/// Positions, and moves in long algebraic notation with their texts.
const WRITTEN: &[(&str, &[(&str, &str)])] = &[
    // men are distinguished
    (PINNED, &[("g1e2", "Ne2")]),
    (KNIGHTS, &[("g1e2", "Nge2")]),
    (
        QUEENS,
        &[("h4e1", "Qh4e1"), ("e4e1", "Qee1"), ("h1e1", "Q1e1")],
    ),
    // pawns promote, kings castle, and checks are marked
    (PROMOTION, &[("a7a8q", "a8=Q+")]),
    (
        CASTLING,
        &[("e1g1", "O-O"), ("e1c1", "O-O-O"), ("a1a8", "Rxa8+")],
    ),
    // so are mates
    (MATING, &[("a1a8", "Ra8#"), ("a1a2", "Ra2")]),
    // pawns capture
    (CAPTURE, &[("e4d5", "exd5")]),
    (PASSING, &[("e5d6", "exd6")]),
];

#[test]
fn moves_are_written(rt: HostRuntime) {
    for (fen, rows) in WRITTEN {
        for (m, text) in *rows {
            assert!(rt; text_in(&rt, fen, m).as_str() == *text, "{text}");
        }
    }
}

/// The move of a text in long algebraic notation, or the fault.
fn long_or_fault(rt: &impl Abort, wanted: Result<&str, SanFault>) -> Result<Move, SanFault> {
    Ok(a_move(rt, wanted?))
}

/// Positions, moves in long algebraic notation or faults, and the texts that read as these.
const READ: &[(&str, Result<&str, SanFault>, &[&str])] = &[
    // men are distinguished
    (PINNED, Ok("g1e2"), &["Ne2"]),
    (KNIGHTS, Ok("g1e2"), &["N1xe2+#+"]),
    (KNIGHTS, Err(SanFault::Ambiguous), &["Ne2"]),
    // pawns promote
    (PROMOTION, Ok("a7a8q"), &["a8Q", "a7a8=q"]),
    (PROMOTION, Err(SanFault::Illegal), &["a8"]),
    (PROMOTION, Err(SanFault::Form), &["a9", "a8="]),
    // kings castle
    (CASTLING, Ok("e1g1"), &["O-O+", "0-0", "e1xg1"]),
    (CASTLING, Ok("e1c1"), &["0-0-0"]),
    (CASTLING, Ok("e1e2"), &["Ke2"]),
    (CASTLING, Err(SanFault::Illegal), &["Kg1"]),
    (CASTLING, Err(SanFault::Form), &["O-0", "o-o"]),
    // pawns capture
    (CAPTURE, Ok("e4d5"), &["ed5", "4d5"]),
    (CAPTURE, Ok("a2a4"), &["2a4", "xa4"]),
    (CAPTURE, Err(SanFault::Illegal), &["d5", "xd5"]),
    (PASSING, Ok("c5d6"), &["cd6"]),
    (PASSING, Err(SanFault::Ambiguous), &["5d6"]),
    // no such move, and no form
    (START, Err(SanFault::Illegal), &["e4=Q", "a1a1"]),
    (
        START,
        Err(SanFault::Form),
        &["", "+#", "!", "e4!", "Ne", "--", "P e4"],
    ),
];

#[test]
fn texts_are_read(rt: HostRuntime) {
    for (fen, wanted, texts) in READ {
        for text in *texts {
            assert!(rt;
                read_in(&rt, fen, text) == long_or_fault(&rt, *wanted),
                "{text}"
            );
        }
    }
}

const FAULTS: &[(SanFault, u8)] = &[
    (SanFault::Form, 1),
    (SanFault::Illegal, 2),
    (SanFault::Ambiguous, 3),
];

#[test]
fn faults_have_numbers(rt: HostRuntime) {
    for (fault, number) in FAULTS {
        assert!(rt; fault.number() == *number, "{fault}");
    }
}
