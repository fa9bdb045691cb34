//! Tests of FEN: texts read and written, and the first fault of those that are none.

use super::boards::assert_stand;
use chess_fen::{FenFault, read, write};
use chess_types::{Colour, Kind, Position, Rights, Square};
use std::process::Abort;
use std::test::Fail;

const START: &[u8] = b"rnbqkbnr/pppppppp/8/8/8/8/PPPPPPPP/RNBQKBNR w KQkq - 0 1";

/// The castling rights of the position.
fn assert_rights(rt: &impl Abort, position: &Position, rights: Rights) {
    assert!(rt; position.setup().rights == rights);
}

const ALL: Rights = Rights {
    white_king: true,
    white_queen: true,
    black_king: true,
    black_queen: true,
};

const STANDING: &[(&str, Colour, Kind)] = &[
    ("a1", Colour::White, Kind::Rook),
    ("d1", Colour::White, Kind::Queen),
    ("e8", Colour::Black, Kind::King),
    ("h7", Colour::Black, Kind::Pawn),
];

#[test]
fn reads_the_start(rt: HostRuntime) -> Result<(), Fail> {
    let position = read(START)?;
    assert_rights(&rt, &position, ALL);
    let setup = position.setup();
    assert!(rt; setup.side == Colour::White && setup.target.is_none());
    assert!(rt; setup.clock == 0 && setup.number == 1);
    assert_stand(&rt, &setup.placement, STANDING);
    let board = &setup.placement;
    assert!(rt; board.get(Square::from_index(20)).is_none() && board.men(Colour::Black) == 16);
    Ok(())
}

const QUEEN_SIDE: Rights = Rights {
    white_queen: true,
    ..NONE
};

#[test]
fn skips_spaces(rt: HostRuntime) -> Result<(), Fail> {
    let position = read(b"  4k3/8/8/8/8/8/8/R3K3   b KQkq -  0 1 ")?;
    assert!(rt; position.setup().side == Colour::Black);
    assert_rights(&rt, &position, QUEEN_SIDE);
    Ok(())
}

const NONE: Rights = Rights {
    white_king: false,
    white_queen: false,
    black_king: false,
    black_queen: false,
};

#[test]
fn drops_a_right_whose_rook_is_away(rt: HostRuntime) -> Result<(), Fail> {
    let position = read(b"4k3/8/8/8/8/8/8/3K3R w KQkq - 0 1")?;
    assert_rights(&rt, &position, NONE);
    Ok(())
}

/// Faults, and texts of which each is the first fault.
const FAULTS: &[(FenFault, &[&str])] = &[
    (
        FenFault::Fields,
        &[
            "",
            "4k3/8/8/8/8/8/8/4K3 w - - 0",
            "4k3/8/8/8/8/8/8/4K3 w - - 0 1 1",
            "4k3/8/8/8/8/8/8/4K3 w -",
            "4k3/8/8/8/8/8/8/4K3\tw - - 0 1",
            "4k3/8/8/8/8/8/8/4K3 w - -\t0 1",
        ],
    ),
    (
        FenFault::Placement,
        &[
            "rnbqkbnrr/pppppppp/8/8/8/8/PPPPPPPP/RNBQKBNR w KQkq - 0 1",
            "4k3/8/8/8/8/8/44/4K3 w - - 0 1",
            "4k3/8/8/8/8/8/08/4K3 w - - 0 1",
            "4k3/8/8/8/8/8/9/4K3 w - - 0 1",
            "4k3/8/8/8/8/8/x7/4K3 w - - 0 1",
            "4k3/8/8/8/8/8/4K3 w - - 0 1",
            "4k3/8/8/8/8/8/8/8/4K3 w - - 0 1",
            "4k3/8/8/8/8/8/8/4K2 w - - 0 1",
        ],
    ),
    (
        FenFault::Kings,
        &[
            "8/8/8/8/8/8/8/K7 w - - 0 1",
            "8/8/8/8/8/8/8/4K3 x KK z9 a b",
        ],
    ),
    (FenFault::PawnRank, &["P3k3/8/8/8/8/8/8/4K3 w - - 0 1"]),
    (
        FenFault::TooManyMen,
        &["rnbqkbnr/pppppppp/8/8/8/P7/PPPPPPPP/RNBQKBNR w KQkq - 0 1"],
    ),
    (FenFault::Side, &["4k3/8/8/8/8/8/8/4K3 x - - 0 1"]),
    (
        FenFault::Castling,
        &[
            "4k3/8/8/8/8/8/8/4K3 w KK - 0 1",
            "4k3/8/8/8/8/8/8/4K3 w KQkqK - 0 1",
            "4k3/8/8/8/8/8/8/4K3 w Kx - 0 1",
        ],
    ),
    (
        FenFault::Target,
        &[
            "4k3/8/8/8/8/8/8/4K3 w - z9 0 1",
            "4k3/8/8/8/8/8/8/4K3 w - e9 0 1",
            "4k3/8/8/8/8/8/8/4K3 w - e 0 1",
        ],
    ),
    (
        FenFault::Counter,
        &[
            "4k3/8/8/8/8/8/8/4K3 w - - x 1",
            "4k3/8/8/8/8/8/8/4K3 w - - +1 1",
            "4k3/8/8/8/8/8/8/4K3 w - - 0 100000",
            "4k3/8/8/8/8/8/8/4K3 w - - 9999999999999 1",
        ],
    ),
    (FenFault::InCheck, &["4k3/8/8/8/8/8/8/4R1K1 w - - 0 1"]),
];

/// That is the first fault of each text.
fn assert_faults(rt: &impl Abort, fault: FenFault, texts: &[&str]) {
    for text in texts {
        assert!(rt; read(text.as_bytes()).err() == Some(fault), "{text}");
    }
}

#[test]
fn reports_the_first_fault(rt: HostRuntime) {
    for (fault, texts) in FAULTS {
        assert_faults(&rt, *fault, texts);
    }
}

/// The faults with their numbers, names and texts.
const SHOWN: &[(FenFault, &str)] = &[
    (
        FenFault::Fields,
        "1 Fields: a FEN has six fields, or the first four of them",
    ),
    (
        FenFault::Placement,
        "2 Placement: the men are not eight ranks of eight squares",
    ),
    (FenFault::Kings, "3 Kings: each side has one king"),
    (
        FenFault::PawnRank,
        "4 PawnRank: no pawn stands on the first or the last rank",
    ),
    (
        FenFault::TooManyMen,
        "5 TooManyMen: a side has at most 16 men",
    ),
    (FenFault::Side, "6 Side: the side to move is w or b"),
    (
        FenFault::Castling,
        "7 Castling: the castling field is - or different letters of KQkq",
    ),
    (
        FenFault::Target,
        "8 Target: the en passant field is - or a square",
    ),
    (
        FenFault::Counter,
        "9 Counter: the clock and the number are decimal numbers of at most 99999",
    ),
    (
        FenFault::InCheck,
        "10 InCheck: the side not to move is in check",
    ),
];

#[test]
fn describes_the_faults(rt: HostRuntime) -> Result<(), Fail> {
    for (fault, text) in SHOWN {
        let shown = format!(in rt.alloc(); "{} {}: {fault}", fault.number(), fault.name())?;
        assert!(rt; shown.as_str() == *text);
    }
    Ok(())
}

#[test]
fn writes_the_start(rt: HostRuntime) {
    assert!(rt; write(&Position::start()).as_str().as_bytes() == START);
}

/// Texts, and how the position is written that each reads as.
const WRITTEN: &[(&[u8], &str)] = &[
    (
        b"rnbqkbnr/pppppppp/8/8/8/8/PPPPPPPP/RNBQKBNR  w qkQK -",
        "rnbqkbnr/pppppppp/8/8/8/8/PPPPPPPP/RNBQKBNR w KQkq - 0 1",
    ),
    (
        b"4k3/8/8/8/8/8/8/3K3R w KQ - 0 1",
        "4k3/8/8/8/8/8/8/3K3R w - - 0 1",
    ),
    (
        b"4k3/8/8/8/8/8/8/4K3 w - e6 0 0",
        "4k3/8/8/8/8/8/8/4K3 w - - 0 1",
    ),
    (
        b"4k3/8/8/8/8/8/8/4K3 w - - 0100 00",
        "4k3/8/8/8/8/8/8/4K3 w - - 100 1",
    ),
    (
        b"8/8/8/K1pP3r/8/8/8/4k3 w - c6 0 2",
        "8/8/8/K1pP3r/8/8/8/4k3 w - c6 0 2",
    ),
    (
        b"r3k2r/8/8/8/4Pp2/8/8/R3K2R b Qk e3 0 99999",
        "r3k2r/8/8/8/4Pp2/8/8/R3K2R b Qk e3 0 99999",
    ),
    (
        b"4k3/8/8/8/4Pp2/8/8/4K3 b - - 0 1",
        "4k3/8/8/8/4Pp2/8/8/4K3 b - - 0 1",
    ),
    (
        b"4k3/8/8/3pP3/8/8/8/4K3 b - d6 0 1",
        "4k3/8/8/3pP3/8/8/8/4K3 b - - 0 1",
    ),
];

#[test]
fn writes_what_it_reads(rt: HostRuntime) -> Result<(), Fail> {
    for (text, written) in WRITTEN {
        assert!(rt; write(&read(text)?).as_str() == *written);
    }
    Ok(())
}
