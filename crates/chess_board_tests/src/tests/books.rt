//! Tests of the keys, the moves and the entries of Polyglot's opening books.

use chess_fen::read;
use chess_key::KeyTable;
use chess_play::Live;
use chess_polyglot::{Entry, book_move, entries_in, find, key, named_move};
use chess_types::Move;
use std::process::Abort;

/// The examples that were published with the format of the books, and both kinds of en passant target: with a pawn beside it that is pinned, and none.
const KEYS: &[(&str, u64)] = &[
    (
        "rnbqkbnr/pppppppp/8/8/8/8/PPPPPPPP/RNBQKBNR w KQkq - 0 1",
        0x463b_9618_1691_fc9c,
    ),
    (
        "rnbqkbnr/pppppppp/8/8/4P3/8/PPPP1PPP/RNBQKBNR b KQkq e3 0 1",
        0x823c_9b50_fd11_4196,
    ),
    (
        "rnbqkbnr/ppp1pppp/8/3p4/4P3/8/PPPP1PPP/RNBQKBNR w KQkq d6 0 2",
        0x0756_b944_61c5_0fb0,
    ),
    (
        "rnbqkbnr/ppp1pppp/8/3pP3/8/8/PPPP1PPP/RNBQKBNR b KQkq - 0 2",
        0x662f_afb9_65db_29d4,
    ),
    (
        "rnbqkbnr/ppp1p1pp/8/3pPp2/8/8/PPPP1PPP/RNBQKBNR w KQkq f6 0 3",
        0x22a4_8b5a_8e47_ff78,
    ),
    (
        "rnbqkbnr/ppp1p1pp/8/3pPp2/8/8/PPPPKPPP/RNBQ1BNR b kq - 1 3",
        0x652a_607c_a3f2_42c1,
    ),
    (
        "rnbq1bnr/ppp1pkpp/8/3pPp2/8/8/PPPPKPPP/RNBQ1BNR w - - 2 4",
        0x00fd_d303_c946_bdd9,
    ),
    (
        "rnbqkbnr/p1pppppp/8/8/PpP4P/8/1P1PPPP1/RNBQKBNR b KQkq c3 0 3",
        0x3c81_23ea_7b06_7637,
    ),
    (
        "rnbqkbnr/p1pppppp/8/8/P6P/R1p5/1P1PPPP1/1NBQKBNR b Kkq - 1 4",
        0x5c3f_9b82_9b27_9560,
    ),
];

#[test]
fn keys_are_those_that_were_published(rt: HostRuntime) {
    for (fen, wanted) in KEYS {
        let position = read(fen.as_bytes()).expect(&rt, "a FEN");
        assert!(rt; key(position.setup()) == *wanted, "{fen}");
    }
}

/// The number of an entry for a move: where it ends and where it begins, by file and rank from 0, and what a pawn becomes.
fn number(from: (u16, u16), to: (u16, u16), promotion: u16) -> u16 {
    (promotion % 8) * 4096 + (from.1 % 8) * 512 + (from.0 % 8) * 64 + (to.1 % 8) * 8 + (to.0 % 8)
}

/// What the number names in the position is the move of the text, or no move.
fn assert_named(rt: &impl Abort, fen: &str, number: u16, text: &str) {
    let table = KeyTable::new([0; 768]);
    let mut live = Live::new(read(fen.as_bytes()).expect(rt, "a FEN"), &table);
    assert!(rt; live.position().clock < 1_000 && live.position().number < 1_000);
    assert!(rt;
        book_move(&mut live, number) == Move::parse(text.as_bytes()),
        "{text}"
    );
}

const CASTLING: &str = "r3k2r/8/8/8/8/8/8/R3K2R w KQkq - 0 1";

#[test]
fn numbers_name_legal_moves(rt: HostRuntime) {
    let start = "rnbqkbnr/pppppppp/8/8/8/8/PPPPPPPP/RNBQKBNR w KQkq - 0 1";
    assert_named(&rt, start, number((4, 1), (4, 3), 0), "e2e4");
    assert_named(&rt, start, number((4, 1), (4, 4), 0), "");
    assert_named(&rt, CASTLING, number((4, 0), (7, 0), 0), "e1g1");
    assert_named(&rt, CASTLING, number((4, 0), (0, 0), 0), "e1c1");
    assert_named(&rt, CASTLING, number((7, 0), (7, 7), 0), "h1h8");
    let promotes = "8/P6k/8/8/8/8/8/K7 w - - 0 1";
    assert_named(&rt, promotes, number((0, 6), (0, 7), 1), "a7a8n");
    assert_named(&rt, promotes, number((0, 6), (0, 7), 4), "a7a8q");
    assert_named(&rt, promotes, number((0, 6), (0, 7), 0), "");
    assert_named(&rt, promotes, number((0, 6), (0, 7), 5), "");
    let rook = "r5k1/8/8/8/8/8/8/4R1K1 w - - 0 1";
    assert_named(&rt, rook, number((4, 0), (7, 0), 0), "");
    assert_named(&rt, rook, number((4, 0), (0, 0), 0), "e1a1");
}

#[test]
fn castling_is_named_whether_legal_or_not(rt: HostRuntime) {
    let position = read(b"r3k2r/8/8/8/8/8/8/R3KB1R w KQkq - 0 1").expect(&rt, "a FEN");
    let to_h1 = named_move(position.setup(), number((4, 0), (7, 0), 0));
    assert!(rt; to_h1 == Move::parse(b"e1g1"));
}

/// Five entries of the keys 1, 2, 2, 2 and 5, the weight of each its place from 1.
const BOOK: &[u8; 80] = b"\
    \0\0\0\0\0\0\0\x01\0\0\0\x01\0\0\0\0\
    \0\0\0\0\0\0\0\x02\0\0\0\x02\0\0\0\0\
    \0\0\0\0\0\0\0\x02\x03\x1c\0\x03\0\0\x01\0\
    \0\0\0\0\0\0\0\x02\0\0\0\x04\0\0\0\0\
    \0\0\0\0\0\0\0\x05\0\0\0\x05\0\0\0\0";

#[test]
fn entries_are_found_by_their_key(rt: HostRuntime) {
    for (key, first, count) in [
        (0, 0, 0),
        (1, 0, 1),
        (2, 1, 3),
        (3, 4, 0),
        (5, 4, 1),
        (6, 5, 0),
    ] {
        assert!(rt; find(BOOK, key) == (first, count));
        assert!(rt; find(b"", key) == (0, 0));
    }
    assert!(rt; find(&BOOK[..79], 5) == (4, 0));
}

#[test]
fn entries_are_read(rt: HostRuntime) {
    let wanted = Entry {
        key: 2,
        number: 0x031c,
        weight: 3,
        learn: 256,
    };
    assert!(rt; entries_in(BOOK) == 5);
    assert!(rt; Entry::read(BOOK, 2) == wanted);
}
