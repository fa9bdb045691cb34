//! What a move takes, and whether it gives check.
use chess_fen::read;
use chess_key::KeyTable;
use chess_moves::gives_check;
use chess_play::{Live, captured};
use chess_types::{Man, Move};
use std::process::Abort;

/// Whether the move takes the man of this letter, or none, and whether it gives check as wanted.
fn is_so<'k>(
    rt: &impl Abort,
    live: &mut Live<'k>,
    text: &str,
    letter: Option<u8>,
    gives: bool,
) -> bool {
    let m = Move::parse(text.as_bytes()).expect(rt, "a move");
    assert!(rt; live.is_pseudo(m));
    assert!(rt; live.position().clock < 1_000 && live.position().number < 1_000);
    let taken = captured(live.position(), m);
    taken == letter.and_then(Man::of_letter) && gives_check(live, m) == gives
}

/// Positions, moves, the letters of the men that they take, and whether they give check.
const ASKED: &[(&str, &str, Option<u8>, bool)] = &[
    ("4k3/8/8/8/8/8/4P3/4K3 w - - 0 1", "e2e4", None, false),
    (
        "4k3/8/8/3pP3/8/8/8/4K3 w - d6 0 2",
        "e5d6",
        Some(b'p'),
        false,
    ),
    ("4k3/8/8/8/8/8/8/R3K3 w - - 0 1", "a1a8", None, true),
    ("r3k3/8/8/8/8/8/8/R3K3 w - - 0 1", "a1a8", Some(b'r'), true),
    ("4k3/8/8/8/8/8/4B3/4RK2 w - - 0 1", "e2a6", None, true),
];

#[test]
fn moves_take_men_and_give_check(rt: HostRuntime) {
    let table = KeyTable::new([0; 768]);
    for (fen, text, letter, gives) in ASKED {
        let mut live = Live::new(read(fen.as_bytes()).expect(&rt, "a FEN"), &table);
        assert!(rt;
            is_so(&rt, &mut live, text, *letter, *gives),
            "{fen} {text}"
        );
    }
}
