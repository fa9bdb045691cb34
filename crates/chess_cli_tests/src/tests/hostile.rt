//! Other key tables, little memory, and lines up to the limit.
use crate::tests::games;
use crate::tests::sessions::STOPPED;
use byte_streams::{FromBytes, ToBytes};
use chess_cli::{Ended, TimedSession, board, board_with, pgn, uci, uci_with};
use chess_key::KeyTable;
use linked_list_allocator::LocalHeap;
use std::alloc::Allocator;
use std::process::Abort;
use std::test::Fail;

/// Repetitions of a position with a target that nobody can take on, and of the start position, claims, an evaluation and the best move.
const GAME: &[u8] = b"\
play e4\nplay Nf6\nplay Nf3\nplay Ng8\nplay Ng1\nfen\ncount\nnew\n\
play g1f3\nplay g8f6\nplay f3g1\nplay f6g8\ncount\nstatus\nclaims\nplay b1c3\nplay b8c6\nplay c3b1\nplay c6b8\ncount\nclaims\n\
play g1f3\nplay g8f6\nplay f3g1\nplay f6g8\nplay g1f3\nplay g8f6\nplay f3g1\nplay f6g8\ncount\nstatus\nset 4k3/8/8/8/8/8/8/R3K2R w KQ - 0 1\n\
eval\nmoves\nbest 2\n";

const ANSWERS: &[u8] = b"\
ok\nok\nok\nok\nok\nrnbqkbnr/pppppppp/8/8/4P3/8/PPPP1PPP/RNBQKBNR b KQkq - 4 3\n2\nok\n\
ok\nok\nok\nok\n2\nplay\nnone\nok\nok\nok\nok\n3\nthreefold\nok\nok\nok\nok\nok\nok\nok\nok\n5\nfivefold\nok\n";

/// The board answers the game alike.
fn assert_alike(rt: &impl Abort, alloc: impl Allocator, table: &KeyTable, output: &[u8]) {
    let mut room = [0; 1000];
    let mut writer = ToBytes::new(&mut room, 1000);
    let mut reader = FromBytes::new(GAME, 1000);
    assert_eq!(rt;
        board_with(alloc, &mut reader, &mut writer, table),
        Ended::Good
    );
    assert_eq!(rt; writer.taken(), output);
}

/// No answer depends on the keys, even if they are all the same.
#[test]
fn any_keys_serve_the_board(rt: HostRuntime) {
    let mut room = [0; 1000];
    let mut writer = ToBytes::new(&mut room, 1000);
    let mut reader = FromBytes::new(GAME, 1000);
    assert_eq!(rt; board(rt.alloc(), &mut reader, &mut writer), Ended::Good);
    assert_eq!(rt; writer.taken().get(..ANSWERS.len()), Some(ANSWERS));
    assert_alike(&rt, rt.alloc(), &KeyTable::new([0; 768]), writer.taken());
    assert_alike(
        &rt,
        rt.alloc(),
        &KeyTable::new([u64::MAX; 768]),
        writer.taken(),
    );
}

const SESSION: &[u8] = b"\
position startpos moves g1f3 g8f6 f3g1 f6g8 g1f3 g8f6 f3g1 f6g8\ngo depth 2\nposition fen 7k/5Q2/6K1/8/8/8/8/8 b - - 0 1\ngo\n\
position startpos moves e2e4 e7e5 g1f3 b8c6 f1c4 f8c5 c2c3 g8f6 d2d4 e5d4\ngo depth 1\n";

const REPLIES: &[u8] = b"\
info depth 1 score cp 18 pv b1c3\ninfo depth 2 score cp 0 pv b1c3\nbestmove b1c3\nbestmove 0000\n\
info depth 1 score cp 6 pv f3d4\nbestmove f3d4\n";

#[test]
fn any_keys_serve_a_session(rt: HostRuntime) {
    for word in [0, u64::MAX] {
        let mut room = [0; 1000];
        let mut writer = ToBytes::new(&mut room, 1000);
        let mut reader = FromBytes::new(SESSION, 1000);
        let table = KeyTable::new([word; 768]);
        let alloc = rt.alloc();
        let mut session = TimedSession::new(&alloc, &table, STOPPED);
        assert_eq!(rt;
            uci_with(&alloc, &mut reader, &mut writer, &mut session),
            Ended::Good
        );
        assert_eq!(rt; writer.taken(), REPLIES);
    }
}

/// How often a text occurs in another.
fn count_of(text: &[u8], part: &[u8]) -> usize {
    text.windows(part.len().max(1))
        .filter(|w| *w == part)
        .count()
}

/// Whether a session on that heap wants memory; none where it doesn't begin. Each `go` has its best move, and the run ends well.
fn is_starved(rt: &impl Abort, heap: &LocalHeap) -> Option<bool> {
    let mut room = [0; 1000];
    let mut clock = STOPPED;
    let mut writer = ToBytes::new(&mut room, 1000);
    let mut reader = FromBytes::new(SESSION, 1000);
    let ended = uci(heap, &mut reader, &mut writer, &mut clock);
    if ended == Ended::Memory {
        assert_eq!(rt; writer.taken().len(), 0);
        return None;
    }
    assert_eq!(rt; ended, Ended::Good);
    assert_eq!(rt; count_of(writer.taken(), b"bestmove"), 3);
    let starved = writer.taken() != REPLIES;
    if starved {
        assert!(rt; count_of(writer.taken(), b"info string out of memory\n") > 0);
    }
    Some(starved)
}

#[test]
fn a_session_in_little_memory(rt: HostRuntime) -> Result<(), Fail> {
    let (mut starved, mut whole) = (0u32, 0u32);
    for step in 0..200usize {
        let heap = LocalHeap::new(rt.alloc(), 196_000 + step * 32)?;
        match is_starved(&rt, &heap) {
            Some(true) => starved = starved.saturating_add(1),
            Some(false) => whole = whole.saturating_add(1),
            None => {}
        }
    }
    assert!(rt; starved > 3 && whole > 3);
    Ok(())
}

/// Whether games are refused for want of memory on that heap. Whole games from the first on are written.
fn are_refused(rt: &impl Abort, heap: &LocalHeap, output: &[u8]) -> bool {
    let mut room = [0; 1000];
    let mut writer = ToBytes::new(&mut room, 1000);
    let ended = pgn(heap, &mut FromBytes::new(games::INPUT, 1000), &mut writer);
    let taken = writer.taken().len();
    assert_eq!(rt; Some(writer.taken()), output.get(..taken));
    if ended == Ended::Good {
        assert_eq!(rt; taken, output.len());
        return false;
    }
    assert!(rt; taken == 0 || taken == games::FIRST || taken == output.len());
    assert_eq!(rt; ended, Ended::Memory);
    true
}

#[test]
fn games_in_little_memory(rt: HostRuntime) -> Result<(), Fail> {
    let output = games::text_of(rt.alloc(), games::OUTPUT)?;
    let mut refused = 0u32;
    for step in 0..300usize {
        let heap = LocalHeap::new(rt.alloc(), 60_000 + step * 64)?;
        if are_refused(&rt, &heap, output.as_slice()) {
            refused = refused.saturating_add(1);
        }
    }
    assert!(rt; refused > 3 && refused < 297);
    Ok(())
}
