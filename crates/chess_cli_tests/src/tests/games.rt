//! Games that are read and written, and the game of the board.
use byte_streams::{FromBytes, ToBytes, WriteFailure};
use chess_cli::{Ended, collection_laws, pgn};
use chess_pgn::{FaultKind, PgnFault};
use std::alloc::{AllocError, Allocator};
use std::test::Fail;

pub const INPUT: &[u8] =
    b"1.e4 e5 (1...c5 2.Nf3 {x  y} $1) 2.Nf3 *\n[White \"A\"][Zed \"1\"] 1-0\n%";

/// A game as it is written: its event, its White and its result, the tags after the seven, and the movetext.
pub type Written = (
    &'static [u8],
    &'static [u8],
    &'static [u8],
    &'static [u8],
    &'static [u8],
);

pub const OUTPUT: &[Written] = &[
    (
        b"?",
        b"?",
        b"*",
        b"",
        b"1. e4 e5 (1... c5 2. Nf3 $1 {x y}) 2. Nf3 *",
    ),
    (b"?", b"A", b"1-0", b"[Zed \"1\"]\n", b"1-0"),
];

/// The text of the games, one after the other.
pub fn text_of<A: Allocator>(alloc: A, games: &[Written]) -> Result<Vec<u8, A>, AllocError> {
    let mut text = Vec::new(alloc);
    for game in games {
        let (event, white, result, tags, movetext) = *game;
        let parts: [&[u8]; 11] = [
            b"[Event \"",
            event,
            b"\"]\n[Site \"?\"]\n[Date \"????.??.??\"]\n[Round \"?\"]\n[White \"",
            white,
            b"\"]\n[Black \"?\"]\n[Result \"",
            result,
            b"\"]\n",
            tags,
            b"\n",
            movetext,
            b"\n\n",
        ];
        for part in parts {
            text.extend_from_slice(part)?;
        }
    }
    Ok(text)
}

/// How many bytes of the output the first game takes.
pub const FIRST: usize = 138;

#[test]
fn writes_what_it_reads(rt: HostRuntime) -> Result<(), Fail> {
    let output = text_of(rt.alloc(), OUTPUT)?;
    for piece in 1..80usize {
        let mut room = [0; 400];
        let mut writer = ToBytes::new(&mut room, piece);
        let ended = pgn(rt.alloc(), &mut FromBytes::new(INPUT, piece), &mut writer);
        assert_eq!(rt; ended, Ended::Good);
        assert_eq!(rt; writer.taken(), output.as_slice(), "in pieces of {piece}");
    }
    Ok(())
}

#[test]
fn what_is_written_is_read_as_it_is(rt: HostRuntime) -> Result<(), Fail> {
    collection_laws();
    let output = text_of(rt.alloc(), OUTPUT)?;
    let mut room = [0; 400];
    let mut writer = ToBytes::new(&mut room, 400);
    let ended = pgn(
        rt.alloc(),
        &mut FromBytes::new(output.as_slice(), 100),
        &mut writer,
    );
    assert_eq!(rt; ended, Ended::Good);
    assert_eq!(rt; writer.taken(), output.as_slice());
    Ok(())
}

/// The games before a fault are written.
#[test]
fn stops_at_a_fault(rt: HostRuntime) -> Result<(), Fail> {
    let output = text_of(rt.alloc(), OUTPUT)?;
    let input = b"1.e4 e5 (1...c5 2.Nf3 {x  y} $1) 2.Nf3 *\n1. e4 Ke2";
    let mut room = [0; 400];
    let mut writer = ToBytes::new(&mut room, 400);
    let ended = pgn(rt.alloc(), &mut FromBytes::new(input, 400), &mut writer);
    let fault = PgnFault {
        place: 47,
        kind: FaultKind::Move,
    };
    assert_eq!(rt; ended, Ended::Input(fault));
    assert_eq!(rt; ended.status(), 2);
    assert_eq!(rt; ended.message().as_str(), "fault 47 3 Move");
    assert_eq!(rt; Some(writer.taken()), output.as_slice().get(..FIRST));
    Ok(())
}

#[test]
fn stops_at_a_failing_write(rt: HostRuntime) -> Result<(), Fail> {
    let output = text_of(rt.alloc(), OUTPUT)?;
    for refusal in [WriteFailure::Fails, WriteFailure::TakesNothing] {
        for calls in 0..FIRST {
            let mut room = [0; 400];
            let mut writer = ToBytes::refusing_after(&mut room, 1, calls as u64, refusal);
            let ended = pgn(rt.alloc(), &mut FromBytes::new(INPUT, 400), &mut writer);
            assert_eq!(rt; ended, Ended::WriteFault);
            assert_eq!(rt; Some(writer.taken()), output.as_slice().get(..calls));
        }
    }
    Ok(())
}

/// Five games, and how many bytes have to be read until each of them is whole, whatever follows.
const SEVERAL: &[u8] = b"* 1. e4 *\n1-0 {x} e4 e5 [Event \"y\"] d4 0-1\n";

const WHOLE: [u64; 5] = [1, 9, 14, 25, 43];

/// What is written of them.
const SEVERAL_WRITTEN: &[Written] = &[
    (b"?", b"?", b"*", b"", b"*"),
    (b"?", b"?", b"*", b"", b"1. e4 *"),
    (b"?", b"?", b"1-0", b"", b"1-0"),
    (b"?", b"?", b"*", b"", b"{x} 1. e4 e5 *"),
    (b"y", b"?", b"0-1", b"", b"1. d4 0-1"),
];

/// What is written where `bytes` bytes were read.
fn written_of(bytes: u64) -> &'static [Written] {
    let mut games = 0usize;
    for whole in WHOLE {
        if whole <= bytes {
            games = games.saturating_add(1);
        }
    }
    SEVERAL_WRITTEN.get(..games).unwrap_or(&[])
}

/// Whichever read fails, each game that is whole in what was read is written.
#[test]
fn writes_each_game_that_was_read(rt: HostRuntime) -> Result<(), Fail> {
    for calls in 0..44u64 {
        let mut room = [0; 1000];
        let mut writer = ToBytes::new(&mut room, 1000);
        let mut reader = FromBytes::failing_after(SEVERAL, 1, calls);
        assert_eq!(rt; pgn(rt.alloc(), &mut reader, &mut writer), Ended::ReadFault);
        let written = text_of(rt.alloc(), written_of(calls))?;
        assert_eq!(rt; writer.taken(), written.as_slice());
    }
    let mut room = [0; 1000];
    let mut writer = ToBytes::new(&mut room, 1000);
    let mut reader = FromBytes::failing_after(SEVERAL, 1, 44);
    assert_eq!(rt; pgn(rt.alloc(), &mut reader, &mut writer), Ended::Good);
    let written = text_of(rt.alloc(), SEVERAL_WRITTEN)?;
    assert_eq!(rt; writer.taken(), written.as_slice());
    Ok(())
}

/// Nothing is read after a fault: the read that would fail there isn't made.
#[test]
fn reads_no_further_than_a_fault(rt: HostRuntime) {
    let fault = PgnFault {
        place: 2,
        kind: FaultKind::Variation,
    };
    for (calls, wanted) in [(2u64, Ended::ReadFault), (3, Ended::Input(fault))] {
        let mut room = [0; 400];
        let mut writer = ToBytes::new(&mut room, 400);
        let mut reader = FromBytes::failing_after(b"* (1. e4) *", 1, calls);
        assert!(rt; pgn(rt.alloc(), &mut reader, &mut writer) == wanted);
    }
}
