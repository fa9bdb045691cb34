//! Sources cut anywhere: long items, games up to the limit, whitespace after it, and reads that fail.
ghost use Rattle.std.specs.Prelude.{◌<◌};
ghost use Rattle.chess_pgn.specs.Sources.{IsSound};

use super::common::NO_MEMORY;
use byte_streams::{FromBytes, Source};
use chess_pgn::{FaultKind, Games, GamesFault, PgnFault, read_game};
use linked_list_allocator::LocalHeap;
use std::alloc::{AllocError, Allocator};
use std::process::Abort;
use std::test::Fail;

/// The most bytes of a game.
const LIMIT: usize = 1_048_576;

/// How many bytes the game uses that a text begins with; none where the text is white.
type Found = Result<Option<usize>, PgnFault>;

fn found_at_start<A: Allocator>(alloc: &A, text: &[u8]) -> Found {
    match read_game(alloc, text) {
        Ok(None) => Ok(None),
        Ok(Some((_, used))) => Ok(Some(used)),
        Err(fault) => Err(fault),
    }
}

/// Whether there is a game where a source in pieces of that size begins.
fn first_in_pieces<A: Allocator>(alloc: &A, text: &[u8], piece: usize) -> Result<bool, GamesFault>
    requires { 0 < piece }
{
    match Games::new(alloc, FromBytes::new(text, piece)).next() {
        Ok(found) => Ok(found.is_some()),
        Err(fault) => Err(fault),
    }
}

/// What is wanted of a source: whether there is a game, or the fault.
fn in_pieces(wanted: Found) -> Result<bool, GamesFault> {
    match wanted {
        Ok(found) => Ok(found.is_some()),
        Err(fault) => Err(GamesFault::Pgn(fault)),
    }
}

/// The text begins so in pieces of that size.
fn assert_in_pieces<A: Allocator>(
    rt: &impl Abort,
    alloc: &A,
    text: &[u8],
    piece: usize,
    wanted: Found,
)
    requires { 0 < piece }
{
    let found = first_in_pieces(alloc, text, piece);
    assert!(rt; found == in_pieces(wanted), "in pieces of {piece}");
}

/// The text begins so, as a whole and in pieces.
fn assert_start<A: Allocator>(rt: &impl Abort, alloc: &A, text: &[u8], wanted: Found) {
    assert!(rt; found_at_start(alloc, text) == wanted);
    assert_in_pieces(rt, alloc, text, 3, wanted);
    assert_in_pieces(rt, alloc, text, 65_536, wanted);
}

fn fill<A: Allocator>(text: &mut Vec<u8, A>, letter: u8, count: usize) -> Result<(), AllocError> {
    for _ in 0..count {
        text.push(letter)?;
    }
    Ok(())
}

/// An item's first byte, the one that comes 200,000 times, what is after them, and how the text begins.
const LONG: &[(&[u8], u8, &[u8], Found)] = &[
    (b"{", b'a', b"}*", Ok(Some(200_003))),
    (b"$", b'0', b"*", Ok(Some(200_002))),
    (b";", b'x', b"\n*", Ok(Some(200_003))),
    (
        b"e",
        b'+',
        b"*",
        Err(PgnFault {
            place: 0,
            kind: FaultKind::Move,
        }),
    ),
];

/// A text, a byte `count` times, and what is after them.
pub fn long_text<'a, A: Allocator>(
    alloc: &'a A,
    first: &[u8],
    filler: u8,
    count: usize,
    last: &[u8],
) -> Result<Vec<u8, &'a A>, AllocError> {
    let mut text = Vec::from_slice(alloc, first)?;
    fill(&mut text, filler, count)?;
    text.extend_from_slice(last)?;
    Ok(text)
}

/// A text with 200,000 bytes of `filler` in it begins so.
fn assert_long<A: Allocator>(
    rt: &impl Abort,
    alloc: &A,
    first: &[u8],
    filler: u8,
    last: &[u8],
    wanted: Found,
) -> Result<(), AllocError> {
    let text = long_text(alloc, first, filler, 200_000, last)?;
    assert_start(rt, alloc, text.as_slice(), wanted);
    Ok(())
}

#[test]
fn long_items(rt: HostRuntime) -> Result<(), Fail> {
    for (first, filler, last, wanted) in LONG {
        assert_long(&rt, &rt.alloc(), first, *filler, last, *wanted)?;
    }
    Ok(())
}

/// The fault of a game of more bytes, whose place is the limit.
const TOO_LARGE: Found = Err(PgnFault {
    place: 1_048_576,
    kind: FaultKind::TooLarge,
});

/// What comes after a comment that leaves five bytes up to the limit, and how the text begins.
const AFTER_A_COMMENT: &[(&[u8], Found)] = &[
    (b"{aaa}*", TOO_LARGE),
    (b"{aa}*", Ok(Some(LIMIT))),
    (b"{aaaaaaa", TOO_LARGE),
    (
        b"{aaaa",
        Err(PgnFault {
            place: 1_048_576,
            kind: FaultKind::Truncated,
        }),
    ),
    (
        b"!!!!!!!!",
        Err(PgnFault {
            place: 1_048_571,
            kind: FaultKind::Token,
        }),
    ),
    (b"$0000000", TOO_LARGE),
    (b"$0000999", TOO_LARGE),
    (
        b"$0999999",
        Err(PgnFault {
            place: 1_048_571,
            kind: FaultKind::Token,
        }),
    ),
    (b"e4   ", Ok(Some(LIMIT))),
    (b"e4   [", Ok(Some(LIMIT))),
    (b"e4    [", TOO_LARGE),
    (b"   Ke3", TOO_LARGE),
];

/// What comes after whitespace that leaves five bytes up to the limit: as long as nothing else has come, it is passed over.
const AFTER_SPACES: &[(&[u8], Found)] = &[
    (b"", Ok(None)),
    (b" \n%x", Ok(None)),
    (b"     \n%abcdefg\n  \n%", Ok(None)),
    (b"     \n %abc", TOO_LARGE),
    (b"     \n%abc\ne4", TOO_LARGE),
    (b"e4       ", TOO_LARGE),
    (b"e4 ", Ok(Some(1_048_574))),
    (b"    *  ", Ok(Some(LIMIT))),
    (
        b"   !!!",
        Err(PgnFault {
            place: 1_048_574,
            kind: FaultKind::Token,
        }),
    ),
];

/// The text with that after it begins so.
fn assert_with<A: Allocator>(
    rt: &impl Abort,
    alloc: &A,
    text: &mut Vec<u8, &A>,
    after: &[u8],
    wanted: Found,
) -> Result<(), AllocError> {
    let length = text.len();
    text.extend_from_slice(after)?;
    assert_start(rt, alloc, text.as_slice(), wanted);
    text.truncate(length);
    Ok(())
}

/// A text with each of these after it begins so.
fn assert_each_after<A: Allocator>(
    rt: &impl Abort,
    alloc: &A,
    text: &mut Vec<u8, &A>,
    rows: &[(&[u8], Found)],
) -> Result<(), Fail> {
    for (after, wanted) in rows {
        assert_with(rt, alloc, text, after, *wanted)?;
    }
    Ok(())
}

#[test]
fn games_up_to_the_limit(rt: HostRuntime) -> Result<(), Fail> {
    let alloc = rt.alloc();
    let mut text = long_text(&alloc, b"{", b'a', LIMIT - 7, b"}")?;
    assert_each_after(&rt, &alloc, &mut text, AFTER_A_COMMENT)
}

#[test]
fn whitespace_after_the_limit(rt: HostRuntime) -> Result<(), Fail> {
    let alloc = rt.alloc();
    let mut text = long_text(&alloc, b"", b' ', LIMIT - 5, b"")?;
    assert_each_after(&rt, &alloc, &mut text, AFTER_SPACES)
}

/// Whether there is a game in a source of which `calls` calls go well.
fn first_until<A: Allocator>(alloc: &A, calls: u64) -> Result<bool, GamesFault> {
    let source = FromBytes::failing_after(b"1. e4 e5 *", 2, calls);
    match Games::new(alloc, source).next() {
        Ok(found) => Ok(found.is_some()),
        Err(fault) => Err(fault),
    }
}

/// A read that fails before the game is whole.
fn assert_failing<A: Allocator>(rt: &impl Abort, alloc: &A, calls: u64) {
    let found = first_until(alloc, calls);
    if calls == 5 {
        assert!(rt; found == Ok(true));
    } else {
        assert!(rt; found == Err(GamesFault::Read));
    }
}

/// The fault in place of the next game, if there is one.
fn next_fault<A: Allocator, R: Source>(games: &mut Games<'_, R, A>) -> Option<GamesFault>
    requires sound { IsSound R.ended games.old }
    ensures sound { IsSound R.ended games.new }
{
    match games.next() {
        Ok(_) => None,
        Err(fault) => Some(fault),
    }
}

/// A source for which there is no memory: each call says so.
fn assert_starved(rt: &impl Abort, heap: &LocalHeap) {
    let mut games = Games::new(heap, FromBytes::new(b"*", 1));
    assert!(rt; heap.used() == 0);
    let wanted = Some(GamesFault::Pgn(NO_MEMORY));
    let first = next_fault(&mut games);
    assert!(rt; first == wanted);
    let again = next_fault(&mut games);
    assert!(rt; again == wanted);
}

/// A read that fails before the game is whole, and a source for which there is no memory.
#[test]
fn faults_of_a_source(rt: HostRuntime) -> Result<(), Fail> {
    for calls in 0..6 {
        assert_failing(&rt, &rt.alloc(), calls);
    }
    let heap = LocalHeap::new(rt.alloc(), 1024)?;
    assert_starved(&rt, &heap);
    Ok(())
}
