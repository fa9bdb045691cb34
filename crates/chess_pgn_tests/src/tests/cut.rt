//! A game cut anywhere, and games up to the limits.
use super::common::{first_game, unless_no_memory};
use chess_pgn::{FaultKind, PgnFault, game_laws, read_game, write_game};
use linked_list_allocator::LocalHeap;
use std::alloc::{AllocError, Allocator, Global};
use std::process::Abort;
use std::test::Fail;

const GAME: &[u8] = b"1.e4 e5 (1...c5 2.Nf3 {x  y} $1) 2.Nf3 *";

/// How many moves follow the first position of the game that a text begins with, if there is one.
type Begun = Result<Option<u32>, PgnFault>;

fn read_start<A: Allocator>(alloc: &A, text: &[u8]) -> Begun {
    match read_game(alloc, text) {
        Ok(None) => Ok(None),
        Ok(Some((game, _))) => Ok(Some(game.tree.child_count())),
        Err(fault) => Err(fault),
    }
}

fn fault(place: u64, kind: FaultKind) -> Begun {
    Err(PgnFault { place, kind })
}

/// What the game's first `count` bytes begin with.
fn wanted(count: usize) -> Begun {
    match count {
        0 => Ok(None),
        3 => fault(2, FaultKind::Move),
        6 => fault(5, FaultKind::Move),
        14 => fault(13, FaultKind::Move),
        19 | 20 => fault(18, FaultKind::Move),
        36 | 37 => fault(35, FaultKind::Move),
        30 => fault(29, FaultKind::Token),
        9..=13 | 15..=18 | 21..=29 | 31 => fault(count as u64, FaultKind::Truncated),
        1 | 2 => Ok(Some(0)),
        _ => Ok(Some(1)),
    }
}

/// The game's first `count` bytes.
fn start_of_game(rt: &impl Abort, count: usize) -> &'static [u8] {
    GAME.get(..count).expect(rt, "so many bytes")
}

#[test]
fn each_prefix_of_a_game(rt: HostRuntime) {
    for count in 0..=GAME.len() {
        let begun = read_start(&rt.alloc(), start_of_game(&rt, count));
        assert!(&rt; begun == wanted(count), "the first {count} bytes");
    }
}

/// A comment of `letters` letters, and the end of the game.
fn comment<'a, A: Allocator>(alloc: &'a A, letters: usize) -> Result<Vec<u8, &'a A>, AllocError> {
    let mut text = Vec::from_slice(alloc, b"{")?;
    for _ in 0..letters {
        text.push(b'a')?;
    }
    text.extend_from_slice(b"}*")?;
    Ok(text)
}

/// What a comment of `letters` letters begins with.
fn start_of_comment<A: Allocator>(alloc: &A, letters: usize) -> Result<Begun, AllocError> {
    let text = comment(alloc, letters)?;
    Ok(read_start(alloc, text.as_slice()))
}

#[test]
fn the_longest_game(rt: HostRuntime) -> Result<(), Fail> {
    let begun = start_of_comment(&rt.alloc(), 1_048_573)?;
    assert!(&rt; begun == Ok(Some(0)));
    let begun = start_of_comment(&rt.alloc(), 1_048_574)?;
    assert!(&rt; begun == fault(1_048_576, FaultKind::TooLarge));
    Ok(())
}

/// A game with `variations` variations of its first move.
fn varied<'a, A: Allocator>(alloc: &'a A, variations: u32) -> Result<Vec<u8, &'a A>, AllocError> {
    let mut text = Vec::from_slice(alloc, b"e4")?;
    for _ in 0..variations {
        text.extend_from_slice(b"(d4)")?;
    }
    Ok(text)
}

/// The text of the game at the start of a text; the bytes that it uses and the moves at its beginning are as many as wanted.
fn written<'a, A: Allocator>(
    rt: &impl Abort,
    alloc: &'a A,
    text: &[u8],
    wanted: (usize, u32),
) -> Result<Vec<u8, &'a A>, PgnFault> {
    let (game, used) = first_game(rt, alloc, text);
    assert!(rt; used == wanted.0);
    assert!(rt; game.tree.child_count() == wanted.1);
    write_game(alloc, &game)
}

fn is_written_again<A: Allocator>(
    rt: &impl Abort,
    alloc: &A,
    text: &[u8],
    wanted: (usize, u32),
) -> Result<(), PgnFault> {
    let written = written(rt, alloc, text, wanted)?;
    assert!(rt; read_start(alloc, written.as_slice()) == Ok(Some(wanted.1)));
    Ok(())
}

/// Each is a move beside the first one, and is written and read again.
#[test]
fn as_many_variations_as_there_is_room_for(rt: HostRuntime) -> Result<(), Fail> {
    let alloc = rt.alloc();
    let text = varied(&alloc, 65_536)?;
    let wanted = (2 + 4 * 65_536, 65_537);
    is_written_again(&rt, &alloc, text.as_slice(), wanted)?;
    game_laws();
    Ok(())
}

/// Tags, comments, annotations and variations.
const NOTED: &[u8] =
    b"[White \"A\"][Zed \"1\"][Eco \"2\"] {to begin} 1.e4 $1 $2 $3 $4 $5 {x} e5 (1...c5 2.Nf3 {x  y} $1) 2.Nf3 *";

/// Whether the game is read on a heap of that size, of which nothing is taken afterwards; else there is no memory.
fn is_read_on(rt: &impl Abort, alloc: Global, size: usize) -> Result<bool, AllocError> {
    let heap = LocalHeap::new(alloc, size)?;
    let begun = unless_no_memory(rt, read_start(&heap, NOTED));
    assert!(rt; heap.used() == 0);
    assert!(rt; begun.is_none() || begun == Some(Some(1)));
    Ok(begun.is_some())
}

/// In however little memory: the game, or that there is none.
#[test]
fn a_game_in_little_memory(rt: HostRuntime) -> Result<(), Fail> {
    let (mut refused, mut read) = (0u32, 0u32);
    for step in 0..400usize {
        if is_read_on(&rt, rt.alloc(), 256 + step * 32)? {
            read = read.saturating_add(1);
        } else {
            refused = refused.saturating_add(1);
        }
    }
    assert!(&rt; refused > 30 && read > 30);
    Ok(())
}
