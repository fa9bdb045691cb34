//! Readers that go on after a bad game.
ghost use Rattle.std.specs.Prelude.{◌<◌};
ghost use Rattle.chess_pgn.specs.Sources.{IsSound};

use super::passing::Step::{End, Fault, Game, NextFails, PassFails, Passed};
use super::pieces::long_text;
use byte_streams::{FromBytes, Source};
use chess_pgn::{FaultKind, Games, GamesFault};
use linked_list_allocator::LocalHeap;
use std::alloc::{AllocError, Allocator};
use std::process::Abort;
use std::test::Fail;

/// What a call returns.
#[derive(Clone, Copy)]
enum Step {
    /// `next`: a game, with how many bytes were used after it.
    Game(u64),
    /// `next`: a fault, its place and its number.
    Fault(u64, u8),
    /// `next`: that there are no more games.
    End,
    /// `next`: that a read failed.
    NextFails,
    /// `pass_over`: how many bytes were passed over.
    Passed(u64),
    /// `pass_over`: that a read failed.
    PassFails,
}

/// Whether there is a next game.
fn next_is_game<A: Allocator, R: Source>(games: &mut Games<'_, R, A>) -> Result<bool, GamesFault>
    requires sound { IsSound R.ended games.old }
    ensures sound { IsSound R.ended games.new }
{
    match games.next() {
        Ok(found) => Ok(found.is_some()),
        Err(fault) => Err(fault),
    }
}

/// Whether a fault has that place and that number.
fn is_fault(fault: GamesFault, place: u64, number: u8) -> bool {
    match fault {
        GamesFault::Pgn(fault) => fault.place == place && fault.kind.number() == number,
        GamesFault::Read => false,
    }
}

/// Makes the call, and whether it returns that.
fn goes<A: Allocator, R: Source>(games: &mut Games<'_, R, A>, step: Step) -> bool
    requires sound { IsSound R.ended games.old }
    ensures sound { IsSound R.ended games.new }
{
    match step {
        Game(used) => next_is_game(games) == Ok(true) && games.used() == used,
        Fault(place, number) => match next_is_game(games) {
            Ok(_) => false,
            Err(fault) => is_fault(fault, place, number),
        },
        End => next_is_game(games) == Ok(false),
        NextFails => next_is_game(games) == Err(GamesFault::Read),
        Passed(count) => games.pass_over() == Ok(count),
        PassFails => games.pass_over() == Err(GamesFault::Read),
    }
}

/// The calls return these, one after another.
fn assert_steps<A: Allocator, R: Source>(
    rt: &impl Abort,
    games: &mut Games<'_, R, A>,
    steps: &[Step],
)
    requires sound { IsSound R.ended games.old }
    ensures sound { IsSound R.ended games.new }
{
    for step in steps {
        let used = games.used();
        let goes = goes(games, *step);
        assert!(rt; goes, "a call after {used} bytes");
    }
}

/// Bad games between two good ones: the place and the number of the fault, and how many bytes are passed over after it.
const BAD_GAMES: &[(&[u8], u64, u8, u64)] = &[
    // A byte that begins no token.
    (b"[A \"2\"]\n\n1. e4 ~ e5 *", 33, 1, 8),
    // An illegal move.
    (b"[A \"2\"]\n\n1. e4 e5 2. Ke3 Ke7 *", 39, 3, 11),
    // A variation without its end: reading stops at the next section itself.
    (b"[A \"2\"]\n\n1. e4 (1. d4", 41, 4, 0),
    // A comment without its end.
    (b"[A \"2\"]\n\n1. e4 {d4", 55, 6, 5),
];

/// Other collections, and what the calls return that go through them.
const ROWS: &[(&[u8], &[Step])] = &[
    // Empty lines of spaces, and a bracket that opens no tag.
    (
        b"[A \"1\"]\n\n1. e4 *\n\n[A \"2\"]\n\n1. e4 ~\n \t\n[%x]\n\n[ A]\n\n](1)\n\r \n[A \"3\"]\n\n1. d4 *\n",
        &[Game(16), Fault(33, 1), Passed(25), Game(74), End],
    ),
    // The last game.
    (
        b"[A \"1\"]\n\n1. e4 *\n\n[A \"2\"]\n\n1. e4 ~ e5 *\n",
        &[Game(16), Fault(33, 1), Passed(7), End],
    ),
    // The last game, a bracket at the end.
    (
        b"[A \"1\"]\n\n1. e4 *\n\n[A \"2\"]\n\n1. e4 ~\n\n[",
        &[Game(16), Fault(33, 1), Passed(4), End],
    ),
    // The first game.
    (
        b"~\n\n[A \"3\"]\n\n1. d4 *\n",
        &[Fault(0, 1), Passed(3), Game(19), End],
    ),
    // Two games in a row.
    (
        b"[A \"1\"]\n\n1. e4 *\n\n[A \"2\"]\n\n1. e4 ~ e5 *\n\n[A \"4\"]\n\n1. e4 ) *\n\n[A \"3\"]\n\n1. d4 *\n",
        &[
            Game(16),
            Fault(33, 1),
            Passed(8),
            Fault(56, 4),
            Passed(5),
            Game(77),
            End,
        ],
    ),
    // A malformed tag: the tags on the lines after it are the next game's.
    (
        b"[A \"1\"]\n\n1. e4 *\n\n[A ~\"2\"]\n[B \"2\"]\n\n1. e4 *\n\n[A \"3\"]\n\n1. d4 *\n",
        &[Game(16), Fault(18, 2), Passed(6), Game(43), Game(61), End],
    ),
    // Tags after one line feed.
    (
        b"[A \"1\"]\n\n1. e4 *\n\n[A \"2\"]\n\n1. e4 ~\n[A \"4\"]\n[A \"5\"] *\n\n[A \"3\"]\n\n1. d4 *\n",
        &[Game(16), Fault(33, 1), Passed(2), Game(52), Game(70), End],
    ),
    // No empty lines.
    (
        b"[A \"1\"]\n1. e4 *\n[A \"2\"]\n1. e4 Ke3 *\n[A \"3\"]\n1. d4 *\n",
        &[Game(15), Fault(30, 3), Passed(6), Game(51), End],
    ),
    // A line of a comment that opens a tag: the comment is one of the bad game's items.
    (
        b"[A \"1\"]\n\n1. e4 *\n\n[A \"2\"]\n\n1. e4 Ke3 {a\n[x]} *\n\n[A \"3\"]\n\n1. d4 *\n",
        &[Game(16), Fault(33, 3), Passed(15), Game(64), End],
    ),
    // After a byte order mark a line begins.
    (
        b"[A \"1\"]\n\n1. e4 *\n\n[A \"2\"]\n\n1. e4 ~\xEF\xBB\xBF[A \"3\"]\n\n1. d4 *\n",
        &[Game(16), Fault(33, 1), Passed(4), Game(53), End],
    ),
    // Byte order marks between games, as in files that were put together: after a marker, and after movetext without one.
    (
        b"[A \"1\"]\n\n1. e4 *\r\n\xEF\xBB\xBF[A \"2\"]\n\n1. e4 *\n",
        &[Game(16), Game(37), End],
    ),
    (
        b"[A \"1\"]\n\n1. e4\n\xEF\xBB\xBF[A \"2\"]\n\n1. d4 *\n\xEF\xBB\xBF",
        &[Game(18), Game(34), End],
    ),
    // Two bytes of one are no item.
    (
        b"[A \"1\"]\n\n1. e4 *\n\xEF\xBB[A \"2\"]\n\n1. e4 *\n",
        &[Game(16), Fault(17, 1), Passed(19), End],
    ),
    // A comment after what is no item, with a bracket first on a line, which is taken for a section.
    (
        b"[A \"1\"]\n\n1. e4 *\n\n[A \"2\"]\n\n1. e4 ~ {a\n\n[%eval 1]\n\n[x]} *\n\n[A \"3\"]\n\n1. d4 *\n",
        &[
            Game(16),
            Fault(33, 1),
            Passed(17),
            Fault(50, 2),
            Passed(6),
            Game(74),
            End,
        ],
    ),
    // Line ends of two bytes.
    (
        b"[A \"1\"]\r\n\r\n1. e4 *\r\n\r\n[A \"2\"]\r\n\r\n1. e4 ~ e5 *\r\n\r\n[A \"3\"]\r\n\r\n1. d4 *\r\n",
        &[Game(18), Fault(39, 1), Passed(10), Game(67), End],
    ),
    // No fault: what follows the last game is passed over.
    (
        b"[A \"1\"]\n\n1. e4 *\n\ne4 *\n\n[A \"3\"]\n\n1. d4 *\n",
        &[
            Passed(0),
            Game(16),
            Passed(8),
            Game(40),
            End,
            Passed(0),
            End,
        ],
    ),
];

/// The bad game is passed over, and each good one read, in pieces of that size.
fn assert_bad_game<A: Allocator>(
    rt: &impl Abort,
    alloc: &A,
    piece: usize,
    bad: &[u8],
    fault: Step,
    passed: u64,
) -> Result<(), AllocError>
    requires { 0 < piece }
{
    let mut text = Vec::new(alloc);
    text.extend_from_slice(b"[A \"1\"]\n\n1. e4 *\n\n")?;
    text.extend_from_slice(bad)?;
    text.extend_from_slice(b"\n\n[A \"3\"]\n\n1. d4 *")?;
    let used = text.len() as u64;
    text.push(b'\n')?;
    let steps = [Game(16), fault, Passed(passed), Game(used), End];
    let mut games = Games::new(alloc, FromBytes::new(text.as_slice(), piece));
    assert_steps(rt, &mut games, &steps);
    Ok(())
}

/// The collections in pieces of that size.
fn assert_rows<A: Allocator>(rt: &impl Abort, alloc: &A, piece: usize) -> Result<(), AllocError>
    requires { 0 < piece }
{
    for (bad, place, number, passed) in BAD_GAMES {
        assert_bad_game(rt, alloc, piece, bad, Fault(*place, *number), *passed)?;
    }
    for (text, steps) in ROWS {
        let mut games = Games::new(alloc, FromBytes::new(text, piece));
        assert_steps(rt, &mut games, steps);
    }
    Ok(())
}

#[test]
fn goes_on_after_a_bad_game(rt: HostRuntime) -> Result<(), Fail> {
    assert_rows(&rt, &rt.alloc(), 1)?;
    assert_rows(&rt, &rt.alloc(), 2)?;
    assert_rows(&rt, &rt.alloc(), 7)?;
    assert_rows(&rt, &rt.alloc(), 65_536)?;
    Ok(())
}

/// Whitespace that goes past the limit is a bad game of its own: `next` uses all of it, and then those of `bad` are passed over.
fn assert_after_white<A: Allocator>(
    rt: &impl Abort,
    alloc: &A,
    white: &[u8],
    bad: &[u8],
) -> Result<(), AllocError> {
    let mut text = long_text(alloc, b"", b' ', 1_048_570, white)?;
    text.extend_from_slice(bad)?;
    text.extend_from_slice(b"[A \"3\"]\n\n1. d4 *")?;
    let used = text.len() as u64;
    let passed = Passed(bad.len() as u64);
    let steps = [Fault(1_048_576, 9), passed, Game(used), End];
    let mut games = Games::new(alloc, FromBytes::new(text.as_slice(), 65_536));
    assert_steps(rt, &mut games, &steps);
    Ok(())
}

#[test]
fn after_white_space_past_the_limit(rt: HostRuntime) -> Result<(), Fail> {
    let alloc = rt.alloc();
    assert_after_white(&rt, &alloc, b" \n%hidden\n\xEF\xBB\xBF \n", b"")?;
    assert_after_white(&rt, &alloc, b" \n%[B \"2\"]\n \n", b"e4 *\n")?;
    Ok(())
}

/// A collection in reads of four bytes, of which the one after `good_reads` fails.
fn assert_failing<A: Allocator>(rt: &impl Abort, alloc: &A, good_reads: u64, steps: &[Step]) {
    let text = b"* ~~~~~~\n\n[A \"3\"] *";
    let source = FromBytes::failing_after(text, 4, good_reads);
    assert_steps(rt, &mut Games::new(alloc, source), steps);
}

/// A read that fails while bytes are passed over, and one that fails afterwards.
#[test]
fn a_failing_read_while_passing_over(rt: HostRuntime) {
    let passes: &[Step] = &[Game(1), Fault(2, 1), PassFails, NextFails, PassFails];
    assert_failing(&rt, &rt.alloc(), 1, passes);
    assert_failing(&rt, &rt.alloc(), 2, passes);
    let reads: &[Step] = &[Game(1), Fault(2, 1), Passed(8), NextFails, PassFails];
    assert_failing(&rt, &rt.alloc(), 3, reads);
    assert_failing(&rt, &rt.alloc(), 4, reads);
    let whole: &[Step] = &[Game(1), Fault(2, 1), Passed(8), Game(19), End];
    assert_failing(&rt, &rt.alloc(), 6, whole);
}

/// Want of memory stays.
fn assert_starved(rt: &impl Abort, heap: &LocalHeap) {
    let mut games = Games::new(heap, FromBytes::new(b"*", 1));
    let passed = games.pass_over();
    assert!(rt; passed.is_err());
    let starved = goes(&mut games, Fault(0, FaultKind::Memory.number()));
    assert!(rt; starved);
    let again = games.pass_over();
    assert!(rt; again == passed);
    assert!(rt; games.used() == 0);
}

/// Want of memory for a game after a good one, when some of its bytes were read: as many bytes are used as before it.
fn assert_starved_after(rt: &impl Abort, heap: &LocalHeap, text: &[u8]) {
    let mut games = Games::new(heap, FromBytes::new(text, 65_536));
    assert_steps(
        rt,
        &mut games,
        &[Game(1), Fault(1, FaultKind::Memory.number())],
    );
    assert!(rt; games.used() == 1);
}

#[test]
fn want_of_memory_stays(rt: HostRuntime) -> Result<(), Fail> {
    let heap = LocalHeap::new(rt.alloc(), 1024)?;
    assert_starved(&rt, &heap);
    let alloc = rt.alloc();
    let text = long_text(&alloc, b"*{", b'x', 400_000, b"")?;
    let heap = LocalHeap::new(rt.alloc(), 400_000)?;
    assert_starved_after(&rt, &heap, text.as_slice());
    Ok(())
}

/// Nothing is read once the bytes that came say that no game comes, so a read that fails doesn't stand for the fault.
#[test]
fn a_fault_before_a_failing_read(rt: HostRuntime) {
    let alloc = rt.alloc();
    let fault: &[Step] = &[Fault(3, 3), PassFails, NextFails];
    let source = FromBytes::failing_after(b"e4 e4 ", 6, 1);
    assert_steps(&rt, &mut Games::new(&alloc, source), fault);
    let unread: &[Step] = &[NextFails, PassFails];
    let source = FromBytes::failing_after(b"e4 e4", 5, 1);
    assert_steps(&rt, &mut Games::new(&alloc, source), unread);
}
