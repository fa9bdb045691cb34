//! Tests of writing games: movetext, other starts, lines of 79 bytes, and want of memory.

ghost use Rattle.std.specs.Prelude.{◌≤◌};

use super::common::{NO_MEMORY, a_table, is_written, unless_no_memory};
use chess_fen::read as read_fen;
use chess_key::KeyTable;
use chess_pgn::{Game, Outcome, PgnFault, write_game};
use chess_tree::{Analysis, Tree};
use chess_types::{Move, Position};
use linked_list_allocator::LocalHeap;
use std::alloc::{AllocError, Allocator, Global};
use std::process::Abort;
use std::test::Fail;

/// The game that begins, of which nothing is known.
#[tactic(auto, unfolding(chess_types::specs::board::Position::start))]
fn begin<'a, A: Allocator>(alloc: &'a A) -> Result<Game<'a, A>, PgnFault> {
    Game::new(alloc, Position::start())
}

/// A step of a game: its move, or `-` to the first position, an annotation number and a comment.
type Step = (&'static str, Option<u8>, &'static str);

/// Goes to the first position, or plays the move of that text; false where it can't be had.
fn goes<A: Allocator>(analysis: &mut Analysis<'_, '_, A>, text: &str) -> bool {
    if text == "-" {
        analysis.start();
        return true;
    }
    match Move::parse(text.as_bytes()) {
        Some(played) => analysis.play(played).is_ok(),
        None => false,
    }
}

/// Adds an annotation number, if there is one; false where it can't be had.
fn annotates<A: Allocator>(analysis: &mut Analysis<'_, '_, A>, nag: Option<u8>) -> bool {
    match nag {
        Some(nag) => analysis.add_nag(nag).is_ok(),
        None => true,
    }
}

/// Takes the step; false where a move or a note can't be had.
fn takes<A: Allocator>(analysis: &mut Analysis<'_, '_, A>, step: &Step) -> bool {
    let (text, nag, comment) = *step;
    goes(analysis, text)
        && annotates(analysis, nag)
        && (comment.is_empty() || analysis.set_comment(comment.as_bytes()).is_ok())
}

/// Takes one step after another; false where one of them can't be taken.
fn takes_all<A: Allocator>(analysis: &mut Analysis<'_, '_, A>, steps: &[Step]) -> bool {
    for step in steps {
        if !takes(analysis, step) {
            return false;
        }
    }
    true
}

/// The tree of those steps; none where one of them can't be taken.
fn tree_of<'a, A: Allocator>(
    alloc: &'a A,
    table: &'a KeyTable,
    start: Position,
    steps: &[Step],
) -> Option<Tree<'a, A>>
    requires clock { start.clock ≤ 99999 }
    requires number { start.number ≤ 99999 }
{
    let mut analysis = Analysis::new(alloc, start, table).ok()?;
    if !takes_all(&mut analysis, steps) {
        return None;
    }
    Some(analysis.into_tree())
}

/// The tree of those steps from the beginning of a game.
#[tactic(auto, unfolding(chess_types::specs::board::Position::start))]
fn tree_from_the_start<'a, A: Allocator>(
    alloc: &'a A,
    table: &'a KeyTable,
    steps: &[Step],
) -> Option<Tree<'a, A>> {
    tree_of(alloc, table, Position::start(), steps)
}

/// The game has that value for a tag.
fn assert_tag<A: Allocator>(
    rt: &impl Abort,
    game: &Game<'_, A>,
    name: &[u8],
    value: Option<&[u8]>,
) {
    assert!(rt; game.tag(name) == value);
}

fn is_begun<A: Allocator>(rt: &impl Abort, alloc: &A) {
    let game = begin(alloc).expect(rt, "a game");
    assert!(rt; is_written(alloc, &game, "*\n\n"));
    assert_tag(rt, &game, b"Date", Some(b"????.??.??"));
    assert_tag(rt, &game, b"Result", None);
}

#[test]
fn a_game_without_moves(rt: HostRuntime) {
    is_begun(&rt, &rt.alloc());
}

/// The movetext of the game of those steps, by those words.
fn assert_movetext_by<A: Allocator>(
    rt: &impl Abort,
    alloc: &A,
    table: &KeyTable,
    steps: &[Step],
    movetext: &str,
) {
    let mut game = begin(alloc).expect(rt, "a game");
    game.tree = tree_from_the_start(alloc, table, steps).expect(rt, "a tree");
    assert!(rt; is_written(alloc, &game, movetext));
}

/// The movetext of the game of those steps.
fn assert_movetext<A: Allocator>(rt: &impl Abort, alloc: &A, steps: &[Step], movetext: &str) {
    assert_movetext_by(rt, alloc, &a_table(), steps, movetext);
}

const LINE: &[Step] = &[("e2e4", Some(1), "a  b"), ("e7e5", None, "")];

const BOTH: &[Step] = &[
    ("e2e4", Some(1), "a  b"),
    ("e7e5", None, ""),
    ("-", None, "first"),
    ("d2d4", None, ""),
    ("d7d5", None, ""),
    ("c2c4", None, ""),
];

#[test]
fn notes_and_variations(rt: HostRuntime) {
    assert_movetext(&rt, &rt.alloc(), LINE, "1. e4 $1 {a b} 1... e5 *\n\n");
    assert_movetext(
        &rt,
        &rt.alloc(),
        BOTH,
        "{first} 1. e4 $1 {a b} (1. d4 d5 2. c4) 1... e5 *\n\n",
    );
}

const OTHER_START: &[u8] =
    b"[Event \"?\\\"\\\\\"]\n[Site \"?\"]\n[Date \"????.??.??\"]\n[Round \"?\"]\n[White \"?\"]\n[Black \"?\"]\n[Result \"1/2-1/2\"]\n\
[FEN \"4k3/4p3/8/8/8/8/4P3/4K3 b - - 0 7\"]\n[SetUp \"1\"]\n\n7... e5 $1 {good} 8. e4 1/2-1/2\n\n";

/// The position of a FEN with small counters.
fn position_of(rt: &impl Abort, fen: &[u8]) -> Position
    ensures clock { result.clock ≤ 99999 }
    ensures number { result.number ≤ 99999 }
{
    let start = read_fen(fen).expect(rt, "a FEN");
    assert!(rt; start.setup().clock < 99_999 && start.setup().number < 99_999);
    start
}

/// Where the other game begins.
const OTHER_FEN: &[u8] = b"4k3/4p3/8/8/8/8/4P3/4K3 b - - 0 7";

const OTHER_STEPS: &[Step] = &[("e7e5", Some(1), "good"), ("e2e4", None, "")];

fn other_game<'a, A: Allocator>(rt: &impl Abort, alloc: &'a A) -> Game<'a, A> {
    Game::new(alloc, position_of(rt, OTHER_FEN)).expect(rt, "a game")
}

fn other_tree<'a, A: Allocator>(rt: &impl Abort, alloc: &'a A, table: &'a KeyTable) -> Tree<'a, A> {
    tree_of(alloc, table, position_of(rt, OTHER_FEN), OTHER_STEPS).expect(rt, "a tree")
}

/// Whether that is the game's text.
fn is_text<'a, A: Allocator>(alloc: &'a A, game: &Game<'a, A>, text: &[u8]) -> bool {
    match write_game(alloc, game) {
        Ok(written) => written.as_slice() == text,
        Err(_) => false,
    }
}

fn is_other_written<A: Allocator>(rt: &impl Abort, alloc: &A, table: &KeyTable) {
    let mut game = other_game(rt, alloc);
    game.tree = other_tree(rt, alloc, table);
    game.result = Outcome::Draw;
    let named = game.tags.event.extend_from_slice(b"\"\\");
    assert!(rt; named.is_ok());
    assert!(rt; is_text(alloc, &game, OTHER_START));
}

#[test]
fn another_start(rt: HostRuntime) {
    is_other_written(&rt, &rt.alloc(), &a_table());
}

/// A comment before the moves, and the movetext that it makes. The first line has 79 bytes with its 16 words of four letters, and the brace.
const COMMENTS: &[(&[u8], &str)] = &[
    (
        b"aaaa aaaa aaaa aaaa aaaa aaaa aaaa aaaa aaaa aaaa aaaa aaaa aaaa aaaa aaaa aa b",
        "{aaaa aaaa aaaa aaaa aaaa aaaa aaaa aaaa aaaa aaaa aaaa aaaa aaaa aaaa aaaa aa\nb} *\n\n",
    ),
    (
        b"aaaa aaaa aaaa aaaa aaaa aaaa aaaa aaaa aaaa aaaa aaaa aaaa aaaa aaaa aaaaaaa",
        "{aaaa aaaa aaaa aaaa aaaa aaaa aaaa aaaa aaaa aaaa aaaa aaaa aaaa aaaa aaaaaaa}\n*\n\n",
    ),
];

fn assert_comment<'a, A: Allocator>(
    rt: &impl Abort,
    alloc: &'a A,
    game: &mut Game<'a, A>,
    comment: &[u8],
    movetext: &str,
) {
    let set = game.tree.set_comment(comment);
    assert!(rt; set.is_ok());
    assert!(rt; is_written(alloc, game, movetext));
}

fn are_comments_written<'a, A: Allocator>(rt: &impl Abort, alloc: &'a A, game: &mut Game<'a, A>) {
    for (comment, movetext) in COMMENTS {
        assert_comment(rt, alloc, game, comment, movetext);
    }
}

#[test]
fn lines_of_79_bytes(rt: HostRuntime) -> Result<(), Fail> {
    let alloc = rt.alloc();
    are_comments_written(&rt, &alloc, &mut begin(&alloc)?);
    Ok(())
}

/// A game with a move, on so little memory that a growth may be refused.
fn a_game<'a, A: Allocator>(alloc: &'a A, table: &'a KeyTable) -> Result<Game<'a, A>, PgnFault> {
    let mut game = begin(alloc)?;
    let Some(tree) = tree_from_the_start(alloc, table, &[("e2e4", None, "")]) else {
        return Err(NO_MEMORY);
    };
    game.tree = tree;
    Ok(game)
}

/// Writes it: how long its text is.
fn write_one<A: Allocator>(alloc: &A, table: &KeyTable) -> Result<usize, PgnFault> {
    let game = a_game(alloc, table)?;
    Ok(write_game(alloc, &game)?.len())
}

/// Whether a growth is refused on a heap of that size, of which nothing is taken afterwards.
fn is_too_small(rt: &impl Abort, alloc: Global, size: usize) -> Result<bool, AllocError> {
    let heap = LocalHeap::new(alloc, size)?;
    let len = unless_no_memory(rt, write_one(&heap, &a_table()));
    assert!(rt; heap.used() == 0);
    assert!(rt; len.unwrap_or(usize::MAX) > 100);
    Ok(len.is_none())
}

/// Each growth is refused in turn, as `Memory`, until all find their memory.
#[test]
fn without_memory(rt: HostRuntime) -> Result<(), Fail> {
    let mut refused = 0u32;
    for size in 1..400usize {
        if is_too_small(&rt, rt.alloc(), size * 64)? {
            refused = refused.saturating_add(1);
        }
    }
    assert!(&rt; refused > 10 && refused < 390);
    Ok(())
}
