//! Tests of reading games: moves and variations, tags, ends of texts, faults, and games one after another.

ghost use Rattle.std.specs.Prelude.{◌<◌};
ghost use Rattle.chess_pgn.specs.Sources.{IsSound};

use super::common::{first_game, is_written};
use byte_streams::{FromBytes, Source};
use chess_pgn::{FaultKind, Game, Games, GamesFault, PgnFault, read_game, write_game};
use std::alloc::Allocator;
use std::process::Abort;
use std::test::Fail;

/// The text begins with a game whose movetext that is, and uses `used` bytes.
fn assert_reads<A: Allocator>(rt: &impl Abort, alloc: &A, text: &str, movetext: &str, used: usize) {
    let (game, count) = first_game(rt, alloc, text.as_bytes());
    assert!(rt; count == used, "{text}");
    assert!(rt; is_written(alloc, &game, movetext), "{text}");
}

/// The fault of a text, its place first.
fn fault<A: Allocator>(alloc: &A, text: &str) -> Option<(u64, u8)> {
    match read_game(alloc, text.as_bytes()) {
        Ok(_) => None,
        Err(fault) => Some((fault.place, fault.kind.number())),
    }
}

/// Texts with the movetext of the game that each begins with, and how many bytes it uses.
const GAMES: &[(&str, &str, usize)] = &[
    (
        "1.e4 e5 (1...c5 2.Nf3 {x  y} $1) 2.Nf3 *",
        "1. e4 e5 (1... c5 2. Nf3 $1 {x y}) 2. Nf3 *\n\n",
        40,
    ),
    ("1. e4 {c} e5", "1. e4 {c} 1... e5 *\n\n", 12),
    ("\n{c}", "{c} *\n\n", 4),
    (
        "{r} $3 e4 {a} ({b} $4 d4 {c} d5) $5 {d} ({e}) (d4 (c4 {f} c5) d6) e5 ;x}\n*%",
        "{r} 1. e4 $5 {a d e} (1. d4 {b c} 1... d5) (1. d4 d6) (1. c4 {f} 1... c5) 1...\ne5 {x)} *\n\n",
        74,
    ),
    (
        "\u{feff}%x\n12.e4!?{ a\n%};b}\n$255(d4)*",
        "1. e4 $5 $255 {a % b)} (1. d4) *\n\n",
        32,
    ),
];

#[test]
fn moves_and_variations(rt: HostRuntime) {
    for (text, movetext, used) in GAMES {
        assert_reads(&rt, &rt.alloc(), text, movetext, *used);
    }
}

/// Tags of other names, White, Result and SetUp twice or where they aren't read.
const TAGS: &str =
    "[Zed \"1\"][Result\"1-0\"][ Eco \n%x]\n\"a\\\"\\\\\\n\"][Zed \"2\"]{c}[White \"x\"][FEN \"y\"][SetUp \"0\"]";

/// A game after a FEN, with a tag after it.
const TAG_AFTER: &str =
    "[FEN \"4k3/4p3/8/8/8/8/4P3/4K3 b - - 0 7\"] e5! {good} e4 1/2-1/2 [White \"x\"]";

/// What needs no escape in a value, and what does.
const SIGNS: &str = "[A_1 \"x{;%\\\"\\y\"] *";

const OTHERS: &str =
    "[Zed \"1\"][SetUq \"2\"][SetU \"3\"][ECO \"A\\\"\"][FEO \"4\"][a \"5\"][FEN \"4k3/8/8/8/8/8/8/4K3 w - - 0 1\"] *";

/// Texts, a tag's name and the value that the game has for it.
const VALUES: &[(&str, &str, Option<&[u8]>)] = &[
    (TAGS, "Zed", Some(b"1")),
    (TAGS, "Eco", Some(b"a\"\\\\n")),
    (TAGS, "White", Some(b"x")),
    (TAGS, "Result", None),
    (TAGS, "SetUp", None),
    (SIGNS, "A_1", Some(b"x{;%\"\\y")),
    (TAG_AFTER, "FEN", None),
    (TAG_AFTER, "White", Some(b"?")),
];

/// The game that the text begins with has that value for a tag.
fn assert_value<A: Allocator>(
    rt: &impl Abort,
    alloc: &A,
    text: &str,
    name: &str,
    value: Option<&[u8]>,
) {
    let (game, _) = first_game(rt, alloc, text.as_bytes());
    assert!(rt; game.tag(name.as_bytes()) == value, "{name}");
}

#[test]
fn tags_of_a_game(rt: HostRuntime) {
    for (text, name, value) in VALUES {
        assert_value(&rt, &rt.alloc(), text, name, *value);
    }
}

/// Texts, how many bytes the game uses that each begins with, and the end of that game's own text.
const ENDS: &[(&str, usize, &str)] = &[
    (TAG_AFTER, 63, "\n\n7... e5 $1 {good} 8. e4 1/2-1/2\n\n"),
    (TAGS, TAGS.len(), "\n\n{c} *\n\n"),
    (
        OTHERS,
        OTHERS.len(),
        "[Result \"*\"]\n[ECO \"A\\\"\"]\n[FEN \"4k3/8/8/8/8/8/8/4K3 w - - 0 1\"]\n[FEO \"4\"]\n[SetU \"3\"]\n[SetUp \"1\"]\n[SetUq \"2\"]\n[Zed \"1\"]\n[a \"5\"]\n\n*\n\n",
    ),
    (
        "[Zed \"1\"][ECO \"A\"] e4 *",
        23,
        "[Result \"*\"]\n[ECO \"A\"]\n[Zed \"1\"]\n\n1. e4 *\n\n",
    ),
];

/// Whether the game's text ends so.
fn ends_with<'a, A: Allocator>(alloc: &'a A, game: &Game<'a, A>, end: &str) -> bool {
    match write_game(alloc, game) {
        Ok(written) => written.as_slice().ends_with(end.as_bytes()),
        Err(_) => false,
    }
}

/// The text begins with a game that uses `used` bytes, and whose own text ends so.
fn assert_end<A: Allocator>(rt: &impl Abort, alloc: &A, text: &str, used: usize, end: &str) {
    let (game, count) = first_game(rt, alloc, text.as_bytes());
    assert!(rt; count == used, "{text}");
    assert!(rt; ends_with(alloc, &game, end), "{text}");
}

#[test]
fn ends_of_texts(rt: HostRuntime) {
    for (text, used, end) in ENDS {
        assert_end(&rt, &rt.alloc(), text, *used, end);
    }
}

/// Texts with the place and the number of their fault, or none.
const FAULTS: &[(&str, Option<(u64, u8)>)] = &[
    ("1. e4 e5 2. Ke3 *", Some((12, 3))),
    ("1. e4 {abc", Some((10, 6))),
    ("(1. e4) *", Some((0, 4))),
    ("e4 ) *", Some((3, 4))),
    ("e4 (d4 *", Some((7, 4))),
    ("e4 (d4 [A \"b\"]", Some((7, 4))),
    ("e4 (d4", Some((6, 6))),
    ("e4 ~", Some((3, 1))),
    ("[A ~\"b\"]", Some((0, 2))),
    (" [A \"b\" {x}]", Some((1, 2))),
    ("[A \"b", Some((5, 6))),
    (" [FEN \"b\"] [A \"\"] *", Some((1, 7))),
    (" [FEN \"b\"] [A", Some((13, 6))),
    (
        " [FEN \"b\"] [FEN \"4k3/8/8/8/8/8/8/4K3 w - - 0 1\"] *",
        Some((1, 7)),
    ),
    ("e4-1-0 *", Some((0, 3))),
    ("e4 $256", Some((3, 1))),
    ("e4 !!!", Some((3, 1))),
    ("e4 %x", Some((3, 1))),
    (" e4 &", Some((4, 1))),
    ("e4 {a", Some((5, 6))),
    ("[A", Some((2, 6))),
    ("[A \"x\n\"] *", Some((0, 2))),
    ("", None),
    ("e4 1-0-1", Some((3, 3))),
];

/// The text has that fault.
fn assert_fault<A: Allocator>(rt: &impl Abort, alloc: &A, text: &str, wanted: Option<(u64, u8)>) {
    assert!(rt; fault(alloc, text) == wanted, "{text}");
}

/// Whether a text begins with a game, if it has no fault.
fn has_game<A: Allocator>(alloc: &A, text: &[u8]) -> Option<bool> {
    match read_game(alloc, text) {
        Ok(found) => Some(found.is_some()),
        Err(_) => None,
    }
}

#[test]
fn faults_of_a_text(rt: HostRuntime) {
    for (text, wanted) in FAULTS {
        assert_fault(&rt, &rt.alloc(), text, *wanted);
    }
    let white = has_game(&rt.alloc(), b"\xef\xbb\xbf \n%x\n ");
    assert!(&rt; white == Some(false));
    let empty = has_game(&rt.alloc(), b"%x\n{}");
    assert!(&rt; empty == Some(true));
}

/// How many games come, until there is none or a fault, or that many have come and there is no fault after them; and the fault.
fn count_games<A: Allocator, R: Source>(
    games: &mut Games<'_, R, A>,
    most: u32,
) -> (u32, Option<GamesFault>)
    requires sound { IsSound R.ended games.old }
    ensures sound { IsSound R.ended games.new }
{
    match games.next() {
        Ok(None) => (0, None),
        Err(fault) => (0, Some(fault)),
        Ok(Some(_game)) => {
            if most == 0 {
                return (0, None);
            }
            let (count, fault) = count_games(games, most - 1);
            (count.saturating_add(1), fault)
        }
    }
}

/// How many of the first three games of a source come before none or a fault does, and the fault.
fn all_games<A: Allocator>(alloc: &A, text: &[u8], piece: usize) -> (u32, Option<GamesFault>)
    requires { 0 < piece }
{
    count_games(&mut Games::new(alloc, FromBytes::new(text, piece)), 3)
}

/// That fault of a source.
const fn refused(place: u64, kind: FaultKind) -> Option<GamesFault> {
    Some(GamesFault::Pgn(PgnFault { place, kind }))
}

/// In pieces of that size `count` games come, and then the fault.
fn assert_games<A: Allocator>(
    rt: &impl Abort,
    alloc: &A,
    text: &[u8],
    piece: usize,
    count: u32,
    fault: Option<GamesFault>,
)
    requires { 0 < piece }
{
    let found = all_games(alloc, text, piece);
    assert!(rt; found.0 == count, "in pieces of {piece}");
    assert!(rt; found.1 == fault, "in pieces of {piece}");
}

/// Sources in pieces of that size.
fn assert_pieces<A: Allocator>(rt: &impl Abort, alloc: &A, piece: usize)
    requires { 0 < piece }
{
    assert_games(rt, alloc, b"*\n1. e4 *1-0", piece, 3, None);
    assert_games(
        rt,
        alloc,
        b"[A \"x\"]\n1. e4 [A \"y\"] d4 e5\n{a}%x\n",
        piece,
        1,
        refused(31, FaultKind::Token),
    );
    assert_games(
        rt,
        alloc,
        b"\xef\xbb\xbf%x\n[A \"\\\"y\\z\"] e4 [B \"\"]",
        piece,
        2,
        None,
    );
    assert_games(
        rt,
        alloc,
        b"*\n1. e4 e5 2. Ke3 *",
        piece,
        1,
        refused(14, FaultKind::Move),
    );
    for (text, count, place, kind) in LATER_FAULTS {
        assert_games(rt, alloc, text, piece, *count, refused(*place, *kind));
    }
}

/// Faults after some games, how many those are, and the fault.
const LATER_FAULTS: &[(&[u8], u32, u64, FaultKind)] = &[
    (b"* (1. e4) *", 1, 2, FaultKind::Variation),
    (b"* * (1. e4) *", 2, 4, FaultKind::Variation),
    (b"* 1. e4 * 1. e4 Ke3 *", 2, 16, FaultKind::Move),
    (b"*\n*\n[A \"x\" e4", 2, 4, FaultKind::Tag),
    (b"* e4 [A \"\"] e5 * {abc", 2, 12, FaultKind::Move),
    (b"* 1-0 {abc", 2, 10, FaultKind::Truncated),
    (b"1-0 0-1 $256", 2, 8, FaultKind::Token),
];

/// A fault is reported again by each later call.
fn assert_reported_again<A: Allocator>(rt: &impl Abort, alloc: &A) {
    let wanted = refused(2, FaultKind::Variation);
    let mut games = Games::new(alloc, FromBytes::new(b"* (1. e4) *", 1));
    let (count, fault) = count_games(&mut games, 3);
    assert!(rt; count == 1);
    assert!(rt; fault == wanted);
    let (count, fault) = count_games(&mut games, 3);
    assert!(rt; count == 0);
    assert!(rt; fault == wanted);
}

#[test]
fn a_fault_is_reported_again(rt: HostRuntime) {
    assert_reported_again(&rt, &rt.alloc());
    let none = all_games(&rt.alloc(), b"", 1);
    assert!(&rt; none.0 == 0);
    assert!(&rt; none.1.is_none());
}

/// Games come one after another, however the source cuts them; a fault's place is counted from the source's beginning.
#[test]
fn games_in_any_pieces(rt: HostRuntime) {
    for piece in 1..40usize {
        assert_pieces(&rt, &rt.alloc(), piece);
    }
}

/// A game of `many` variations of its first move, each in the one before.
fn nested<'a, A: Allocator>(alloc: &'a A, many: u32) -> Result<Vec<u8, &'a A>, PgnFault> {
    let mut text = Vec::from_slice(alloc, b"1. e4")?;
    for _ in 0..many {
        text.extend_from_slice(b" (1. d4")?;
    }
    for _ in 0..many {
        text.push(b')')?;
    }
    text.extend_from_slice(b" *")?;
    Ok(text)
}

/// How many moves follow the first position of the game that a text begins with.
fn begun<A: Allocator>(alloc: &A, text: &[u8]) -> Result<Option<u32>, PgnFault> {
    match read_game(alloc, text) {
        Ok(None) => Ok(None),
        Ok(Some((game, _))) => Ok(Some(game.tree.child_count())),
        Err(fault) => Err(fault),
    }
}

/// What a game of `many` variations, each in the one before, begins with.
fn read_nested<A: Allocator>(
    alloc: &A,
    many: u32,
) -> Result<Result<Option<u32>, PgnFault>, PgnFault> {
    let text = nested(alloc, many)?;
    Ok(begun(alloc, text.as_slice()))
}

/// The fault of a game in which too many variations are open.
const DEEP: PgnFault = PgnFault {
    place: 902,
    kind: FaultKind::Deep,
};

#[test]
fn no_more_than_128_variations_are_open(rt: HostRuntime) -> Result<(), Fail> {
    let read = read_nested(&rt.alloc(), 128)?;
    assert!(&rt; read == Ok(Some(129)));
    let read = read_nested(&rt.alloc(), 129)?;
    assert!(&rt; read == Err(DEEP));
    Ok(())
}
