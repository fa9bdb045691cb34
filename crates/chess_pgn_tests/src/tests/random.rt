//! Random games, with what may come between their tokens and with faults, in one piece and in random ones.
ghost use Rattle.std.specs.Prelude.{◌<◌};

use super::common::{a_table, read_all};
use chess_key::KeyTable;
use chess_pgn::{Game, GamesFault, Outcome, Tags, write_game};
use chess_tree::{Analysis, Tree};
use chess_types::Position;
use rand_core::utils::NextWord;
use rand_pcg::Pcg64;
use std::alloc::{AllocError, Allocator};
use std::process::Abort;
use std::test::Fail;

/// How many texts are read, each of one to three games.
const TEXTS: u32 = 500;

/// What may come between two tokens of the movetext.
const BETWEEN: [&[u8]; 12] = [
    b" ",
    b"\n",
    b"\r\n",
    b" {a  comment} ",
    b" ;to the end}\n",
    b"\n%hidden\n",
    b"\t$7 ",
    b" . ",
    b" 12 ",
    b" {} ",
    b"  ",
    b" !? ",
];

/// What is a fault at most places.
const FAULTS: [&[u8]; 10] = [
    b" ~ ",
    b" Ke9 ",
    b" ) ",
    b" ( ",
    b" $256 ",
    b" { ",
    b" ] ",
    b" [A \"\n\"] ",
    b" !!! ",
    b" 1-0-0 ",
];

fn below(random: &mut Pcg64, limit: u64) -> u64 {
    let word: u64 = random.next_word();
    word.checked_rem(limit).unwrap_or(0)
}

fn pick<'t>(random: &mut Pcg64, texts: &[&'t [u8]]) -> &'t [u8] {
    let index = below(random, texts.len() as u64) as usize;
    texts.get(index).copied().unwrap_or(b" ")
}

/// Adds `plies` random moves, with a note at some of them.
fn wander<A: Allocator>(analysis: &mut Analysis<'_, '_, A>, random: &mut Pcg64, plies: u64) {
    for _ in 0..plies {
        let moves = analysis.moves();
        let index = below(random, moves.len() as u64) as usize;
        let Some(m) = moves.get(index) else {
            return;
        };
        if analysis.add(*m).is_err() {
            return;
        }
        if below(random, 8) == 0 {
            let _noted = analysis.add_nag((index % 256) as u8);
        }
        if below(random, 8) == 0 {
            let _noted = analysis.set_comment(b"so it goes");
        }
    }
}

/// Adds a variation in place of the last move, some within it, and comes back to that move.
fn vary<A: Allocator>(analysis: &mut Analysis<'_, '_, A>, random: &mut Pcg64, deep: u32) {
    let depth = analysis.tree().depth();
    if deep == 0 || depth == 0 {
        return;
    }
    analysis.back_to(depth - 1);
    let plies = below(random, 6);
    wander(analysis, random, plies);
    vary(analysis, random, deep - 1);
    analysis.back_to(depth - 1);
    let _stepped = analysis.step(0);
}

/// A random tree.
#[tactic(auto, unfolding(chess_types::specs::board::Position::start))]
fn tree<'a, A: Allocator>(
    alloc: &'a A,
    table: &'a KeyTable,
    random: &mut Pcg64,
) -> Option<Tree<'a, A>> {
    let mut analysis = Analysis::new(alloc, Position::start(), table).ok()?;
    for _ in 0..6 {
        let plies = below(random, 8);
        wander(&mut analysis, random, plies);
        let deep = (below(random, 4) % 4) as u32;
        vary(&mut analysis, random, deep);
    }
    Some(analysis.into_tree())
}

/// A random game.
fn game<'a, A: Allocator>(
    alloc: &'a A,
    table: &'a KeyTable,
    random: &mut Pcg64,
) -> Option<Game<'a, A>> {
    let tree = tree(alloc, table, random)?;
    let result = match below(random, 4) {
        0 => Outcome::WhiteWins,
        1 => Outcome::BlackWins,
        2 => Outcome::Draw,
        _ => Outcome::Unfinished,
    };
    let mut tags = Tags::unknown(alloc).ok()?;
    tags.white = Vec::from_slice(alloc, b"A \"B\" \\ C").ok()?;
    Some(Game { tags, result, tree })
}

/// Copies a game's text: in the movetext, at one space in eight, something else may come between the tokens.
fn strew<A: Allocator>(
    text: &mut Vec<u8, A>,
    written: &[u8],
    random: &mut Pcg64,
    faulty: bool,
) -> Result<(), AllocError> {
    let (mut last, mut is_behind_tags) = (b' ', false);
    for b in written {
        is_behind_tags |= last == b'\n' && *b == b'\n';
        last = *b;
        if *b != b' ' || !is_behind_tags || below(random, 8) != 0 {
            text.push(*b)?;
        } else if faulty && below(random, 16) == 0 {
            text.extend_from_slice(pick(random, FAULTS.as_slice()))?;
        } else {
            text.extend_from_slice(pick(random, BETWEEN.as_slice()))?;
        }
    }
    Ok(())
}

/// The text of a random game.
fn written<'a, A: Allocator>(
    alloc: &'a A,
    table: &'a KeyTable,
    random: &mut Pcg64,
) -> Result<Vec<u8, &'a A>, AllocError> {
    let Some(game) = game(alloc, table, random) else {
        return Err(AllocError);
    };
    match write_game(alloc, &game) {
        Ok(text) => Ok(text),
        Err(_) => Err(AllocError),
    }
}

/// Random games, one after another.
fn collection<'a, A: Allocator>(
    alloc: &'a A,
    table: &'a KeyTable,
    random: &mut Pcg64,
) -> Result<Vec<u8, &'a A>, AllocError> {
    let mut text = Vec::new(alloc);
    let games = below(random, 3).saturating_add(1);
    let faulty = below(random, 2) == 0;
    for _ in 0..games {
        let written = written(alloc, table, random)?;
        strew(&mut text, written.as_slice(), random, faulty)?;
    }
    Ok(text)
}

/// What a source in pieces of that size gives is that text, and that fault.
fn assert_same<A: Allocator>(
    rt: &impl Abort,
    alloc: &A,
    input: &[u8],
    piece: usize,
    wanted: &[u8],
    fault: Option<GamesFault>,
) -> Result<(), AllocError>
    requires { 0 < piece }
{
    let (text, found) = read_all(alloc, input, piece)?;
    assert!(rt; text.as_slice() == wanted, "in pieces of {piece}");
    assert!(rt; found == fault, "in pieces of {piece}");
    Ok(())
}

/// The same in random pieces.
fn assert_pieces<A: Allocator>(
    rt: &impl Abort,
    alloc: &A,
    random: &mut Pcg64,
    input: &[u8],
    wanted: &[u8],
    fault: Option<GamesFault>,
) -> Result<(), AllocError> {
    for most in [1, 7, 100, 5_000] {
        let piece = (below(random, most) as usize).saturating_add(1);
        assert_same(rt, alloc, input, piece, wanted, fault)?;
    }
    Ok(())
}

/// However the source is cut, its games and its fault are the same, and the games that are written are read again: whether there is no fault.
fn is_good<A: Allocator>(
    rt: &impl Abort,
    alloc: &A,
    random: &mut Pcg64,
    input: &[u8],
) -> Result<bool, AllocError> {
    let (whole, fault) = read_all(alloc, input, 1_000_000)?;
    assert_pieces(rt, alloc, random, input, whole.as_slice(), fault)?;
    assert_same(
        rt,
        alloc,
        whole.as_slice(),
        1_000_000,
        whole.as_slice(),
        None,
    )?;
    Ok(fault.is_none())
}

/// The same of a random collection.
fn is_one_good<A: Allocator>(
    rt: &impl Abort,
    alloc: &A,
    table: &KeyTable,
    random: &mut Pcg64,
) -> Result<bool, AllocError> {
    let text = collection(alloc, table, random)?;
    is_good(rt, alloc, random, text.as_slice())
}

/// However a source is cut, its games and its fault are the same; and games that are written are read again.
#[test]
fn random_games_in_random_pieces(rt: HostRuntime) -> Result<(), Fail> {
    let table = a_table();
    let mut random = Pcg64::new(17, 19);
    let (mut good, mut faulty) = (0u32, 0u32);
    for _ in 0..TEXTS {
        if is_one_good(&rt, &rt.alloc(), &table, &mut random)? {
            good = good.saturating_add(1);
        } else {
            faulty = faulty.saturating_add(1);
        }
    }
    assert!(&rt; good > 100 && faulty > 100);
    Ok(())
}
