//! The tasks of the guide, each as a function that prints what it found.

ghost use Rattle.std.specs.Prelude.{◌≡◌, ℕ, [], IfSome};
ghost use Rattle.chess_pgn.specs.Reading.{BeginsWithGame};
ghost use Rattle.chess_pgn.specs.steps.GameCode.{game_of};

use chess_attack::position;
use chess_draws::Line;
use chess_edit::{join, set_tag};
use chess_fen::read;
use chess_key::KeyTable;
use chess_moves::moves;
use chess_pgn::{Game, read_game, write_game};
use chess_play::Live;
use chess_queries::{move_texts, outcome_by};
use chess_report::Report;
use chess_search::score_text;
use chess_tree::Analysis;
use chess_types::{Colour, Draft, Kind, Man, Position, Square};
use chess_walk::Replay;
use std::alloc::Allocator;
use std::io;

/// The legal moves of the position that a FEN spells.
pub fn legal_moves(rt: &HostRuntime, fen: &str) -> io::Result<()> {
    let table = KeyTable::fixed();
    let Ok(position) = read(fen.as_bytes()) else {
        return println!(rt; "{fen} spells no position");
    };
    let mut live = Live::new(position, &table);
    for m in moves(&mut live).as_slice() {
        print!(rt; "{m} ")?;
    }
    println!(rt; "")
}

/// The same in standard algebraic notation.
pub fn moves_as_texts(rt: &HostRuntime, fen: &str) -> io::Result<()> {
    let table = KeyTable::fixed();
    let Ok(position) = read(fen.as_bytes()) else {
        return println!(rt; "{fen} spells no position");
    };
    let mut line = Line::start(rt.alloc(), position, &table);
    for m in move_texts(rt.alloc(), &mut line)?.as_slice() {
        print!(rt; "{} ", m.san)?;
    }
    println!(rt; "")
}

/// Plays a game, and asks how it ended.
#[tactic(auto, unfolding(chess_types::specs::board::Position::start))]
pub fn game(rt: &HostRuntime, texts: &[&str]) -> io::Result<()> {
    let table = KeyTable::fixed();
    let mut line = Line::start(rt.alloc(), Position::start(), &table);
    for text in texts {
        let Ok(m) = line.read_move(text.as_bytes()) else {
            return println!(rt; "{text} names no legal move");
        };
        if line.push_legal(m).is_err() {
            return println!(rt; "out of memory");
        }
    }
    println!(rt; "{:?}, won by {:?}", line.status(), line.winner())
}

/// The main line of a game with its comments, and how many variations each move has.
pub fn main_line(rt: &HostRuntime, text: &str) -> io::Result<()> {
    let alloc = rt.alloc();
    let Ok(Some((game, _))) = read_game(&alloc, text.as_bytes()) else {
        return println!(rt; "no game");
    };
    let mut node = game.tree.root();
    for _ply in 0..20_000u32 {
        let others = node.children().saturating_sub(1);
        let Some(first) = node.child(0) else {
            break;
        };
        if let Some(m) = first.move_at() {
            let comment = String::from_utf8_lossy(rt.alloc(), first.notes().comment)?;
            println!(rt; "{m}, variations: {others}, comment: {comment}")?;
        }
        node = first;
    }
    Ok(())
}

/// A game with its variations: each move in the order of the text, with its ply, in how many variations it is, and its comment.
pub fn variations(rt: &HostRuntime, text: &str) -> io::Result<()> {
    let (alloc, table) = (rt.alloc(), KeyTable::fixed());
    let Ok(Some((game, _))) = read_game(&alloc, text.as_bytes()) else {
        return println!(rt; "no game");
    };
    for made in Replay::of(&alloc, &table, &game.tree)? {
        let made = made?;
        let comment = String::from_utf8_lossy(rt.alloc(), made.node.notes().comment)?;
        println!(rt;
            "ply {}, within {}: {} {comment}",
            made.depth, made.level, made.san
        )?;
    }
    Ok(())
}

// The game at the start of a text.
fn first_game<'a, A: Allocator>(alloc: &'a A, text: &str) -> Option<Game<'a, A>>
    ensures { IfSome result (λ game. (used : ℕ) × BeginsWithGame text.now (game_of game) used) }
{
    match read_game(alloc, text.as_bytes()) {
        Ok(Some((game, _))) => Some(game),
        _ => None,
    }
}

// The game of a text with the main line of another's as a variation where they part.
fn joined_game<'a, A: Allocator>(alloc: &'a A, text: &str, other: &str) -> Option<Game<'a, A>>
    ensures cursor { IfSome result (λ game. game.tree.path ≡ []) }
{
    let mut game = first_game(alloc, text)?;
    let second = first_game(alloc, other)?;
    match join(&mut game, &second) {
        Ok(()) => Some(game),
        Err(_) => None,
    }
}

/// Two games as one, taken up to go on with it.
pub fn joined(rt: &HostRuntime, text: &str, other: &str) -> io::Result<()> {
    let (alloc, table) = (rt.alloc(), KeyTable::fixed());
    let Some(game) = joined_game(&alloc, text, other) else {
        return println!(rt; "no two games to join");
    };
    let Ok(mut analysis) = Analysis::of(game.tree, &table) else {
        return println!(rt; "out of memory");
    };
    let _there = analysis.step(0);
    let ways = analysis.tree().child_count();
    analysis.end();
    println!(rt;
        "{ways} ways after the first move, {} plies, {:?}",
        analysis.line().plies(),
        analysis.status()
    )
}

/// A game with tags set by their rules, and its outcome by the Laws; a game that ends in mate.
pub fn tags(rt: &HostRuntime, text: &str) -> io::Result<()> {
    let alloc = rt.alloc();
    let Ok(Some((mut game, _))) = read_game(&alloc, text.as_bytes()) else {
        return println!(rt; "no game");
    };
    for (name, value) in [("White", "A"), ("WhiteElo", "2100"), ("FEN", "8/8")] {
        if let Err(fault) = set_tag(&alloc, &mut game.tags, name.as_bytes(), value.as_bytes()) {
            println!(rt; "{name}: {fault}")?;
        }
    }
    let report = Report::of(rt.alloc(), &game)?;
    game.result = outcome_by(report.status, report.winner);
    match write_game(&alloc, &game) {
        Ok(text) => print!(rt; "{}", String::from_utf8_lossy(rt.alloc(), text.as_slice())?),
        Err(fault) => println!(rt; "{fault}"),
    }
}

/// The best move, three plies deep, with its score as UCI writes it.
pub fn search(rt: &HostRuntime, fen: &str) -> io::Result<()> {
    let (alloc, table) = (rt.alloc(), KeyTable::fixed());
    let Ok(position) = read(fen.as_bytes()) else {
        return println!(rt; "{fen} spells no position");
    };
    let Ok(mut analysis) = Analysis::new(&alloc, position, &table) else {
        return println!(rt; "out of memory");
    };
    match analysis.best(3) {
        Some((m, value)) => println!(rt; "{m} {}", score_text(value)),
        None => println!(rt; "no legal move"),
    }
}

/// A position from its fields, as a diagram; a king too few is named.
pub fn built(rt: &HostRuntime) -> io::Result<()> {
    let king = |colour| {
        Some(Man {
            colour,
            kind: Kind::King,
        })
    };
    let mut draft = Draft::empty();
    draft.set(Square::E1, king(Colour::White));
    if let Err(fault) = position(&draft) {
        println!(rt; "{fault}")?;
    }
    draft.set(Square::E8, king(Colour::Black));
    match position(&draft) {
        Ok(position) => println!(rt; "{position}"),
        Err(fault) => println!(rt; "{fault}"),
    }
}
