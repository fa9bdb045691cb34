//! The library from one's own crate: what people look for on the first day (`tasks`), each a function of a few lines, and a line of moves with a game tree
//! beside it, which the prover keeps together.
#![tactic(auto)]

mod tasks;

ghost use Rattle.std.specs.Prelude.{◌≡◌};
ghost use Rattle.chess_tree.specs.GameTree.{line_to};

use chess_draws::Line;
use chess_key::KeyTable;
use chess_tree::Tree;
use chess_types::{Move, Position};
use std::alloc::Allocator;
use std::io;
use std::process::ExitCode;
use tasks::{
    built, game, joined, legal_moves, main_line, moves_as_texts, search, tags, variations,
};

/// Plays a move on the line and in the tree, and returns whether it could. That the move is legal is asked once, of the line; the prover
/// carries it over to the tree, since both have the same moves.
fn play<A: Allocator, B: Allocator>(tree: &mut Tree<A>, line: &mut Line<B>, m: Move) -> bool
    requires together { line.old.line ≡ line_to tree.old }
    requires none_looked { line.old.looked ≡ 0 }
    ensures together { line.new.line ≡ line_to tree.new }
    ensures none_looked { line.new.looked ≡ 0 }
{
    if tree.depth() == 20_000 || line.prepare(m).is_err() || tree.add(m).is_err() {
        return false;
    }
    line.push_prepared(m);
    true
}

/// Plays some texts on a line and in a tree at once.
#[tactic(auto, unfolding(chess_types::specs::board::Position::start))]
fn together(rt: &HostRuntime) -> io::Result<()> {
    let table = KeyTable::fixed();
    let alloc = rt.alloc();
    let mut line = Line::start(rt.alloc(), Position::start(), &table);
    let Ok(mut tree) = Tree::new(&alloc, Position::start()) else {
        return println!(rt; "out of memory");
    };
    for text in ["f2f3", "e7e5", "e5e6", "g2g4", "d8h4"] {
        let Some(m) = Move::parse(text.as_bytes()) else {
            continue;
        };
        let verdict = if play(&mut tree, &mut line, m) {
            "played"
        } else {
            "refused"
        };
        println!(rt; "{text} {verdict}")?;
    }
    println!(rt; "{:?} after {} plies", line.status(), tree.depth())
}

/// A position from an endgame: White's rook is pinned.
const ENDGAME: &str = "4r2k/8/8/8/8/8/4R3/4K3 w - - 0 1";

fn run(rt: &HostRuntime) -> io::Result<()> {
    legal_moves(rt, ENDGAME)?;
    moves_as_texts(rt, ENDGAME)?;
    game(rt, &["f3", "e5", "g4", "Qh4#"])?;
    main_line(rt, "1. e4 {best by test} e5 (1... c5) (1... e6) 2. Nf3 *")?;
    variations(rt, "1. e4 e5 (1... c5 {Sicilian} 2. Nf3 (2. c3)) 2. Nf3 *")?;
    joined(rt, "1. e4 e5 2. Nf3 *", "1. e4 c5 2. Nf3 d6 *")?;
    tags(rt, "1. f3 e5 2. g4 Qh4# *")?;
    search(rt, "6k1/5ppp/8/8/8/8/8/R5K1 w - - 0 1")?;
    built(rt)?;
    together(rt)
}

fn main(rt: HostRuntime) -> ExitCode {
    match run(&rt) {
        Ok(()) => ExitCode::SUCCESS,
        Err(_) => ExitCode::FAILURE,
    }
}
