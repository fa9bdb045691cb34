//! Tests of outcomes by the Laws, of lines that are copied, and of moves with their texts.

ghost use Rattle.std.specs.Prelude.{◌≡◌, IfSome};
ghost use Rattle.chess_types.specs.board.Position.{start};

use chess_draws::Line;
use chess_items::Outcome;
use chess_key::KeyTable;
use chess_queries::{copy_line, move_texts, outcome, outcome_by};
use chess_types::{Position, Status};
use std::alloc::Global;

/// A game's line by its moves' texts; `None` where one names no legal move.
#[tactic(auto, unfolding(chess_types::specs::board::Position::start))]
fn a_line<'k>(alloc: Global, table: &'k KeyTable, texts: &[&str]) -> Option<Line<'k, Global>>
    ensures { IfSome result (λ line. (line.looked ≡ 0) × (line.line.start ≡ start)) }
{
    let mut line = Line::start(alloc, Position::start(), table);
    for text in texts {
        let Ok(m) = line.read_move(text.as_bytes()) else {
            return None;
        };
        if line.push_legal(m).is_err() {
            return None;
        }
    }
    Some(line)
}

#[test]
fn games_end_by_the_laws(rt: HostRuntime) {
    let table = KeyTable::fixed();
    let Some(mut mate) = a_line(rt.alloc(), &table, &["f3", "e5", "g4", "Qh4#"]) else {
        panic!(rt; "no line");
    };
    assert!(rt; outcome(&mut mate, false) == Outcome::BlackWins);
    assert!(rt; outcome_by(Status::Stalemate, None) == Outcome::Draw);
    let Some(mut thrice) = a_line(
        rt.alloc(),
        &table,
        &["Nf3", "Nf6", "Ng1", "Ng8", "Nf3", "Nf6", "Ng1", "Ng8"],
    ) else {
        panic!(rt; "no line");
    };
    assert!(rt; outcome(&mut thrice, false) == Outcome::Unfinished);
    assert!(rt; outcome(&mut thrice, true) == Outcome::Draw);
}

#[test]
#[tactic(auto, unfolding(chess_types::specs::board::Position::start))]
fn lines_are_copied(rt: HostRuntime) {
    let table = KeyTable::fixed();
    let Some(line) = a_line(rt.alloc(), &table, &["e4", "c5", "Nf3"]) else {
        panic!(rt; "no line");
    };
    let copy = copy_line(rt.alloc(), &table, &line).expect(&rt, "memory");
    assert!(rt; copy.plies() == 3);
    assert!(rt; copy.position() == line.position());
}

#[test]
fn moves_have_texts(rt: HostRuntime) {
    let table = KeyTable::fixed();
    let Some(mut line) = a_line(rt.alloc(), &table, &["f3", "e5", "g4"]) else {
        panic!(rt; "no line");
    };
    let found = move_texts(rt.alloc(), &mut line).expect(&rt, "memory");
    assert!(rt; found.len() == 30);
    assert!(rt; found.iter().any(|m| m.san.as_str() == "Qh4#"));
}
