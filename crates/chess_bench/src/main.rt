//! Measures puts and clears: how many a second the attack counts and the evaluation follow, and how many counts each changes. Then moves
//! written in standard algebraic notation and read back: how many a second. Then searches: how many positions each asks for, and how
//! many a second.
//!
//! Men are taken from the boards of a fixed list and put on others of their squares, chosen by a fixed seed. What is counted
//! goes to standard output and is the same at each run; the rate goes to standard error.
//!
//! With a word, the name of one call, that call alone is made, a thousand times for each position of the list, or for each of its legal
//! moves: `is_legal`, `make` (and taken back), `write_move`, `read_move`, `moves`, `count_legal`, `write_fen`, `read_fen`; `nothing`
//! makes none. `best` and a depth, 1 to 16 plies, searches the start position and four middlegames; with a number from 0 to 4 after it, that
//! one of them. `read`, `write`, `walk` and `replay` read a game from the standard input, and leave it, write it, or go over its nodes by a
//! `Walk` or by a `Replay`. A counter of instructions beside the program shows what a call or a search costs (docs/SPEED.md).
#![tactic(auto)]

ghost use Rattle.std.specs.Prelude.{◌≤◌};

mod calls;
mod exercise;
mod searches;
mod texts;
mod walks;

use calls::{Call, Calls};
use chess_draws::Line;
use chess_fen::read;
use chess_key::KeyTable;
use chess_play::Live;
use chess_search::{Nodes, score_text};
use exercise::{Exercise, Ticks};
use searches::best_of_all;
use std::time::Instant;
use std::{env, io};
use texts::Texts;
use walks::go_over;

const POSITIONS: [&str; 5] = [
    "rnbqkbnr/pppppppp/8/8/8/8/PPPPPPPP/RNBQKBNR w KQkq - 0 1",
    "r3k2r/p1ppqpb1/bn2pnp1/3PN3/1p2P3/2N2Q1p/PPPBBPPP/R3K2R w KQkq - 0 1",
    "8/2p5/3p4/KP5r/1R3p1k/8/4P1P1/8 w - - 0 1",
    "r1bq1rk1/pp2bppp/2n1pn2/3p4/3P4/2N1PN2/PPQ1BPPP/R1B2RK1 w - - 0 1",
    "3rr1k1/pp3ppp/2p5/4q3/3bQ3/2B2P2/PPP3PP/3RR2K w - - 0 1",
];

/// The positions that are searched for the table of searches: the start, and four middlegames.
const SEARCHES: [&str; 5] = [
    "rnbqkbnr/pppppppp/8/8/8/8/PPPPPPPP/RNBQKBNR w KQkq - 0 1",
    "r3k2r/p1ppqpb1/bn2pnp1/3PN3/1p2P3/2N2Q1p/PPPBBPPP/R3K2R w KQkq - 0 1",
    "r4rk1/1pp1qppp/p1np1n2/2b1p1B1/2B1P1b1/P1NP1N2/1PP1QPPP/R4RK1 w - - 0 10",
    "r1bq1rk1/pp2bppp/2n1pn2/3p4/3P4/2N1PN2/PPQ1BPPP/R1B2RK1 w - - 0 1",
    "3rr1k1/pp3ppp/2p5/4q3/3bQ3/2B2P2/PPP3PP/3RR2K w - - 0 1",
];

/// How many changes are made on each board.
const CHANGES: u32 = 400_000;

/// How often each legal move of a position is written and read.
const ROUNDS: u32 = 1_000;

/// How many of the positions are searched, and how deep.
const SEARCHED: usize = 3;

const DEPTH: u8 = 5;

/// The number a second, where `number` take `micros` microseconds.
fn rate(number: u64, micros: u128) -> u64 {
    let micros = u64::try_from(micros).unwrap_or(u64::MAX);
    number
        .saturating_mul(1_000_000)
        .checked_div(micros)
        .unwrap_or(0)
}

/// The legal moves of each position, written and read back.
fn exchange(rt: &HostRuntime) -> io::Result<()> {
    let table = KeyTable::new([0; 768]);
    let begun = Instant::now(rt)?;
    let mut all = Texts::default();
    for fen in POSITIONS {
        let Ok(position) = read(fen.as_bytes()) else {
            return println!(rt; "no position: {fen}");
        };
        let mut live = Live::new(position, &table);
        all.exchange_rounds(&mut live, ROUNDS);
    }
    let elapsed = begun.elapsed(rt)?;
    let (moves, bytes) = (all.moves, all.bytes);
    println!(rt; "{moves} moves written and read; {bytes} bytes")?;
    let rate = rate(moves, elapsed.as_micros());
    eprintln!(rt; "{rate} a second")
}

/// The best move of a position, `depth` plies deep, and how many positions were asked for.
fn search(rt: &HostRuntime, fen: &str, depth: u8) -> io::Result<()>
    requires deep { 1 ≤ depth }
    requires shallow { depth ≤ 16 }
{
    let Ok(position) = read(fen.as_bytes()) else {
        return println!(rt; "no position: {fen}");
    };
    let table = KeyTable::new([0; 768]);
    let mut line = Line::start(rt.alloc(), position, &table);
    let mut nodes = Nodes::new();
    let begun = Instant::now(rt)?;
    let best = best_of_all(&mut line, depth, &mut nodes);
    let elapsed = begun.elapsed(rt)?;
    let asked = nodes.nodes();
    let rate = rate(asked, elapsed.as_micros());
    if let Some((m, value)) = best {
        let (text, score) = (m.text(), score_text(value));
        println!(rt; "{depth} plies deep: {text} {score}, {asked} positions")?;
    }
    eprintln!(rt; "{rate} a second")
}

/// The number that a word spells; 0 of any other.
fn number(word: Option<&String>) -> u8 {
    match word {
        Some(word) => word.as_str().parse::<u8>().unwrap_or(0),
        None => 0,
    }
}

/// The searches of the table, that deep: all of them, or the one of that number.
fn search_each(rt: &HostRuntime, depth: u8, which: Option<u8>) -> io::Result<()> {
    if !(1..=16).contains(&depth) {
        return println!(rt; "no depth from 1 to 16");
    }
    for number in 0..SEARCHES.len() {
        let asked = match which {
            Some(which) => usize::from(which) == number,
            None => true,
        };
        if asked {
            search(rt, SEARCHES[number], depth)?;
        }
    }
    Ok(())
}

/// The call of that name, `ROUNDS` times for each position or move.
fn measure(rt: &HostRuntime, word: &str) -> io::Result<()> {
    let Some(call) = Call::named(word) else {
        return println!(rt; "no call: {word}");
    };
    let table = KeyTable::new([0; 768]);
    let mut calls = Calls::default();
    for fen in POSITIONS {
        let Ok(position) = read(fen.as_bytes()) else {
            return println!(rt; "no position: {fen}");
        };
        calls.with_fen(&position, fen, call, ROUNDS);
        let mut live = Live::new(position, &table);
        calls.with_moves(&mut live, call, ROUNDS);
        calls.with_position(&mut live, call, ROUNDS);
    }
    let (made, sum) = (calls.made, calls.sum);
    println!(rt; "{word}: {made} calls, {sum} in all")
}

fn main(rt: HostRuntime) -> io::Result<()> {
    let args = env::args(&rt)?;
    let words = args.collect::<Vec<String>>(rt.alloc())?;
    match words.get(1) {
        Some(word) if word.as_str() == "best" => {
            let which = words.get(3).map(|_| number(words.get(3)));
            search_each(&rt, number(words.get(2)), which)
        }
        Some(word) if matches!(word.as_str(), "read" | "write" | "walk" | "replay") => {
            go_over(&rt, word.as_str())
        }
        Some(word) => measure(&rt, word.as_str()),
        None => measure_all(&rt),
    }
}

/// Puts and clears, texts of moves, and searches.
fn measure_all(rt: &HostRuntime) -> io::Result<()> {
    let begun = Instant::now(rt)?;
    let mut all = Ticks::default();
    for fen in POSITIONS {
        let Ok(position) = read(fen.as_bytes()) else {
            return println!(rt; "no position: {fen}");
        };
        let placement = position.setup().placement.clone().unwrap();
        let mut exercise = Exercise::new(placement, 42);
        for _change in 0..CHANGES {
            all.add(exercise.change());
        }
        let white = exercise.white();
        println!(rt; "evaluation at the end: {white}")?;
    }
    let elapsed = begun.elapsed(rt)?;
    let (changes, sum, most) = (all.changes, all.sum, all.most);
    let hundredths = sum.saturating_mul(100).checked_div(changes).unwrap_or(0);
    let (whole, part) = (hundredths / 100, hundredths % 100);
    println!(rt; "{changes} puts and clears; ticks: {whole}.{part:02} on average, {most} at most")?;
    let rate = rate(changes, elapsed.as_micros());
    eprintln!(rt; "{rate} a second")?;
    exchange(rt)?;
    for fen in &POSITIONS[..SEARCHED] {
        search(rt, fen, DEPTH)?;
    }
    Ok(())
}
