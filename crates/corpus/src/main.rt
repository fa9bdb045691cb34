//! Writes games on the standard output, the same at each run: what reading and writing games is measured on.
//!
//! The standard input is a decimal number: how many games. All are random legal moves from the start, with ten tags. Of five
//! games three are eighty plies, one has variations within variations, and one comments of some 200 bytes. Where there is no
//! memory, or a stream fails, the exit status is 3.
#![tactic(auto)]

mod scribe;
mod tags;

use chess_key::KeyTable;
use chess_pgn::{Game, Outcome, write_game};
use chess_types::Position;
use rand_pcg::Pcg32;
use scribe::{Kind, Scribe};
use std::alloc::Allocator;
use std::io;
use std::io::{Read, Write};
use std::process::ExitCode;
use tags::name_game;

/// The status where memory or a stream failed.
const FAILED: u8 = 3;

/// The number that the digits at the beginning of a text spell, 1,000,000 at most.
fn number(text: &[u8]) -> u32 {
    let mut number = 0u32;
    for b in text {
        if !b.is_ascii_digit() {
            return number;
        }
        number = number
            .saturating_mul(10)
            .saturating_add(u32::from(*b - b'0'))
            .min(1_000_000);
    }
    number
}

/// The game of that number, where there is memory for it.
#[tactic(auto, unfolding(chess_types::specs::board::Position::start))]
fn game<'a, A: Allocator>(alloc: &'a A, table: &'a KeyTable, index: u32) -> Option<Game<'a, A>> {
    let kind = match index % 5 {
        3 => Kind::Varied,
        4 => Kind::Commented,
        _ => Kind::Plain,
    };
    let random = Pcg32::new(u64::from(index), 54);
    let mut scribe = Scribe::new(alloc, table, random)?;
    scribe.write(kind);
    let mut game = Game::new(alloc, Position::start()).ok()?;
    name_game(alloc, &mut game.tags, index).ok()?;
    game.result = scribe.outcome(match index % 3 {
        0 => Outcome::WhiteWins,
        1 => Outcome::BlackWins,
        _ => Outcome::Draw,
    });
    game.tree = scribe.into_tree();
    Some(game)
}

fn run(rt: &HostRuntime) -> io::Result<bool> {
    let table = KeyTable::new([0; 768]);
    let alloc = rt.alloc();
    let mut text = [0u8; 16];
    let count = rt.stdin().read(&mut text)?;
    let games = number(&text[..count]);
    let mut output = rt.stdout();
    for index in 0..games {
        let Some(game) = game(&alloc, &table, index) else {
            return Ok(false);
        };
        let Ok(written) = write_game(&alloc, &game) else {
            return Ok(false);
        };
        output.write_all(written.as_slice())?;
    }
    Ok(true)
}

fn main(rt: HostRuntime) -> ExitCode {
    match run(&rt) {
        Ok(true) => ExitCode::SUCCESS,
        _ => ExitCode::from(FAILED),
    }
}
