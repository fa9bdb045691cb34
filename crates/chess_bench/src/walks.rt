//! A game from the standard input read, written, or gone over by a `Walk` or a `Replay`, to be timed.

use chess_key::KeyTable;
use chess_pgn::{read_game, write_game};
use chess_walk::{Replay, Walk};
use std::io;
use std::io::Read;

// The nodes of a game that a walk gives.
fn walked(rt: &HostRuntime, text: &[u8]) -> io::Result<()> {
    let alloc = rt.alloc();
    let Ok(Some((game, _))) = read_game(&alloc, text) else {
        return println!(rt; "no game");
    };
    let mut nodes = 0u64;
    for visit in Walk::of(&alloc, &game.tree)? {
        let _visit = visit?;
        nodes = nodes.saturating_add(1);
    }
    println!(rt; "{nodes} nodes")
}

// Those that a walk gives that makes the moves.
fn replayed(rt: &HostRuntime, text: &[u8]) -> io::Result<()> {
    let (alloc, table) = (rt.alloc(), KeyTable::fixed());
    let Ok(Some((game, _))) = read_game(&alloc, text) else {
        return println!(rt; "no game");
    };
    let mut nodes = 0u64;
    for made in Replay::of(&alloc, &table, &game.tree)? {
        let _made = made?;
        nodes = nodes.saturating_add(1);
    }
    println!(rt; "{nodes} nodes")
}

// The bytes of a game's export form.
fn written(rt: &HostRuntime, text: &[u8]) -> io::Result<()> {
    let alloc = rt.alloc();
    let Ok(Some((game, _))) = read_game(&alloc, text) else {
        return println!(rt; "no game");
    };
    let Ok(export) = write_game(&alloc, &game) else {
        return println!(rt; "out of memory");
    };
    let bytes = export.len();
    println!(rt; "{bytes} bytes")
}

/// Reads the game at the start of the standard input, and writes it, goes over its nodes by a `Walk` or a `Replay`, or leaves it.
pub fn go_over(rt: &HostRuntime, word: &str) -> io::Result<()> {
    let mut text = Vec::new(rt.alloc());
    let _bytes = rt.stdin().read_to_end(&mut text)?;
    match word {
        "walk" => walked(rt, text.as_slice()),
        "replay" => replayed(rt, text.as_slice()),
        "write" => written(rt, text.as_slice()),
        _ => {
            let alloc = rt.alloc();
            let is_read = matches!(read_game(&alloc, text.as_slice()), Ok(Some(_)));
            println!(rt; "read: {is_read}")
        }
    }
}
