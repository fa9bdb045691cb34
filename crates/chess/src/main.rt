//! A chess board and a chess engine over the standard streams: `chess board` answers the lines of the standard input on the standard
//! output, `chess uci` is a session of the universal chess interface, and `chess pgn` reads games and writes them in export form.
#![tactic(auto)]

mod clock;
mod words;

use byte_streams::{FromRead, ToWrite};
use chess_cli::{Ended, TimedSession, board, pgn, uci_with};
use chess_command_line::{Refused, read_words};
use chess_key::KeyTable;
use clock::MachineClock;
use std::process::ExitCode;
use words::{Asked, parse_words};

// What the program was called for.
fn asked(rt: &HostRuntime) -> Result<Asked, Refused> {
    let words = read_words(rt)?;
    parse_words(rt.alloc(), words.as_slice())
}

// A session of the universal chess interface.
fn keep_session(rt: &HostRuntime) -> Ended {
    let alloc = rt.alloc();
    let table = KeyTable::fixed();
    let mut session = TimedSession::new(&alloc, &table, MachineClock::new(rt));
    uci_with(
        &alloc,
        &mut FromRead::new(rt.stdin()),
        &mut ToWrite::new(rt.stdout()),
        &mut session,
    )
}

fn main(rt: HostRuntime) -> ExitCode {
    let ended = match asked(&rt) {
        Ok(Asked::Board) => board(
            rt.alloc(),
            &mut FromRead::new(rt.stdin()),
            &mut ToWrite::new(rt.stdout()),
        ),
        Ok(Asked::Uci) => keep_session(&rt),
        Ok(Asked::Pgn) => pgn(
            rt.alloc(),
            &mut FromRead::new(rt.stdin()),
            &mut ToWrite::new(rt.stdout()),
        ),
        Err(refused) => return refused.end(&rt),
    };
    let message = ended.message();
    if !message.is_empty() {
        // A fault of the standard error is ignored.
        let _ = eprintln!(rt; "{message}");
    }
    ExitCode::from(ended.status())
}
