//! Counts the leaves of the tree of legal moves ("perft"), the usual check of a move list against published numbers, and its
//! usual measure.
//!
//! Each line `DEPTH FEN` of the standard input, a decimal number from 0 to 16 without needless zeros and a position, is
//! answered by a line on the standard output: the number of positions that many plies on, once for each line of legal moves
//! that leads there (at most 2^64 - 1). The moves of the last ply are counted; a line `full DEPTH FEN` has each of them made and
//! taken back. A line that asks for none is answered by its fault: `fault LongLine` for one of over
//! 1,024 bytes, `fault Depth` for another first word, or the number and the name of the FEN's fault, as `fault 7 Castling`. A
//! line without words takes no answer. Where there is no memory, or a stream fails, a message goes to the standard error and
//! the exit status is 3. The program takes no word but `--help` and `--version`.
#![tactic(auto)]

mod answer;
mod counter;
mod leaves;
mod words;

use byte_streams::{FromRead, ToWrite};
use chess_command_line::{FAILED, Refused, read_words};
use chess_loop::RunEnd;
use counter::count_leaves;
use std::process::ExitCode;
use words::parse_words;

// Reads the program's words.
fn asked(rt: &HostRuntime) -> Result<(), Refused> {
    let words = read_words(rt)?;
    parse_words(rt.alloc(), words.as_slice())
}

// What is written on the standard error, if the run ended early.
fn message(ended: RunEnd) -> Option<&'static str> {
    match ended {
        RunEnd::Good => None,
        RunEnd::ReadFault => Some("read fault"),
        RunEnd::WriteFault => Some("write fault"),
        RunEnd::Memory => Some("out of memory"),
    }
}

fn main(rt: HostRuntime) -> ExitCode {
    if let Err(refused) = asked(&rt) {
        return refused.end(&rt);
    }
    let ended = count_leaves(
        &rt.alloc(),
        &mut FromRead::new(rt.stdin()),
        &mut ToWrite::new(rt.stdout()),
    );
    let Some(message) = message(ended) else {
        return ExitCode::SUCCESS;
    };
    // A fault of the standard error is ignored.
    let _ = eprintln!(rt; "{message}");
    ExitCode::from(FAILED)
}
