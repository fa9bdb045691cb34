//! The good games of a collection. Reads games from the standard input, one after another, and writes each in export form (PGN 3.2) on the standard
//! output, as `chess pgn` does. At a game that can't be read it goes on: the standard error gets a line with the game's number, the place of
//! the fault in bytes from the input's beginning, and its kind, and reading goes on at the next section of tags (`Games::pass_over`). With `--part K/N`
//! only every N-th game is written or reported, from game K: N processes over the same input write all games together. With `--salvage` a bad game is
//! repaired and read again, and what was repaired is reported; with `--letters KDTLS` all games are read with the standard's letters in place of these. With
//! `--format positions` a good game is written as rows, one for each ply of its main line
//! (`chess_positions`). With `--cut BYTES` the input is
//! copied, with a zero byte between pieces of whole games, for as many processes.
#![tactic(auto)]

mod cut;
mod filter;
mod form;
mod part;
mod put;
mod salvaging;
mod words;

use byte_streams::{FromRead, ToWrite};
use chess_command_line::{FAILED, Progress, Refused, SOME_REFUSED, read_words};
use cut::{CutFault, cut};
use filter::{Wanted, filter};
use salvaging::filter_saving;
use std::process::ExitCode;
use words::{Words, parse_words};

// What is asked for.
fn asked(rt: &HostRuntime) -> Result<Words, Refused> {
    let words = read_words(rt)?;
    parse_words(rt.alloc(), words.as_slice())
}

// Reads the games, and writes the good ones; the exit status.
fn run_filter(rt: &HostRuntime, wanted: Wanted, is_saving: bool, progress: bool) -> u8 {
    let mut progress = Progress::new(rt, progress);
    let reader = FromRead::new(rt.stdin());
    let mut writer = ToWrite::new(rt.stdout());
    let ended = if is_saving {
        match filter_saving(rt, rt.alloc(), wanted, reader, &mut writer, &mut progress) {
            Ok(totals) => Ok(totals.bad),
            Err(failure) => Err(failure),
        }
    } else {
        filter(rt, rt.alloc(), wanted, reader, &mut writer, &mut progress)
    };
    match ended {
        Ok(0) => 0,
        Ok(_) => SOME_REFUSED,
        Err(failure) => {
            let _ = eprintln!(rt; "{failure}");
            FAILED
        }
    }
}

// Cuts the input; the exit status.
fn run_cut(rt: &HostRuntime, least: u64) -> u8 {
    let reader = FromRead::new(rt.stdin());
    let mut writer = ToWrite::new(rt.stdout());
    match cut(rt.alloc(), least, reader, &mut writer) {
        Ok(()) => 0,
        Err(CutFault::Zero) => {
            let _ = eprintln!(rt; "a zero byte in the input");
            FAILED
        }
        Err(CutFault::Failure(failure)) => {
            let _ = eprintln!(rt; "{failure}");
            FAILED
        }
    }
}

fn main(rt: HostRuntime) -> ExitCode {
    let status = match asked(&rt) {
        Err(refused) => return refused.end(&rt),
        Ok(
            Words::Filter {
                wanted,
                is_saving,
                progress,
            },
        ) => run_filter(&rt, wanted, is_saving, progress),
        Ok(Words::Cut(least)) => run_cut(&rt, least),
    };
    ExitCode::from(status)
}
