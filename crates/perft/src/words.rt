//! The words after the program's name: none but `--help` and `--version`.

use chess_command_line::{Refused, VERSION, why_refused};
use clap::{Command, Error};
use std::alloc::Global;
use std::convert::AsStr;

const ABOUT: &str =
    "Jatshegi 0.2.0: the leaves of the tree of legal moves, counted for each line of the standard input.";

const LINES: &str = "\
Lines:
  DEPTH FEN       how many positions are so many plies on, 0 to 16; the moves of the last ply are counted
  full DEPTH FEN  the same; the moves of the last ply are made and taken back
A line that asks for neither is answered by its fault, as `fault 7 Castling`. The exit status is 0, 1 for words, 3 where a
stream or memory failed.";

fn matched<S: AsStr>(alloc: Global, words: &[S]) -> Result<(), Error> {
    Command::new(alloc, "perft")
        .about(ABOUT)
        .version(VERSION)
        .after_help(LINES)
        .try_get_matches_from(words)?;
    Ok(())
}

/// Takes the program's name alone. `--help` and `--version` are refused, too, with their text.
pub fn parse_words<S: AsStr>(alloc: Global, words: &[S]) -> Result<(), Refused> {
    match matched(alloc, words) {
        Ok(()) => Ok(()),
        Err(error) => Err(why_refused(alloc, error)),
    }
}
