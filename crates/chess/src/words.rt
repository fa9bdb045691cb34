//! Which command the words after the program's name ask for: `board`, `uci` or `pgn`.

use chess_command_line::{Refused, VERSION, why_refused};
use clap::{Arg, Command, Error};
use std::alloc::Global;
use std::convert::AsStr;

/// The engine that the program's words ask for.
#[derive(Clone, Copy)]
pub enum Asked {
    Board,
    Uci,
    Pgn,
}

const ABOUT: &str =
    "Jatshegi 0.2.0: a chess board that answers by the Laws of Chess, a chess engine, and a reader and writer of games.";

const ENGINE: &str = "\
board: answers the lines of the standard input, one line each; \
uci: plays in a front end for the universal chess interface; \
pgn: writes the games of the standard input in export form";

const COMMANDS: &str = "\
Lines of board:
  new          begins a game from the start position
  set FEN      begins a game from that position
  fen          the position as FEN
  counts w|b   how many men of that colour attack each square
  eval         the evaluation in centipawns
  moves        the legal moves
  checks       the squares of the men that give check
  play MOVE    makes a move, Nf3 or g1f3: along the tree, or as a new variation
  back         one move back
  step N       one move on, to child N of the position, from 0
  start, end   to the first position; along the main line to its end
  goto PATH    to the position at a path, 0.0.1
  path         the path to the position
  promote      makes the variation that leads here the first
  delete       takes out the position and all that follows
  comment TEXT sets the position's comment
  nag N        adds an annotation number, 0 to 255
  count        how often the line has come to its last position
  status       mate, stalemate, dead, fivefold, seventyfive or play
  claims       the draws that may be claimed
  claim MOVE   those that may be claimed with that move
  best DEPTH   the best move, 1 to 16 plies deep, and its score
  pgn          the whole game in export form
An answer `refused N NAME` changes nothing.

`perft`, another program (crates/perft), counts the leaves of the tree of legal moves.
The pages: README.md first; docs/FORMATS.md has every line, answer and error,
docs/PROMISES.md what is proved.";

fn matched<S: AsStr>(alloc: Global, words: &[S]) -> Result<Option<Asked>, Error> {
    let engine = Arg::new(alloc, "engine")
        .required(true)
        .help(ENGINE)
        .value_parser(["board", "uci", "pgn"].as_slice());
    let command = Command::new(alloc, "chess")
        .about(ABOUT)
        .version(VERSION)
        .after_help(COMMANDS)
        .arg(engine)?;
    let matches = command.try_get_matches_from(words)?;
    Ok(match matches.get_str("engine") {
        Some("board") => Some(Asked::Board),
        Some("uci") => Some(Asked::Uci),
        Some("pgn") => Some(Asked::Pgn),
        _ => None,
    })
}

/// What the words ask for, the program's name first: exactly one word after it, the name of an engine. `--help` and `--version` are refused, too, with
/// their text.
pub fn parse_words<S: AsStr>(alloc: Global, words: &[S]) -> Result<Asked, Refused> {
    match matched(alloc, words) {
        Ok(Some(asked)) => Ok(asked),
        Ok(None) => Err(Refused::Words(String::new(alloc))),
        Err(error) => Err(why_refused(alloc, error)),
    }
}
