//! What the words after the program's name ask `arbiter` to do.

use crate::judge::Asked;
use crate::row::Format;
use chess_command_line::{Refused, VERSION, flag, option, progress_flag, why_refused};
use chess_repair::Letters;
use clap::{Arg, Command, Error};
use std::alloc::Global;
use std::convert::AsStr;

/// What the program is to do.
#[derive(Clone, Copy)]
pub struct Words {
    pub asked: Asked,
    /// A line on the standard error once a second.
    pub progress: bool,
}

const ABOUT: &str =
    "Jatshegi 0.2.0: what the FIDE Laws say of each game of the standard input, a row a game on the standard output.";

const AFTER: &str = "\
A row has the game's number and place, its players and the other tags of a table, its start, its plies, its marker, and
what the Laws say of its main line: how the last position stands, where the game was over before its last move, where a
draw could be claimed, and whether the marker agrees. A game that can't be read has a row with its fault, and with what
is said of the game that its text is repaired to. arbiter(1) and docs/FORMATS.md have the columns. A finding is: moves
after the game was over; a marker that contradicts the board, or that is * where the board ends the game; a win of a
side that has only its king; another variant than chess; no marker, or another than the tag Result. With `--letters KDTLS`
the games have these letters for king, queen, rook, bishop and knight. The exit status is
0, 2 where a game could not be read, 1 for wrong words, 3 where a stream or memory failed.";

const NO_LETTERS: &str = "\
error: the value for '--letters <letters>' is five different capital letters, the king's, queen's, rook's, bishop's and knight's

For more information, try '--help'.
";

// The letters of the men, by the value of `--letters`; the refusal where it is none.
fn letters_of(letters: Option<&str>) -> Result<Option<Letters>, &'static str> {
    let Some(text) = letters else {
        return Ok(None);
    };
    match Letters::parse(text) {
        Some(letters) => Ok(Some(letters)),
        None => Err(NO_LETTERS),
    }
}

// What the words ask for; the refusal where a value is none.
fn matched<S: AsStr>(alloc: Global, words: &[S]) -> Result<Result<Words, &'static str>, Error> {
    let findings = flag(
        alloc,
        "findings",
        "only games that have a finding (below), and those that can't be read",
    );
    let format = Arg::new(alloc, "format")
        .long("format")
        .help("comma-separated values with a header row (RFC 4180), or a JSON object a line")
        .value_parser(["csv", "jsonl"].as_slice());
    let letters = option(
        alloc,
        "letters",
        "the letters of king, queen, rook, bishop and knight in the games, as KDTLS",
    );
    let command = Command::new(alloc, "arbiter")
        .about(ABOUT)
        .version(VERSION)
        .after_help(AFTER)
        .arg(findings)?
        .arg(format)?
        .arg(letters)?
        .arg(progress_flag(alloc))?;
    let matches = command.try_get_matches_from(words)?;
    let format = match matches.get_str("format") {
        Some("jsonl") => Format::Jsonl,
        _ => Format::Csv,
    };
    let letters = match letters_of(matches.get_str("letters")) {
        Ok(letters) => letters,
        Err(wrong) => return Ok(Err(wrong)),
    };
    Ok(Ok(Words {
        asked: Asked {
            format,
            findings: matches.get_flag("findings"),
            letters,
        },
        progress: matches.get_flag("progress"),
    }))
}

/// What the words ask for. `--help` and `--version` are refused, too, with their text.
pub fn parse_words<S: AsStr>(alloc: Global, words: &[S]) -> Result<Words, Refused> {
    match matched(alloc, words) {
        Ok(Ok(words)) => Ok(words),
        Ok(Err(wrong)) => Err(Refused::Words(format!(in alloc; "{wrong}")?)),
        Err(error) => Err(why_refused(alloc, error)),
    }
}
