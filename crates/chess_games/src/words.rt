//! What the words after the program's name ask `games` to do.

use crate::filter::Wanted;
use crate::form::Form;
use crate::part::{Part, positive};
use arrayvec::ArrayVec;
use chess_command_line::{Refused, VERSION, flag, option, progress_flag, why_refused};
use chess_positions::{Column, Format, Layout};
use chess_repair::Letters;
use clap::{Arg, Command, Error};
use std::alloc::Global;
use std::convert::AsStr;

/// What the program is to do.
#[derive(Drop)]
pub enum Words {
    /// Games are read, with a line on the standard error once a second where that is asked for.
    Filter {
        wanted: Wanted,
        /// Bad games are salvaged.
        is_saving: bool,
        progress: bool,
    },
    /// The input is cut into pieces of at least the given number of bytes.
    Cut(u64),
}

const ABOUT: &str =
    "Jatshegi 0.2.0: the good games of the standard input, in export form or as rows, on the standard output.";

const AFTER: &str = "\
Of each game that can't be read the standard error has a line `game NUMBER: fault PLACE KIND NAME`; reading goes on
at the next `[` that opens a tag and is first on its line. With `--salvage` such a game is repaired and read again, where
that can be, and has a line `game NUMBER: repaired PLACE NAME` for each repair; one that is saved is a good one. With
`--letters KDTLS` the games have these letters for king, queen, rook, bishop and knight; each is read with the standard's
in their place. With `--part K/N` only the games K, K + N, K + 2 N .. are
written or reported, so that N processes over one file write all of them. With `--cut BYTES` the input is copied, with a
zero byte between pieces of whole games, at least so many bytes each; a process over each piece with `--totals` writes
its games. With `--format positions` a good game is written as a row for each ply of its main line, as comma-separated
values after a row of the columns' names; with `--format positions-jsonl` as a JSON object a line. The columns are game,
ply, uci, san, fen, epd, key, repetitions, status and result, or those that `--columns` names; docs/FORMATS.md says what
they have. The exit status is 0, 2 where a game was refused, 1 for wrong words, 3 where a stream or memory failed, or
where the input to be cut has a zero byte.";

const NO_PART: &str = "\
error: the value for '--part <part>' is K/N, two numbers from 1, K at most N

For more information, try '--help'.
";

const NO_BYTES: &str = "\
error: the value for '--cut <cut>' is a number from 1

For more information, try '--help'.
";

const NO_COLUMNS: &str = "\
error: the value for '--columns <columns>' is names of columns with commas between them, each once

For more information, try '--help'.
";

const NO_LETTERS: &str = "\
error: the value for '--letters <letters>' is five different capital letters, the king's, queen's, rook's, bishop's and knight's

For more information, try '--help'.
";

const NOT_SALVAGED: &str = "\
error: '--letters <letters>' goes with '--salvage'

For more information, try '--help'.
";

const NO_ROWS: &str = "\
error: '--columns <columns>' goes with '--format positions' or '--format positions-jsonl'

For more information, try '--help'.
";

// The columns that a text names.
fn columns_of(text: &str) -> Option<ArrayVec<Column, 10>> {
    let mut columns = ArrayVec::new();
    for name in text.split(',') {
        let column = Column::parse(name.as_bytes())?;
        if columns.as_slice().contains(&column) || columns.try_push(column).is_err() {
            return None;
        }
    }
    Some(columns)
}

// All columns.
fn all_columns() -> ArrayVec<Column, 10> {
    let mut columns = ArrayVec::new();
    for column in &Column::ALL {
        let _ = columns.try_push(*column);
    }
    columns
}

// How good games are written, by the values of `--format` and `--columns`; the refusal where they are none.
fn form_of(format: Option<&str>, columns: Option<&str>) -> Result<Form, &'static str> {
    let format = match format {
        Some("positions") => Format::Csv,
        Some("positions-jsonl") => Format::Jsonl,
        _ if columns.is_some() => return Err(NO_ROWS),
        _ => return Ok(Form::Games),
    };
    let columns = match columns {
        Some(text) => columns_of(text),
        None => Some(all_columns()),
    };
    let Some(columns) = columns else {
        return Err(NO_COLUMNS);
    };
    Ok(Form::Rows(Layout { format, columns }))
}

// The letters of the men, by the value of `--letters`; the refusal where it is none, or bad games aren't salvaged.
fn letters_of(letters: Option<&str>, is_saving: bool) -> Result<Option<Letters>, &'static str> {
    let Some(text) = letters else {
        return Ok(None);
    };
    if !is_saving {
        return Err(NOT_SALVAGED);
    }
    match Letters::parse(text) {
        Some(letters) => Ok(Some(letters)),
        None => Err(NO_LETTERS),
    }
}

// What the words ask for; the refusal where a value is none.
fn matched<S: AsStr>(alloc: Global, words: &[S]) -> Result<Result<Words, &'static str>, Error> {
    let part = option(alloc, "part", "every N-th game alone, from game K, as 1/4");
    let cut = option(
        alloc,
        "cut",
        "copy the input, cut into pieces of at least so many bytes",
    );
    let totals = flag(
        alloc,
        "totals",
        "the number of games, of bytes and of those passed over, on the standard error",
    );
    let salvage = flag(
        alloc,
        "salvage",
        "repair games that can't be read, with a line on the standard error for each repair",
    );
    let letters = option(
        alloc,
        "letters",
        "with --salvage, the letters of king, queen, rook, bishop and knight in the games, as KDTLS",
    );
    let format = Arg::new(alloc, "format")
        .long("format")
        .help(
            "games in export form, or a row for each ply: comma-separated values, or a JSON object a line",
        )
        .value_parser(["pgn", "positions", "positions-jsonl"].as_slice());
    let columns = option(
        alloc,
        "columns",
        "the columns of the rows in this order, as ply,san,key",
    );
    let command = Command::new(alloc, "chess_games")
        .about(ABOUT)
        .version(VERSION)
        .after_help(AFTER)
        .arg(part)?
        .arg(cut)?
        .arg(totals)?
        .arg(salvage)?
        .arg(letters)?
        .arg(format)?
        .arg(columns)?
        .arg(progress_flag(alloc))?;
    let matches = command.try_get_matches_from(words)?;
    if let Some(text) = matches.get_str("cut") {
        return Ok(positive(text).map(Words::Cut).ok_or(NO_BYTES));
    }
    let part = match matches.get_str("part") {
        Some(text) => Part::parse(text),
        None => Some(Part::whole()),
    };
    let Some(part) = part else {
        return Ok(Err(NO_PART));
    };
    let form = match form_of(matches.get_str("format"), matches.get_str("columns")) {
        Ok(form) => form,
        Err(wrong) => return Ok(Err(wrong)),
    };
    let totals = matches.get_flag("totals");
    let is_saving = matches.get_flag("salvage");
    let letters = match letters_of(matches.get_str("letters"), is_saving) {
        Ok(letters) => letters,
        Err(wrong) => return Ok(Err(wrong)),
    };
    let progress = matches.get_flag("progress");
    Ok(Ok(Words::Filter {
        wanted: Wanted {
            form,
            part,
            totals,
            letters,
        },
        is_saving,
        progress,
    }))
}

/// What the words ask for. `--help` and `--version` are refused, too, with their text.
pub fn parse_words<S: AsStr>(alloc: Global, words: &[S]) -> Result<Words, Refused> {
    match matched(alloc, words) {
        Ok(Ok(words)) => Ok(words),
        Ok(Err(wrong)) => Err(Refused::Words(format!(in alloc; "{wrong}")?)),
        Err(error) => Err(why_refused(alloc, error)),
    }
}
