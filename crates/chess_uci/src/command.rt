//! What a line of UCI asks for: the commands, and the option that may be set.

ghost use Rattle.std.specs.Prelude.{◌≡◌};
ghost use Rattle.byte_streams.specs.Words.{words};
ghost use Rattle.chess_uci.specs.Commands.{gaps, command_in, command_named as named_by, same_word, truth_in, claims_set};
ghost use Rattle.chess_uci.specs.steps.Commands.{command_of, named_of};

use crate::table::beside;
use byte_streams::split_word;

/// The bytes that part words.
pub(crate) const GAPS: &[u8] = b"\t\n\x0b\x0c\r ";

/// What a line asks for, with what comes after the command.
#[derive(Clone, Copy)]
pub(crate) enum Command<'a> {
    Idle,
    Uci,
    IsReady,
    NewGame,
    Position(&'a [u8]),
    Go(&'a [u8]),
    Stop,
    Quit,
    SetOption(&'a [u8]),
}

// The command that the word names.
#[tactic(auto, using(crate::proofs::TableLemmas::beside_map))]
fn named<'a>(word: &[u8], rest: &'a [u8]) -> Option<Command<'a>>
    ensures { named_of result ≡ named_by word.now (words gaps rest.now) }
{
    let table = [
        (b"uci".as_slice(), Command::Uci),
        (b"isready", Command::IsReady),
        (b"ucinewgame", Command::NewGame),
        (b"position", Command::Position(rest)),
        (b"go", Command::Go(rest)),
        (b"stop", Command::Stop),
        (b"quit", Command::Quit),
        (b"setoption", Command::SetOption(rest)),
        (b"debug", Command::Idle),
        (b"register", Command::Idle),
        (b"ponderhit", Command::Idle),
    ];
    beside(&table, word)
}

/// What the line asks for: its first word that is a command decides.
pub(crate) fn read_command(line: &[u8]) -> Command<'_>
    ensures { command_of result ≡ command_in line.now }
{
    let mut rest = line;
    while let Some((word, others)) = split_word(rest, GAPS) {
        if let Some(command) = named(word, others) {
            return command;
        }
        rest = others;
    }
    Command::Idle
}

fn same_word(word: &[u8], other: &[u8]) -> bool
    ensures { result ≡ same_word word.now other.now }
{
    word.eq_ignore_ascii_case(other)
}

fn truth_in(word: &[u8]) -> Option<bool>
    ensures { result ≡ truth_in word.now }
{
    if same_word(word, b"true") {
        Some(true)
    } else if same_word(word, b"false") {
        Some(false)
    } else {
        None
    }
}

/// What the words after `setoption` set the option Claims to, if they do.
pub(crate) fn claims_set(rest: &[u8]) -> Option<bool>
    ensures { result ≡ claims_set (words gaps rest.now) }
{
    let (a, rest) = split_word(rest, GAPS)?;
    let (b, rest) = split_word(rest, GAPS)?;
    let (c, rest) = split_word(rest, GAPS)?;
    let (d, rest) = split_word(rest, GAPS)?;
    if split_word(rest, GAPS).is_some() {
        return None;
    }
    if same_word(a, b"name") && same_word(b, b"claims") && same_word(c, b"value") {
        truth_in(d)
    } else {
        None
    }
}
