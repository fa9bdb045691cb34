//! What a line of the board asks for: the commands, and how a line is read as one.

ghost use Rattle.std.specs.Prelude.{◌≡◌, Some, None, IfSome, IfNone, option_map};
ghost use Rattle.byte_streams.specs.Words.{words};
ghost use Rattle.chess_cli.specs.Requests.{word_gaps, request, without_return, alone, alone_named, with_rest, only_word as only_word_of, colour_in, nag_in, written_by};
ghost use Rattle.chess_cli.specs.steps.Commands.{later_alone, request_of};

use super::numbers::number_in;
use byte_streams::{split_word, trim};
use chess_types::Colour;

/// The bytes that part words.
const GAPS: &[u8] = b" \t";

/// What a line of the board asks for.
#[derive(Clone, Copy)]
pub enum Command<'a> {
    /// Nothing: the line has no words.
    Blank,
    New,
    /// The position of a FEN.
    Set(&'a [u8]),
    /// The attack counts of a colour.
    Counts(Colour),
    /// The evaluation.
    Eval,
    Fen,
    /// The legal moves.
    Moves,
    /// The squares of the men that check the side to move.
    Checks,
    /// The move of a text is made.
    Play(&'a [u8]),
    /// To the position before the last move.
    Back,
    /// To a child, by its place from 0.
    Step(u32),
    /// To the root.
    Start,
    /// Along the main continuations.
    End,
    /// To the node at the path that a word writes; a word that writes none is as wrong as a wrong number of them.
    Goto(&'a [u8]),
    /// The path to the cursor.
    Path,
    /// The node before its siblings.
    Promote,
    /// The node and all below it is taken out.
    Delete,
    /// A text for the node's comment.
    Comment(&'a [u8]),
    /// An annotation number more.
    Nag(u8),
    /// How often the position has come up.
    Count,
    /// The game's status.
    Status,
    /// The draws that may be claimed.
    Claims,
    /// Those that may be claimed with the move of a text.
    Claim(&'a [u8]),
    /// The best move, as deep as a word writes; a word that writes no depth is as wrong as a wrong number of them.
    Best(&'a [u8]),
    /// The whole game in export form.
    Pgn,
    /// Another first word.
    Unknown,
    /// Wrong words after a command.
    Malformed,
}

// The line without one carriage return at its end.
fn without_return(line: &[u8]) -> &[u8]
    ensures { result.now ≡ without_return line.now }
{
    match line {
        [prefix @ .., b'\r'] => prefix,
        _ => line,
    }
}

// The command, where nothing comes after it.
fn alone<'a>(command: Command<'a>, rest: &[u8]) -> Command<'a>
    ensures { request_of result ≡ alone (request_of command.entry) (words word_gaps rest.now) }
{
    match split_word(rest, GAPS) {
        None => command,
        Some(_) => Command::Malformed,
    }
}

// The colour that a word names.
fn colour_in(word: &[u8]) -> Option<Colour>
    ensures { result ≡ colour_in word.now }
{
    match word {
        b"w" => Some(Colour::White),
        b"b" => Some(Colour::Black),
        _ => None,
    }
}

// The annotation number that a word writes.
fn nag_in(word: &[u8]) -> Option<u8>
    ensures { result ≡ nag_in word.now }
{
    u8::try_from(number_in(word)?).ok()
}

// The word after the command, where there is one alone.
fn only_word(rest: &[u8]) -> Option<&[u8]>
    ensures some { IfSome result (λ word. only_word_of (words word_gaps rest.now) ≡ Some word.now) }
    ensures none { IfNone result (only_word_of (words word_gaps rest.now) ≡ None) }
{
    let (word, others) = split_word(rest, GAPS)?;
    match split_word(others, GAPS) {
        None => Some(word),
        Some(_) => None,
    }
}

// The command of one word, by that word: of those that come later.
fn later_alone<'a>(word: &[u8]) -> Option<Command<'a>>
    ensures { option_map request_of result ≡ later_alone word.now }
{
    if word == b"end".as_slice() {
        Some(Command::End)
    } else if word == b"path".as_slice() {
        Some(Command::Path)
    } else if word == b"promote".as_slice() {
        Some(Command::Promote)
    } else if word == b"delete".as_slice() {
        Some(Command::Delete)
    } else if word == b"count".as_slice() {
        Some(Command::Count)
    } else if word == b"status".as_slice() {
        Some(Command::Status)
    } else if word == b"claims".as_slice() {
        Some(Command::Claims)
    } else if word == b"pgn".as_slice() {
        Some(Command::Pgn)
    } else {
        None
    }
}

// The command of one word, by that word.
fn standing_alone<'a>(word: &[u8]) -> Option<Command<'a>>
    ensures { option_map request_of result ≡ alone_named word.now }
{
    if word == b"new".as_slice() {
        Some(Command::New)
    } else if word == b"eval".as_slice() {
        Some(Command::Eval)
    } else if word == b"fen".as_slice() {
        Some(Command::Fen)
    } else if word == b"moves".as_slice() {
        Some(Command::Moves)
    } else if word == b"checks".as_slice() {
        Some(Command::Checks)
    } else if word == b"back".as_slice() {
        Some(Command::Back)
    } else if word == b"start".as_slice() {
        Some(Command::Start)
    } else {
        later_alone(word)
    }
}

// Another command, by its word and what comes after it, where these are the right words.
fn with_rest<'a>(word: &[u8], rest: &'a [u8]) -> Option<Command<'a>>
    ensures { written_by request_of result ≡ with_rest word.now rest.now }
{
    Some(if word == b"set".as_slice() {
        Command::Set(trim(rest, GAPS))
    } else if word == b"counts".as_slice() {
        Command::Counts(colour_in(only_word(rest)?)?)
    } else if word == b"play".as_slice() {
        Command::Play(only_word(rest)?)
    } else if word == b"step".as_slice() {
        Command::Step(number_in(only_word(rest)?)?)
    } else if word == b"goto".as_slice() {
        Command::Goto(only_word(rest)?)
    } else if word == b"comment".as_slice() {
        Command::Comment(trim(rest, GAPS))
    } else if word == b"nag".as_slice() {
        Command::Nag(nag_in(only_word(rest)?)?)
    } else if word == b"claim".as_slice() {
        Command::Claim(only_word(rest)?)
    } else if word == b"best".as_slice() {
        Command::Best(only_word(rest)?)
    } else {
        Command::Unknown
    })
}

/// What the line asks for.
pub fn read_command(line: &[u8]) -> Command<'_>
    ensures { request_of result ≡ request line.now }
{
    let Some((word, rest)) = split_word(without_return(line), GAPS) else {
        return Command::Blank;
    };
    match standing_alone(word) {
        Some(command) => alone(command, rest),
        None => with_rest(word, rest).unwrap_or(Command::Malformed),
    }
}
