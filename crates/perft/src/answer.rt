//! A line that asks for leaves, and its answer.

ghost use Rattle.std.specs.Prelude.{◌≡◌, ◌≤◌, ◌-◌, length, decimal, IfSome};
ghost use Rattle.chess_fen.specs.Reading.{fen_reading};
ghost use Rattle.byte_streams.specs.Words.{after_first_word, words, trimmed};
ghost use Rattle.perft.specs.Answers.{answer, answer_to, count_text, written_depth, fault_line, separators, is_full};

use crate::leaves::{LastPly, leaves};
use arrayvec::ArrayString;
use byte_streams::{split_word, trim};
use chess_attack::Nothing;
use chess_play::LiveWith;
use itoa::Buffer;

/// The bytes that separate words.
const GAPS: &[u8] = b" \t\r";

/// The word that asks for each leaf to be made.
const FULL: &[u8] = b"full";

/// The text that answers a line, without its line feed; empty for a line that takes no answer.
pub type Answer = ArrayString<64>;

/// The depth that a word writes: a decimal number from 0 to 16 without needless zeros. So few plies are far from the end of
/// the stack.
#[tactic(auto, unfolding(crate::specs::Answers::written_depth))]
fn read_depth(word: &[u8]) -> Option<u32>
    ensures value { result ≡ written_depth word.now }
    ensures at_most { IfSome result (λ depth. depth ≤ 16) }
{
    (0..17u32).find(|depth| Buffer::new().format(*depth).as_bytes() == word)
}

/// The number as a text.
fn number(number: u64) -> Answer
    ensures { result.bytes ≡ decimal number }
{
    let mut text = Answer::new();
    text.push_str(Buffer::new().format(number));
    text
}

/// `fault N NAME`.
fn fault(number: u8, name: &str) -> Answer
    requires { length name.now ≤ 32 }
    ensures { result.bytes ≡ fault_line number name.now }
{
    let mut text = Answer::new();
    text.push_str("fault ");
    text.push_str(Buffer::new().format(number));
    text.push(' ');
    text.push_str(name);
    text
}

/// How many leaves the position of the FEN has at the depth, or the fault of the FEN. The moves of the last ply are counted, or
/// made; nothing is kept beside the position.
fn count(depth: u32, fen: &[u8], last: LastPly) -> Answer
    requires depth { depth ≤ 16 }
    ensures { result.bytes ≡ count_text depth (fen_reading fen.now) }
{
    match chess_fen::read(fen) {
        Ok(position) => number(leaves(&mut LiveWith::with(position, Nothing), depth, last)),
        Err(found) => fault(found.number(), found.name()),
    }
}

/// The answer to a line `DEPTH FEN`: the number of leaves, or the first fault, of the depth or of the FEN.
fn answer_depth(line: &[u8], last: LastPly) -> Answer
    ensures { result.bytes ≡ answer_to (words separators line.now) (trimmed separators (after_first_word separators line.now)) }
{
    let mut text = Answer::new();
    let Some((word, rest)) = split_word(line, GAPS) else {
        text.push_str("fault Depth");
        return text;
    };
    match read_depth(word) {
        Some(depth) => count(depth, trim(rest, GAPS), last),
        None => {
            text.push_str("fault Depth");
            text
        }
    }
}

/// Whether the word asks for each leaf to be made.
fn is_full(word: &[u8]) -> bool
    ensures { result ≡ is_full word.now }
{
    word == FULL
}

/// The answer to a line `DEPTH FEN`, or `full DEPTH FEN`, which has every leaf made. Empty for a line without words.
#[tactic(auto, unfolding(crate::specs::Answers::answer))]
pub fn answer(line: &[u8]) -> Answer
    ensures { result.bytes ≡ answer line.now }
{
    let Some((word, rest)) = split_word(line, GAPS) else {
        return Answer::new();
    };
    if is_full(word) {
        answer_depth(rest, LastPly::Made)
    } else {
        answer_depth(line, LastPly::Counted)
    }
}
