//! The lines that a session replies.

ghost use Rattle.std.specs.Prelude.{◌≡◌, ◌≤◌, length};
ghost use Rattle.chess_uci.specs.Replies.{reply_text};

use arrayvec::ArrayString;
use chess_search::score_text;
use chess_types::Move;
use itoa::Buffer;

/// A line that a session replies.
#[derive(Clone, Copy, Debug, PartialEq, Eq)]
pub enum Reply {
    /// The engine's name.
    Name,
    /// Its author.
    Author,
    /// The option Claims.
    ClaimsOption,
    /// All options were listed.
    UciOk,
    /// The session is ready.
    ReadyOk,
    /// A `position` line names no line of legal moves.
    Refused,
    /// There is no memory for the line of a `position` line.
    OutOfMemory,
    /// A search runs, which the line would disturb.
    Busy,
    /// A depth is complete: its best move, and what it is worth to the side to move.
    Info { depth: u8, best: Move, value: i32 },
    /// A search has ended with this move; `None` where there is no legal move.
    BestMove(Option<Move>),
}

impl Default for Reply {
    /// `Busy`, which fills the free places of a list of fixed capacity.
    fn default() -> Reply {
        Reply::Busy
    }
}

// A completed depth.
#[tactic(auto, unfolding(crate::specs::Replies::reply_text))]
fn info_text(depth: u8, best: Move, value: i32) -> ArrayString<64>
    ensures { result.bytes ≡ reply_text (Reply.Info depth best value) }
{
    let mut text = ArrayString::new();
    text.push_str("info depth ");
    text.push_str(Buffer::new().format(depth));
    text.push_str(" score ");
    text.push_str(&score_text(value));
    text.push_str(" pv ");
    text.push_str(&best.text());
    text
}

// The move at the end of a search.
#[tactic(auto, unfolding(crate::specs::Replies::reply_text))]
fn best_move_text(best: Option<Move>) -> ArrayString<64>
    ensures { result.bytes ≡ reply_text (Reply.BestMove best) }
{
    let mut text = ArrayString::new();
    text.push_str("bestmove ");
    match best {
        Some(m) => text.push_str(&m.text()),
        None => text.push_str("0000"),
    }
    text
}

// The text of the bytes.
fn fixed(words: &str) -> ArrayString<64>
    requires { length words.now ≤ 64 }
    ensures { result.bytes ≡ words.now }
{
    let mut text = ArrayString::new();
    text.push_str(words);
    text
}

impl Reply {
    /// The line, without a line feed.
    #[tactic(auto, unfolding(crate::specs::Replies::reply_text))]
    pub fn write(&self) -> ArrayString<64>
        ensures { result.bytes ≡ reply_text self.now }
    {
        match *self {
            Reply::Name => fixed("id name chess_uci 1"),
            Reply::Author => fixed("id author chess_uci project"),
            Reply::ClaimsOption => fixed("option name Claims type check default false"),
            Reply::UciOk => fixed("uciok"),
            Reply::ReadyOk => fixed("readyok"),
            Reply::Refused => fixed("info string position refused"),
            Reply::OutOfMemory => fixed("info string out of memory"),
            Reply::Busy => fixed("info string busy"),
            Reply::Info { depth, best, value } => info_text(depth, best, value),
            Reply::BestMove(best) => best_move_text(best),
        }
    }
}
