//! Lines known by their numbers: what is read, and what it asks for.
ghost use Rattle.std.specs.Prelude.{◌≡◌};
ghost use Rattle.chess_uci_tests.specs.Named.{is_named};

/// What a line asks for.
#[derive(Clone, Copy)]
pub(crate) enum Said {
    Nothing,
    Uci,
    Ready,
    NewGame,
    Place(u64),
    Misplace,
    Go(u64),
    Claims(bool),
    NoOption,
    Stop,
    Quit,
}

/// What a `go` line asks for.
#[derive(Clone, Copy)]
pub(crate) struct Going {
    pub(crate) last: u8,
    pub(crate) infinite: bool,
    pub(crate) budget: Option<u64>,
}

/// A `position` line; the last two are refused.
pub(crate) fn place_line(number: u64) -> &'static [u8] {
    match number {
        0 => b"position startpos",
        1 => b"position startpos moves e2e4 e7e5 g1f3",
        2 => b"position fen 7k/8/8/8/8/8/8/K7 w - - 140 90",
        3 => b"position fen 4k3/8/8/8/8/8/8/R3K3 w - - 97 60 moves a1a2 e8d8",
        4 => b"position fen 6k1/5ppp/8/8/8/8/8/R5K1 w - - 0 1",
        5 => b"position fen rnb1kbnr/pppp1ppp/8/4p3/6Pq/5P2/PPPPP2P/RNBQKBNR w KQkq - 1 3",
        6 => b"position startpos moves e2e5",
        _ => b"position fen 8/8/8/8/8/8/8/8 w - - 0 1",
    }
}

/// What it asks for.
pub(crate) fn place_said(number: u64) -> Said {
    match number {
        6 | 7 => Said::Misplace,
        _ => Said::Place(number),
    }
}

/// The number of the `position` line with a king each, and a draw in ten plies.
pub(crate) const BARE_KINGS: u64 = 2;

const START: &str = "rnbqkbnr/pppppppp/8/8/8/8/PPPPPPPP/RNBQKBNR w KQkq - 0 1";

/// What a `position` line that isn't refused names: the FEN in which its line begins, and the moves made from there.
pub(crate) fn placed_by(number: u64) -> (&'static str, &'static [&'static str]) {
    match number {
        0 => (START, &[]),
        1 => (START, &["e2e4", "e7e5", "g1f3"]),
        2 => ("7k/8/8/8/8/8/8/K7 w - - 140 90", &[]),
        3 => ("4k3/8/8/8/8/8/8/R3K3 w - - 97 60", &["a1a2", "e8d8"]),
        4 => ("6k1/5ppp/8/8/8/8/8/R5K1 w - - 0 1", &[]),
        _ => (
            "rnb1kbnr/pppp1ppp/8/4p3/6Pq/5P2/PPPPP2P/RNBQKBNR w KQkq - 1 3",
            &[],
        ),
    }
}

/// A `go` line.
pub(crate) fn go_line(number: u64) -> &'static [u8] {
    match number {
        0 => b"go depth 1",
        1 => b"go depth 2",
        2 => b"go",
        3 => b"go infinite",
        4 => b"go infinite depth 1 movetime 5",
        5 => b"go movetime 100",
        6 => b"go depth 2 wtime 60000 btime 60000 winc 1000 binc 1000",
        _ => b"go depth -5 searchmoves e2e4 a1b1 d2d4",
    }
}

/// What it asks for.
pub(crate) fn asked_by(number: u64) -> Going {
    let (last, infinite, budget) = match number {
        0 => (1, false, None),
        1 => (2, false, None),
        2 => (4, false, None),
        3 => (16, true, None),
        4 => (1, true, None),
        5 => (16, false, Some(100)),
        6 => (2, false, Some(3500)),
        _ => (1, false, None),
    };
    Going {
        last,
        infinite,
        budget,
    }
}

/// Whether it names moves, those of `is_named`.
pub(crate) fn names_moves(number: u64) -> bool {
    number == 7
}

/// Whether the `go` line that names moves names the one of that text.
pub(crate) fn is_named(text: &[u8]) -> bool
    ensures { result ≡ is_named text.now }
{
    text == b"e2e4".as_slice() || text == b"a1b1".as_slice() || text == b"d2d4".as_slice()
}

/// Any other line.
pub(crate) fn other_line(number: u64) -> (&'static [u8], Said) {
    match number {
        0 => (b"", Said::Nothing),
        1 => (b"UCI debug on", Said::Nothing),
        2 => (b"uci", Said::Uci),
        3 => (b" joho \t isready", Said::Ready),
        4 => (b"ucinewgame", Said::NewGame),
        5 => (b"setoption name Claims value true", Said::Claims(true)),
        6 => (b"setoption NAME claims VALUE False", Said::Claims(false)),
        7 => (b"setoption name Claims value true x", Said::NoOption),
        8 => (b"quit", Said::Quit),
        _ => (b"stop", Said::Stop),
    }
}
