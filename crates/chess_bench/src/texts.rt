//! Legal moves written in standard algebraic notation and read back, to be timed.

ghost use Rattle.std.specs.Prelude.{◌≡◌, ◌<◌, IsTrue};
ghost use Rattle.chess_types.specs.board.Legal.{is_legal as is_legal_in};

use chess_moves::{is_legal, moves};
use chess_play::Live;
use chess_types::Move;

/// Moves that were written and read back.
#[derive(Clone, Copy, Debug, Default, PartialEq, Eq)]
pub struct Texts {
    /// How many there were.
    pub moves: u64,
    /// The bytes of their texts.
    pub bytes: u64,
}

impl Texts {
    /// Writes the legal move, and reads what was written.
    fn exchange(&mut self, live: &mut Live, m: Move)
        requires legal { IsTrue (is_legal_in live.old.position m) }
        requires clock { live.old.position.clock < 1000000 }
        requires number { live.old.position.number < 1000000 }
        ensures position { live.new.position ≡ live.old.position }
    {
        let text = chess_san::write(live, m);
        if chess_san::read(live, text.as_bytes()) == Ok(m) {
            self.moves = self.moves.saturating_add(1);
            self.bytes = self.bytes.saturating_add(text.len() as u64);
        }
    }

    /// The same with a move that may be legal.
    fn try_exchange(&mut self, live: &mut Live, m: Move)
        requires clock { live.old.position.clock < 1000000 }
        requires number { live.old.position.number < 1000000 }
        ensures position { live.new.position ≡ live.old.position }
    {
        if is_legal(live, m) {
            self.exchange(live, m);
        }
    }

    /// The same with each legal move of the position.
    fn exchange_all(&mut self, live: &mut Live)
        requires clock { live.old.position.clock < 1000000 }
        requires number { live.old.position.number < 1000000 }
        ensures position { live.new.position ≡ live.old.position }
    {
        let list = moves(live);
        for m in list.as_slice() {
            self.try_exchange(live, *m);
        }
    }

    /// All of them, `rounds` times.
    pub fn exchange_rounds(&mut self, live: &mut Live, rounds: u32)
        requires clock { live.old.position.clock < 1000000 }
        requires number { live.old.position.number < 1000000 }
    {
        for _round in 0..rounds {
            self.exchange_all(live);
        }
    }
}
