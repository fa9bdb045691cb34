//! Calls of the library that are measured alone, each made many times.

ghost use Rattle.std.specs.Prelude.{◌≡◌, ◌<◌};

use chess_fen::{read as read_fen, write as write_fen};
use chess_moves::{count_legal, is_legal, moves};
use chess_play::Live;
use chess_types::{Move, Position};

/// A call that a user of the library makes, and that is measured alone.
#[derive(Clone, Copy, Debug, PartialEq, Eq)]
pub enum Call {
    /// None: what a run costs besides.
    Nothing,
    IsLegal,
    /// A move made and taken back.
    Make,
    WriteMove,
    ReadMove,
    Moves,
    CountLegal,
    WriteFen,
    ReadFen,
}

impl Call {
    /// The call of that name.
    pub fn named(word: &str) -> Option<Call> {
        match word {
            "nothing" => Some(Call::Nothing),
            "is_legal" => Some(Call::IsLegal),
            "make" => Some(Call::Make),
            "write_move" => Some(Call::WriteMove),
            "read_move" => Some(Call::ReadMove),
            "moves" => Some(Call::Moves),
            "count_legal" => Some(Call::CountLegal),
            "write_fen" => Some(Call::WriteFen),
            "read_fen" => Some(Call::ReadFen),
            _ => None,
        }
    }
}

/// Calls that were made.
#[derive(Clone, Copy, Debug, Default, PartialEq, Eq)]
pub struct Calls {
    /// How many there were.
    pub made: u64,
    /// A sum of what they returned, so that none is left out.
    pub sum: u64,
}

impl Calls {
    #[inline(always)]
    fn add(&mut self, returned: usize) {
        self.made = self.made.saturating_add(1);
        self.sum = self.sum.saturating_add(returned as u64);
    }

    // The call `rounds` times with that move, where the move is legal.
    #[tactic(auto, using(chess_types::proofs::MoveLemmas::legal_pseudo))]
    fn with_move(&mut self, live: &mut Live, call: Call, m: Move, rounds: u32)
        requires clock { live.old.position.clock < 1000000 }
        requires number { live.old.position.number < 1000000 }
        ensures position { live.new.position ≡ live.old.position }
    {
        if !is_legal(live, m) {
            return;
        }
        match call {
            Call::IsLegal => {
                for _round in 0..rounds {
                    let legal = is_legal(live, m);
                    self.add(usize::from(legal));
                }
            }
            Call::Make => {
                for _round in 0..rounds {
                    let made = live.make(m);
                    self.add(1);
                    live.undo(made);
                }
            }
            Call::WriteMove => {
                for _round in 0..rounds {
                    let text = chess_san::write(live, m);
                    self.add(text.len());
                }
            }
            Call::ReadMove => {
                let text = chess_san::write(live, m);
                for _round in 0..rounds {
                    let found = chess_san::read(live, text.as_bytes()).is_ok();
                    self.add(usize::from(found));
                }
            }
            _ => {}
        }
    }

    /// The call `rounds` times with each legal move of the position.
    pub fn with_moves(&mut self, live: &mut Live, call: Call, rounds: u32)
        requires clock { live.old.position.clock < 1000000 }
        requires number { live.old.position.number < 1000000 }
        ensures position { live.new.position ≡ live.old.position }
    {
        let list = moves(live);
        for m in list.as_slice() {
            self.with_move(live, call, *m, rounds);
        }
    }

    fn list(&mut self, live: &mut Live, rounds: u32)
        requires clock { live.old.position.clock < 1000000 }
        requires number { live.old.position.number < 1000000 }
    {
        for _round in 0..rounds {
            let list = moves(live);
            self.add(list.len());
        }
    }

    fn count(&mut self, live: &mut Live, rounds: u32)
        requires clock { live.old.position.clock < 1000000 }
        requires number { live.old.position.number < 1000000 }
    {
        for _round in 0..rounds {
            let count = count_legal(live);
            self.add(count);
        }
    }

    /// The call `rounds` times, where it is one that lists or counts the moves of the position.
    pub fn with_position(&mut self, live: &mut Live, call: Call, rounds: u32)
        requires clock { live.old.position.clock < 1000000 }
        requires number { live.old.position.number < 1000000 }
    {
        match call {
            Call::Moves => self.list(live, rounds),
            Call::CountLegal => self.count(live, rounds),
            _ => {}
        }
    }

    fn write_fen(&mut self, position: &Position, rounds: u32) {
        for _round in 0..rounds {
            let text = write_fen(position);
            self.add(text.len());
        }
    }

    fn read_fen(&mut self, fen: &str, rounds: u32) {
        for _round in 0..rounds {
            let found = read_fen(fen.as_bytes()).is_ok();
            self.add(usize::from(found));
        }
    }

    /// The call `rounds` times, where it is one that reads or writes a FEN.
    pub fn with_fen(&mut self, position: &Position, fen: &str, call: Call, rounds: u32) {
        match call {
            Call::WriteFen => self.write_fen(position, rounds),
            Call::ReadFen => self.read_fen(fen, rounds),
            _ => {}
        }
    }
}
