//! Random games, with or without variations and comments.

use arrayvec::ArrayVec;
use chess_key::KeyTable;
use chess_pgn::Outcome;
use chess_tree::{Analysis, Tree};
use chess_types::{Colour, Position, Status};
use rand_core::utils::NextWord;
use rand_pcg::Pcg32;
use std::alloc::Allocator;

/// What a game has beside its own line.
#[derive(Clone, Copy)]
pub enum Kind {
    Plain,
    /// Variations, three within one another.
    Varied,
    Commented,
}

/// The plies of a game's own line.
const PLIES: u32 = 80;

/// How many plies there are from one variation or comment to the next.
const STEP: u32 = 8;

const WORDS: [&str; 8] = [
    "the", "knight", "holds", "c5", "until", "White", "plays", "h2-h4",
];

/// Writes random games.
#[derive(Drop)]
pub struct Scribe<'a, A: Allocator> {
    analysis: Analysis<'a, 'a, A>,
    random: Pcg32,
}

impl<'a, A: Allocator> Scribe<'a, A> {
    /// At the start of a game; `None` where there is no memory.
    #[tactic(auto, unfolding(chess_types::specs::board::Position::start))]
    pub fn new(alloc: &'a A, table: &'a KeyTable, random: Pcg32) -> Option<Scribe<'a, A>> {
        let analysis = Analysis::new(alloc, Position::start(), table).ok()?;
        Some(Scribe { analysis, random })
    }

    // A number below the limit, or 0.
    fn below(&mut self, limit: usize) -> usize {
        let word = self.random.next_word() as usize;
        word.checked_rem(limit).unwrap_or(0)
    }

    // Adds `plies` random moves, while there are any.
    fn wander(&mut self, plies: u32) {
        for _ in 0..plies {
            let moves = self.analysis.moves();
            let index = self.below(moves.len());
            let Some(m) = moves.get(index) else {
                return;
            };
            if self.analysis.add(*m).is_err() {
                return;
            }
        }
    }

    // Adds a variation to the last move, and so on within it, and comes back after that move.
    fn vary(&mut self, deep: u32) {
        let depth = self.analysis.tree().depth();
        if deep == 0 || depth == 0 {
            return;
        }
        self.analysis.back_to(depth - 1);
        self.wander(6);
        self.vary(deep - 1);
        self.analysis.back_to(depth - 1);
        let _stepped = self.analysis.step(0);
    }

    // A comment at the last move.
    fn comment(&mut self) {
        let mut text: ArrayVec<u8, 256> = ArrayVec::new();
        for _ in 0..40 {
            let word = WORDS[self.below(8) % 8];
            if text.try_extend_from_slice(word.as_bytes()).is_err()
                || text.try_push(b' ').is_err()
            {
                break;
            }
        }
        let _set = self.analysis.set_comment(text.as_slice());
    }

    /// Writes a game of that kind after what is written.
    pub fn write(&mut self, kind: Kind) {
        for _ in 0..PLIES / STEP {
            self.wander(STEP);
            match kind {
                Kind::Plain => {}
                Kind::Varied => self.vary(3),
                Kind::Commented => self.comment(),
            }
        }
    }

    /// How the game ended: by its last position, or where play may go on as it is said.
    pub fn outcome(&mut self, said: Outcome) -> Outcome {
        match self.analysis.status() {
            Status::Mate => match self.analysis.live().position().side {
                Colour::White => Outcome::BlackWins,
                Colour::Black => Outcome::WhiteWins,
            },
            Status::Play => said,
            _ => Outcome::Draw,
        }
    }

    /// The tree of the game.
    pub fn into_tree(self) -> Tree<'a, A> {
        let Scribe {
            analysis,
            random: _,
        } = self;
        analysis.into_tree()
    }
}
