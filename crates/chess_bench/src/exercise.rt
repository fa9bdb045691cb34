//! Men put on a board and taken off at random, with the attack counts and the evaluation that follow them.

ghost use Rattle.std.specs.Prelude.{◌≡◌, ◌<◌, None, Some};
ghost use Rattle.std.specs.FinMap as map;
ghost use Rattle.chess_types.specs.board.Men.{men_of};
ghost use Rattle.chess_attack.specs.KeptCounts.{AreCounts};
ghost use Rattle.chess_eval.specs.Evaluation.{AreSumsOf};

use chess_attack::{Counts, Follower};
use chess_eval::Sum;
use chess_types::{Man, Placement, Square};
use rand_core::utils::NextWord;
use rand_pcg::Pcg32;

/// Ticks that were counted.
#[derive(Clone, Copy, Debug, Default, PartialEq, Eq)]
pub struct Ticks {
    /// How many puts and clears were made.
    pub changes: u64,
    /// The ticks of all of them.
    pub sum: u64,
    /// The ticks of the one that took most.
    pub most: u32,
}

impl Ticks {
    /// Counts one put or clear, if one was made.
    pub fn add(&mut self, ticks: Option<u32>) {
        if let Some(ticks) = ticks {
            self.changes = self.changes.saturating_add(1);
            self.sum = self.sum.saturating_add(u64::from(ticks));
            self.most = self.most.max(ticks);
        }
    }
}

/// A board whose men are moved about at random, one in the hand at a time, with the counts and the evaluation that follow it.
#[derive(Drop)]
pub struct Exercise {
    placement: Placement,
    counts: Counts,
    sum: Sum,
    hand: Option<Man>,
    random: Pcg32,
    ghost counts_agree: { AreCounts counts placement },
    ghost sum_agrees: { AreSumsOf sum placement },
}

impl Exercise {
    /// The board of a placement, with a seed of its own.
    pub fn new(placement: Placement, seed: u64) -> Exercise {
        let counts = Counts::of(&placement);
        let sum = Sum::of(&placement);
        Exercise {
            placement,
            counts,
            sum,
            hand: None,
            random: Pcg32::new(seed, 54),
        }
    }

    // Takes the man into the hand.
    fn take(&mut self, from: Square, man: Man)
        requires { map.get self.old.placement from ≡ Some man }
    {
        self.counts.clear(&self.placement, from);
        self.sum.clear(&self.placement, from);
        self.placement.clear(from);
        self.hand = Some(man);
    }

    // Puts the man from the hand.
    fn lay(&mut self, to: Square, man: Man)
        requires empty { map.get self.old.placement to ≡ None }
        requires room { men_of self.old.placement man.colour < 16 }
    {
        self.counts.put(&self.placement, to, man);
        self.sum.put(&self.placement, to, man);
        self.placement.put(to, man);
        self.hand = None;
    }

    /// Takes a man from a square chosen at random, or puts the one in the hand there, and answers with the ticks; `None`
    /// where the square serves for neither.
    pub fn change(&mut self) -> Option<u32> {
        let square = Square::from_index((self.random.next_word() % 64) as u8);
        self.counts.begin();
        match self.placement.get(square) {
            Some(man) => {
                if self.hand.is_some() {
                    return None;
                }
                self.take(square, man);
            }
            None => {
                let man = self.hand?;
                if self.placement.men(man.colour) == 16 {
                    return None;
                }
                self.lay(square, man);
            }
        }
        Some(self.counts.ticks())
    }

    /// The evaluation of the board as it is.
    pub fn white(&self) -> i32 {
        self.sum.white()
    }
}
