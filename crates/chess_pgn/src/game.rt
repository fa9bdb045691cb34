//! A game: its tags, how it ended, and the tree of its moves.

ghost use Rattle.std.specs.Prelude.{◌≡◌, ◌≤◌, [], Option, IfOk, IfErr, option_map};
ghost use Rattle.chess_items.specs.declared.fault.FaultKind.TheVariants.{Memory};
ghost use Rattle.chess_items.specs.declared.outcome.Outcome.TheVariants.{Unfinished};
ghost use Rattle.chess_tree.specs.Forest.{Bare};
ghost use Rattle.chess_pgn.specs.Games.{tag_value, unknown};

use crate::tags::Tags;
use chess_items::{FaultKind, Outcome, PgnFault};
use chess_tree::Tree;
use chess_types::Position;
use std::alloc::Allocator;

/// A game: its tags, how it ended, and its moves (PGN 8).
#[derive(Drop)]
pub struct Game<'a, A: Allocator> {
    pub tags: Tags<'a, A>,
    pub result: Outcome,
    pub tree: Tree<'a, A>,
}

impl<'a, A: Allocator> Game<'a, A> {
    ghost use Rattle.chess_pgn.specs.steps.GameCode.{game_of, tags_of};

    /// A game without moves, of which nothing is known, from that position, whose counters are at most 99,999. `Memory` where
    /// there is none.
    pub fn new(alloc: &'a A, start: Position) -> Result<Game<'a, A>, PgnFault>
        requires clock { start.clock ≤ 99999 }
        requires number { start.number ≤ 99999 }
        ensures ok { IfOk result (λ game. game_of game ≡ record { tags = unknown; outcome = Unfinished; tree = record { start = start; comment = []; below = Bare } }) }
        ensures cursor { IfOk result (λ game. game.tree.path ≡ []) }
        ensures memory { IfErr result (λ fault. fault ≡ record { place = 0; kind = Memory }) }
    {
        let tags = Tags::unknown(alloc)?;
        let Ok(tree) = Tree::new(alloc, start) else {
            return Err(PgnFault {
                place: 0,
                kind: FaultKind::Memory,
            });
        };
        Ok(Game {
            tags,
            result: Outcome::Unfinished,
            tree,
        })
    }

    /// The value of the tag with that name, if there is one.
    pub fn tag(&self, name: &[u8]) -> Option<&[u8]>
        ensures { option_map (λ value. value.now) result ≡ tag_value name.now (tags_of self.now.tags) }
    {
        self.tags.get(name)
    }
}
