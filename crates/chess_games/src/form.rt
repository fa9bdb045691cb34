//! How good games are written.

ghost use Rattle.std.specs.Prelude.{◌≡◌, ◌<◌, IfOk};
ghost use Rattle.chess_pgn.specs.steps.GameCode.{game_of};
ghost use Rattle.chess_games.specs.Forms.{head_in, text_in};

use chess_pgn::{Game, Texts, write_game_with};
use chess_positions::{Layout, header, rows};
use std::alloc::{AllocError, Allocator};

/// How a good game is written.
#[derive(Drop)]
pub enum Form {
    /// In export form (PGN 3.2).
    Games,
    /// As a row for each ply of its main line.
    Rows(Layout),
}

impl Form {
    /// What comes before all games.
    pub fn head<'a, A: Allocator>(&self, alloc: &'a A) -> Result<Vec<u8, &'a A>, AllocError>
        ensures { IfOk result (λ text. text.items ≡ head_in self.now) }
    {
        match self {
            Form::Games => Ok(Vec::new(alloc)),
            Form::Rows(layout) => header(alloc, layout),
        }
    }

    /// What is written of the game after `before` others.
    pub fn text<'a, A: Allocator>(
        &self,
        alloc: &'a A,
        before: u64,
        game: &Game<'a, A>,
        texts: &Texts<'a, A>,
    ) -> Result<Vec<u8, &'a A>, AllocError>
        requires few { before < 144115188075855872 }
        ensures { IfOk result (λ text. text.items ≡ text_in self.now before (game_of game.now)) }
    {
        match self {
            Form::Games => match write_game_with(alloc, game, texts) {
                Ok(text) => Ok(text),
                Err(_) => Err(AllocError),
            },
            Form::Rows(layout) => rows(alloc, layout, before + 1, game),
        }
    }
}
