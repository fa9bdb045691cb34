//! Who played, where and when, as tags say.

ghost use Rattle.std.specs.Prelude.{◌≡◌, IfOk};
ghost use Rattle.chess_pgn.specs.steps.GameCode.{tags_of};
ghost use Rattle.arbiter.specs.Rows.{IsRosterOf, roster_in};
ghost use Rattle.arbiter.specs.steps.Rosters.{read_roster};

use chess_collection::{Three, three_of};
use chess_pgn::Game;
use std::alloc::{AllocError, Allocator, Global};
use std::marker::Model;

/// The values of the tags of a game's players, their ratings, and its event.
#[derive(Clone, Copy)]
pub struct Roster<'v> {
    pub white: Option<&'v [u8]>,
    pub black: Option<&'v [u8]>,
    pub white_elo: Option<&'v [u8]>,
    pub black_elo: Option<&'v [u8]>,
    pub event: Option<&'v [u8]>,
    pub site: Option<&'v [u8]>,
    pub date: Option<&'v [u8]>,
    pub round: Option<&'v [u8]>,
    pub variant: Option<&'v [u8]>,
}

/// That of a game.
pub fn roster_in<'v, A: Allocator>(game: &'v Game<'_, A>) -> Roster<'v>
    ensures { read_roster result ≡ roster_in (tags_of game.now.tags) }
{
    Roster {
        white: game.tag(b"White"),
        black: game.tag(b"Black"),
        white_elo: game.tag(b"WhiteElo"),
        black_elo: game.tag(b"BlackElo"),
        event: game.tag(b"Event"),
        site: game.tag(b"Site"),
        date: game.tag(b"Date"),
        round: game.tag(b"Round"),
        variant: game.tag(b"Variant"),
    }
}

/// That of a text of which no game is read.
#[derive(Drop)]
pub struct LostRoster {
    players: Three,
    ratings: Three,
    event: Three,
}

impl Model for LostRoster {
    ghost use Rattle.arbiter.specs.Rows as rows;

    ghost Value = { rows.Roster };

    ghost view = { λ l. record { white = l.players.first; black = l.players.second; white_elo = l.ratings.first; black_elo = l.ratings.second; event = l.event.first; site = l.event.second; date = l.event.third; round = l.ratings.third; variant = l.players.third } };
}

impl LostRoster {
    ghost use Rattle.std.specs.Prelude.{◌≡◌};
    ghost use Rattle.arbiter.specs.steps.Rosters.{read_roster};

    /// What it says.
    pub fn roster(&self) -> Roster<'_>
        ensures { read_roster result ≡ self.now }
    {
        Roster {
            white: self.players.first(),
            black: self.players.second(),
            white_elo: self.ratings.first(),
            black_elo: self.ratings.second(),
            event: self.event.first(),
            site: self.event.second(),
            date: self.event.third(),
            round: self.ratings.third(),
            variant: self.players.third(),
        }
    }
}

/// What the tags of the head of a text say, as far as its items go.
///
/// # Errors
///
/// There is no memory.
pub fn roster_of(alloc: Global, text: &[u8]) -> Result<LostRoster, AllocError>
    ensures { IfOk result (λ roster. IsRosterOf text.now roster) }
{
    Ok(LostRoster {
        players: three_of(alloc, text, b"White", b"Black", b"Variant")?,
        ratings: three_of(alloc, text, b"WhiteElo", b"BlackElo", b"Round")?,
        event: three_of(alloc, text, b"Event", b"Site", b"Date")?,
    })
}
