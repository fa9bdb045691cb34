//! What of a position is compared for repetition (FIDE Laws 9.2.3).

ghost use Rattle.std.specs.Prelude.{◌≡◌};
ghost use Rattle.chess_types.specs.board.Repetition.{counting_target, same_rights, same_target};
ghost use Rattle.chess_draws.specs.steps.RepetitionKeys.{IsKeyOf, same_moves};

use crate::men::MenSets;
use crate::ply::Ply;
use chess_attack::Follower;
use chess_play::LiveWith;
use chess_types::{Colour, Rights, Square};

/// What makes two positions the same (FIDE Laws 9.2.3): the men, the side to move, the castling rights, and the en passant
/// target where it counts.
#[derive(Clone, Copy)]
pub(crate) struct RepetitionKey {
    pub(crate) men: MenSets,
    pub(crate) side: Colour,
    pub(crate) rights: Rights,
    pub(crate) target: Option<Square>,
}

// Whether the same rights are held.
#[inline(always)]
fn same_rights(some: Rights, others: Rights) -> bool
    ensures { result ≡ same_rights some others }
{
    some == others
}

// Whether there is no target, or one square.
#[inline(always)]
fn same_target(some: Option<Square>, other: Option<Square>) -> bool
    ensures { result ≡ same_target some other }
{
    some == other
}

impl RepetitionKey {
    /// That of the position, whose target counts or doesn't.
    #[inline(always)]
    pub(crate) fn of<F: Follower>(live: &LiveWith<F>, target: Option<Square>) -> RepetitionKey
        requires { target ≡ counting_target live.now.position }
        ensures { IsKeyOf result live.now.position }
    {
        let setup = live.position();
        RepetitionKey {
            men: MenSets::of(&setup.placement),
            side: setup.side,
            rights: setup.rights,
            target,
        }
    }

    /// Whether the castling rights are the same before the ply, and the en passant target, where it counted.
    #[inline(always)]
    #[tactic(auto, unfolding(crate::specs::steps::RepetitionKeys::same_moves))]
    pub(crate) fn agrees(&self, ply: &Ply) -> bool
        ensures { result ≡ same_moves self.now ply.now }
    {
        same_rights(self.rights, ply.rights()) && same_target(self.target, ply.target())
    }
}
