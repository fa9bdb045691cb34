//! The men of the side to move, by their squares and kinds.

ghost use Rattle.std.specs.Prelude.{◌≡◌, ◌≤◌, true};
ghost use Rattle.chess_types.specs.steps.KeptSets.{Gathers};
ghost use Rattle.chess_types.specs.board.Men.{is_man, is_of, men_of};
ghost use Rattle.chess_types.specs.board.Position.{man_on, cell_of};

use chess_attack::Follower;
use chess_play::LiveWith;
use chess_types::{Kind, Square, SquareSet};

/// The squares of the men of the side to move, at most 16.
#[inline(always)]
pub(crate) fn own_men<F: Follower>(live: &LiveWith<F>) -> SquareSet
    ensures own { Gathers result (is_of live.now.position.side) (man_on live.now.position) }
    ensures few { men_of live.now.position.placement live.now.position.side ≤ 16 }
{
    let setup = live.position();
    setup.placement.of(setup.side)
}

/// The squares of the men of that kind of the side to move.
#[inline(always)]
pub(crate) fn own_pieces<F: Follower>(live: &LiveWith<F>, kind: Kind) -> SquareSet
    ensures { Gathers result (λ there. is_man there live.now.position.side kind) (man_on live.now.position) }
{
    let setup = live.position();
    setup.placement.of_kind(setup.side, kind)
}

/// The kind of the man of the side to move that stands on the square.
#[inline(always)]
pub(crate) fn own_kind<F: Follower>(live: &LiveWith<F>, at: Square) -> Kind
    requires own { is_of live.now.position.side (man_on live.now.position at) ≡ true }
    ensures { man_on live.now.position at ≡ cell_of live.now.position.side result }
{
    match live.position().placement.get(at) {
        Some(man) => man.kind,
        None => unreachable!(),
    }
}
