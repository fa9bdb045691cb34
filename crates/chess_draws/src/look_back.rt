//! How often the last position has come up, found by a look back over the line's plies (FIDE Laws 9.2.2).

ghost use Rattle.std.specs.Prelude.{◌≡◌, ℕ, ◌+◌, ◌-◌, ◌*◌, ◌++◌, ◌<◌, ◌≤◌, ◌/◌, get_or, length, map, min};
ghost use Rattle.chess_types.specs.board.Position.{PositionParts};
ghost use Rattle.chess_types.specs.board.Lines.{play};
ghost use Rattle.chess_types.specs.board.Repetition.{is_same};
ghost use Rattle.chess_draws.specs.steps.KeptPlies.{PlyParts};
ghost use Rattle.chess_draws.specs.declared.repetition_key.RepetitionKey.{RepetitionKey};
ghost use Rattle.chess_draws.specs.steps.RepetitionKeys.{same_moves};
ghost use Rattle.chess_draws.specs.steps.Plies.{move_of};
ghost use Rattle.chess_draws.specs.steps.LookBack.{AreMenAt, IsBehind, IsTrack, came_back, position_at};
ghost use Rattle.chess_draws.specs.Pushes.{most_plies};

use crate::men::{MenSets, occupied_before};
use crate::ply::Ply;
use crate::repetition_key::RepetitionKey;
use chess_types::{Move, SquareSet};

/// How far a look back has come.
#[derive(Drop)]
pub(crate) struct Behind {
    /// The squares that were occupied in the position to which it has come.
    pub(crate) occupied: SquareSet,
    /// The men in the position before the ply at `known`, to which it had come when the occupied squares were last the same as in the
    /// last position. At first it is the last position.
    pub(crate) men: MenSets,
    pub(crate) known: usize,
}

// The move of the ply at that place. Those that are only looked at are after the others.
#[inline(always)]
fn move_at(plies: &[Ply], looked: &[Ply], at: usize) -> Move
    requires { at < length plies.now + length looked.now }
    ensures { (other : PlyParts) → result ≡ move_of (get_or (plies.now ++ looked.now) at other) }
{
    if at < plies.len() {
        plies[at].played()
    } else {
        looked[at - plies.len()].played()
    }
}

// Whether the same moves were possible before the ply at that place.
#[inline(always)]
fn agrees_at(plies: &[Ply], looked: &[Ply], at: usize, here: &RepetitionKey) -> bool
    requires { at < length plies.now + length looked.now }
    ensures { (other : PlyParts) → result ≡ same_moves here.now (get_or (plies.now ++ looked.now) at other) }
{
    if at < plies.len() {
        here.agrees(&plies[at])
    } else {
        here.agrees(&looked[at - plies.len()])
    }
}

// The men before the ply at that place, by those before the ply at `known`.
fn men_before(plies: &[Ply], looked: &[Ply], men: MenSets, known: usize, at: usize) -> MenSets
    requires order { at ≤ known }
    requires within { known ≤ length plies.now + length looked.now }
    ensures { (start : PositionParts) (here : RepetitionKey) → IsTrack start (plies.now ++ looked.now) here at → AreMenAt start (plies.now ++ looked.now) here men known → AreMenAt start (plies.now ++ looked.now) here result at }
{
    let mut earlier = men;
    for back in 0..known - at {
        earlier = earlier.before(move_at(plies, looked, known - (back + 1)));
    }
    earlier
}

// Goes two plies further back, to the position before the ply at that place: whether it is the same as the last one.
#[inline(always)]
fn comes_up(
    behind: &mut Behind,
    plies: &[Ply],
    looked: &[Ply],
    here: &RepetitionKey,
    at: usize,
) -> bool
    requires order { at + 2 ≤ behind.old.known }
    requires within { behind.old.known ≤ length plies.now + length looked.now }
    ensures low { at ≤ behind.new.known }
    ensures high { behind.new.known ≤ behind.old.known }
    ensures behind { (start : PositionParts) → IsTrack start (plies.now ++ looked.now) here.now at → IsBehind start (plies.now ++ looked.now) here.now behind.old (at + 2) → IsBehind start (plies.now ++ looked.now) here.now behind.new at }
    ensures same { (start : PositionParts) → IsTrack start (plies.now ++ looked.now) here.now at → IsBehind start (plies.now ++ looked.now) here.now behind.old (at + 2) → result ≡ is_same (play start (map move_of (plies.now ++ looked.now))) (position_at start (map move_of (plies.now ++ looked.now)) at) }
{
    let next = occupied_before(behind.occupied, move_at(plies, looked, at + 1));
    behind.occupied = occupied_before(next, move_at(plies, looked, at));
    let alike = behind.occupied == here.men.occupied();
    if !alike || !agrees_at(plies, looked, at, here) {
        return false;
    }
    behind.men = men_before(plies, looked, behind.men, behind.known, at);
    behind.known = at;
    here.men.is_same(&behind.men)
}

/// How many of the positions before the plies are the same as the one after the last of them, and how many were compared: those with
/// the same side to move, as far back as the halfmove clock says, since each pawn move and each capture leaves other men than any
/// position before.
pub(crate) fn look_back(
    plies: &[Ply],
    looked: &[Ply],
    here: &RepetitionKey,
    clock: u32,
) -> (u32, u32)
    requires few { length plies.now ≤ most_plies }
    requires ahead { length looked.now ≤ 16 }
    ensures compared { result.1 ≡ min (length plies.now + length looked.now) clock / 2 }
    ensures count { (start : PositionParts) → IsTrack start (plies.now ++ looked.now) here.now (length (plies.now ++ looked.now) - clock) → result.0 ≡ came_back start (map move_of (plies.now ++ looked.now)) result.1 }
    ensures within { 2 * result.1 ≤ length (plies.now ++ looked.now) }
    ensures reaches { (n : ℕ) → n ≤ clock → n ≤ length (plies.now ++ looked.now) → n ≤ 2 * result.1 + 1 }
    ensures at_least { result.0 ≤ result.1 }
    ensures at_most { result.1 ≤ clock }
{
    let total = plies.len() + looked.len();
    let most = total.min(clock as usize) / 2;
    let mut behind = Behind {
        occupied: here.men.occupied(),
        men: here.men,
        known: total,
    };
    let mut count = 0;
    for back in 0..most {
        if comes_up(&mut behind, plies, looked, here, total - 2 * (back + 1)) {
            count += 1;
        }
    }
    (count, most as u32)
}
