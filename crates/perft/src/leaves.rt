//! The leaves of a position at a depth, counted or made.

ghost use Rattle.std.specs.Prelude.{◌≡◌, ◌+◌, ◌-◌, ◌^◌, ◌≤◌, min};
ghost use Rattle.perft.specs.Leaves.{leaves_of};

use arrayvec::ArrayVec;
use chess_attack::Nothing;
use chess_moves::{count_legal, moves_into};
use chess_play::LiveWith;

/// How the moves of the last ply are gone over.
#[derive(Clone, Copy, Debug, PartialEq, Eq)]
pub enum LastPly {
    /// They are counted.
    Counted,
    /// Each is made and taken back.
    Made,
}

/// How many positions come one ply after this one: each legal move is made and taken back.
fn make_each(live: &mut LiveWith<Nothing>) -> u64
    requires clock { live.old.position.clock + 1 ≤ 1000000 }
    requires number { live.old.position.number + 1 ≤ 1000000 }
    ensures value { result ≡ min (leaves_of 1 live.old.position) (2 ^ 64 - 1) }
    ensures position { live.new.position ≡ live.old.position }
    ensures words { live.new.words ≡ live.old.words }
{
    let mut list = ArrayVec::new();
    moves_into(live, &mut list);
    let mut number = 0u64;
    for m in list.as_slice() {
        let made = live.make(*m);
        live.undo(made);
        number = number.saturating_add(1);
    }
    number
}

/// How many positions come one ply after this one, each legal move counted or made.
#[inline(always)]
fn last_ply(live: &mut LiveWith<Nothing>, last: LastPly) -> u64
    requires clock { live.old.position.clock + 1 ≤ 1000000 }
    requires number { live.old.position.number + 1 ≤ 1000000 }
    ensures value { result ≡ min (leaves_of 1 live.old.position) (2 ^ 64 - 1) }
    ensures position { live.new.position ≡ live.old.position }
    ensures words { live.new.words ≡ live.old.words }
{
    match last {
        LastPly::Counted => count_legal(live) as u64,
        LastPly::Made => make_each(live),
    }
}

/// How many positions come `depth` plies after this one, each line of legal moves counted by itself: 1 at depth 0. A count over
/// 2^64 - 1 is reported as that. The halfmove clock and the fullmove number plus the depth are at most 1,000,000, so that both have room
/// for each ply's move. Each ply lies on the stack with its list of moves. All is as before but for the ticks.
pub fn leaves(live: &mut LiveWith<Nothing>, depth: u32, last: LastPly) -> u64
    requires clock { live.old.position.clock + depth ≤ 1000000 }
    requires number { live.old.position.number + depth ≤ 1000000 }
    ensures value { result ≡ min (leaves_of depth live.old.position) (2 ^ 64 - 1) }
    ensures position { live.new.position ≡ live.old.position }
    ensures words { live.new.words ≡ live.old.words }
{
    if depth == 0 {
        return 1;
    }
    if depth == 1 {
        return last_ply(live, last);
    }
    let mut list = ArrayVec::new();
    moves_into(live, &mut list);
    let mut count = 0u64;
    for m in list.as_slice() {
        let made = live.make(*m);
        count = count.saturating_add(leaves(live, depth - 1, last));
        live.undo(made);
    }
    count
}
