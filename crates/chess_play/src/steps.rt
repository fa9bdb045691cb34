//! A move's changes on the board, man by man, and the same taken back.

ghost use Rattle.std.specs.Prelude.{◌≡◌, ◌+◌, ◌<◌, None, IfSome, IsSome};
ghost use Rattle.std.specs.FinMap as map;
ghost use Rattle.chess_types.specs.board.Men.{men_of};
ghost use Rattle.chess_types.specs.board.After.{captured_at};
ghost use Rattle.chess_play.specs.steps.Followed.{Follows};
ghost use Rattle.chess_play.specs.steps.Boards.{CanCastle, CanMake, CanShift, CanTakeBack, back, carried_back, carried_on, moved, restored, rook_ticks, rook_way, rook_way_back, shifted, ticks_of};

use crate::after::{captured_at, castled, moved_man};
use chess_attack::Follower;
use chess_types::{Kind, Man, Move, Placement, Square};

/// A man, the square that he leaves and the one to which he goes.
#[derive(Clone, Copy)]
pub(crate) struct Way {
    man: Man,
    from: Square,
    to: Square,
}

impl Way {
    // The same man goes the other way.
    fn back(self) -> Way
        ensures { result ≡ back self }
    {
        Way {
            man: self.man,
            from: self.to,
            to: self.from,
        }
    }
}

/// Puts a man on an empty square, and the followers follow.
fn put<F: Follower>(placement: &mut Placement, kept: &mut F, at: Square, man: Man)
    requires empty { map.get placement.old at ≡ None }
    requires room { men_of placement.old man.colour < 16 }
    requires agrees { F.agrees kept.old placement.old }
    ensures placement { placement.new ≡ map.insert placement.old at man }
    ensures follows { Follows F F.agrees F.works kept.old kept.new placement.old placement.new 54 }
{
    kept.put(placement, at, man);
    placement.put(at, man);
}

/// Takes the man from an occupied square, and the followers follow.
fn clear<F: Follower>(placement: &mut Placement, kept: &mut F, at: Square)
    requires occupied { IsSome (map.get placement.old at) }
    requires agrees { F.agrees kept.old placement.old }
    ensures placement { placement.new ≡ map.remove placement.old at }
    ensures follows { Follows F F.agrees F.works kept.old kept.new placement.old placement.new 54 }
{
    kept.clear(placement, at);
    placement.clear(at);
}

/// Puts a man in the place of the one on an occupied square, and the followers follow.
fn replace<F: Follower>(placement: &mut Placement, kept: &mut F, at: Square, man: Man)
    requires occupied { IsSome (map.get placement.old at) }
    requires room { men_of (map.remove placement.old at) man.colour < 16 }
    requires agrees { F.agrees kept.old placement.old }
    ensures placement { placement.new ≡ map.insert placement.old at man }
    ensures follows { Follows F F.agrees F.works kept.old kept.new placement.old placement.new 54 }
{
    kept.replace(placement, at, man);
    placement.clear(at);
    placement.put(at, man);
}

/// Clears one square and puts the man on the other.
#[inline(always)]
fn shift<F: Follower>(placement: &mut Placement, kept: &mut F, way: Way)
    requires here { IsSome (map.get placement.old way.from) }
    requires free { map.get (map.remove placement.old way.from) way.to ≡ None }
    requires room { men_of (map.remove placement.old way.from) way.man.colour < 16 }
    requires agrees { F.agrees kept.old placement.old }
    ensures placement { placement.new ≡ moved way.from way.to way.man placement.old }
    ensures follows { Follows F F.agrees F.works kept.old kept.new placement.old placement.new 108 }
{
    clear(placement, kept, way.from);
    put(placement, kept, way.to, way.man);
}

/// The man goes, and the man on the captured square is gone. Where that is the square to which he goes, he takes the place of
/// the captured man.
fn capture<F: Follower>(placement: &mut Placement, kept: &mut F, at: Square, way: Way)
    requires occupied { IsSome (map.get placement.old at) }
    requires goes { CanShift (map.remove placement.old at) way.from way.to way.man }
    requires agrees { F.agrees kept.old placement.old }
    ensures placement { placement.new ≡ moved way.from way.to way.man (map.remove placement.old at) }
    ensures follows { Follows F F.agrees F.works kept.old kept.new placement.old placement.new 162 }
{
    if at == way.to {
        clear(placement, kept, way.from);
        replace(placement, kept, way.to, way.man);
    } else {
        clear(placement, kept, at);
        shift(placement, kept, way);
    }
}

/// The man goes, and answers the man that he captures, if he does.
fn go<F: Follower>(placement: &mut Placement, kept: &mut F, at: Square, way: Way) -> Option<Man>
    requires goes { CanShift (map.remove placement.old at) way.from way.to way.man }
    requires agrees { F.agrees kept.old placement.old }
    ensures taken { result ≡ map.get placement.old at }
    ensures placement { placement.new ≡ moved way.from way.to way.man (map.remove placement.old at) }
    ensures follows { Follows F F.agrees F.works kept.old kept.new placement.old placement.new (108 + ticks_of result) }
{
    let taken = placement.get(at);
    match taken {
        None => shift(placement, kept, way),
        Some(_) => capture(placement, kept, at, way),
    }
    taken
}

/// The man goes back, and the captured man stands again.
fn release<F: Follower>(placement: &mut Placement, kept: &mut F, at: Square, way: Way, other: Man)
    requires goes { CanShift placement.old way.from way.to way.man }
    requires free { map.get (moved way.from way.to way.man placement.old) at ≡ None }
    requires room { men_of (moved way.from way.to way.man placement.old) other.colour < 16 }
    requires agrees { F.agrees kept.old placement.old }
    ensures placement { placement.new ≡ map.insert (moved way.from way.to way.man placement.old) at other }
    ensures follows { Follows F F.agrees F.works kept.old kept.new placement.old placement.new 162 }
{
    if at == way.from {
        replace(placement, kept, way.from, other);
        put(placement, kept, way.to, way.man);
    } else {
        shift(placement, kept, way);
        put(placement, kept, at, other);
    }
}

/// The man goes back, and the man that he captured stands again, if he did.
fn go_back<F: Follower>(
    placement: &mut Placement,
    kept: &mut F,
    at: Square,
    way: Way,
    taken: Option<Man>,
)
    requires goes { CanShift placement.old way.from way.to way.man }
    requires free { map.get (moved way.from way.to way.man placement.old) at ≡ None }
    requires room { IfSome taken (λ other. men_of (moved way.from way.to way.man placement.old) other.colour < 16) }
    requires agrees { F.agrees kept.old placement.old }
    ensures placement { placement.new ≡ restored at taken (moved way.from way.to way.man placement.old) }
    ensures follows { Follows F F.agrees F.works kept.old kept.new placement.old placement.new (108 + ticks_of taken) }
{
    match taken {
        None => shift(placement, kept, way),
        Some(other) => release(placement, kept, at, way, other),
    }
}

/// Where the move is castling, the rook goes from its home to the square that the king crosses (FIDE Laws 3.8.2).
fn rook_way(man: Man, m: Move) -> Option<Way>
    ensures { result ≡ rook_way man m }
{
    let wing = castled(man, m)?;
    Some(Way {
        man: Man {
            colour: man.colour,
            kind: Kind::Rook,
        },
        from: wing.rook_home(man.colour),
        to: wing.crossed(man.colour),
    })
}

/// The way back of the rook that has castled.
fn rook_way_back(man: Man, m: Move) -> Option<Way>
    ensures { result ≡ rook_way_back man m }
{
    let rook = rook_way(man, m)?;
    Some(rook.back())
}

/// The rook goes, if one does.
#[tactic(auto)]
fn shift_rook<F: Follower>(placement: &mut Placement, kept: &mut F, rook: Option<Way>)
    requires rook { CanCastle rook placement.old }
    requires agrees { F.agrees kept.old placement.old }
    ensures placement { placement.new ≡ shifted rook placement.old }
    ensures follows { Follows F F.agrees F.works kept.old kept.new placement.old placement.new (rook_ticks rook) }
{
    if let Some(way) = rook {
        shift(placement, kept, way);
    }
}

/// Makes the man's move on the board, by at most four changes of one square, and answers the man that it captures. The target is
/// that before the move.
pub fn carry_on<F: Follower>(
    placement: &mut Placement,
    kept: &mut F,
    target: Option<Square>,
    man: Man,
    m: Move,
) -> Option<Man>
    requires can { CanMake target man m placement.old }
    requires agrees { F.agrees kept.old placement.old }
    ensures taken { result ≡ map.get placement.old (captured_at target man m) }
    ensures placement { placement.new ≡ carried_on target man m placement.old }
    ensures follows { Follows F F.agrees F.works kept.old kept.new placement.old placement.new 216 }
{
    let at = captured_at(target, man, m);
    let way = Way {
        man: moved_man(man, m.promo),
        from: m.from,
        to: m.to,
    };
    let taken = go(placement, kept, at, way);
    shift_rook(placement, kept, rook_way(man, m));
    taken
}

/// Takes the man's move back on the board, and puts the man that it captured on his square again. The target is that
/// before the move.
pub fn carry_back<F: Follower>(
    placement: &mut Placement,
    kept: &mut F,
    target: Option<Square>,
    man: Man,
    m: Move,
    taken: Option<Man>,
)
    requires can { CanTakeBack target man m taken placement.old }
    requires agrees { F.agrees kept.old placement.old }
    ensures placement { placement.new ≡ carried_back target man m taken placement.old }
    ensures follows { Follows F F.agrees F.works kept.old kept.new placement.old placement.new 216 }
{
    shift_rook(placement, kept, rook_way_back(man, m));
    let at = captured_at(target, man, m);
    let way = Way {
        man,
        from: m.to,
        to: m.from,
    };
    go_back(placement, kept, at, way, taken);
}
