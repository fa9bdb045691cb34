//! Boards by their men, and what follows them.
ghost use Rattle.chess_attack.specs.KeptCounts.{AreCounts};
ghost use Rattle.chess_eval.specs.Evaluation.{AreSumsOf};
ghost use Rattle.chess_key.specs.Keys.{IsKeyOf};

use chess_attack::{Counts, Follower};
use chess_eval::Sum;
use chess_key::{Key, KeyTable};
use chess_types::{Colour, Kind, Man, Placement, Position, Square};
use std::process::Abort;

/// The kinds in order, from the pawn to the king.
pub(super) const KINDS: [Kind; 6] = [
    Kind::Pawn,
    Kind::Knight,
    Kind::Bishop,
    Kind::Rook,
    Kind::Queen,
    Kind::King,
];

/// The square of that name.
pub(super) fn square(rt: &impl Abort, name: &str) -> Square {
    Square::parse(name.as_bytes()).expect(rt, "a square's name")
}

/// Puts a man on an empty square.
pub(super) fn put(rt: &impl Abort, placement: &mut Placement, at: Square, man: Man) {
    assert!(rt; placement.get(at).is_none());
    assert!(rt; placement.men(man.colour) < 16);
    placement.put(at, man);
}

/// The board of men such as `Ke1`, a letter as FEN writes it and a square, separated by spaces.
pub(super) fn board(rt: &impl Abort, men: &str) -> Placement {
    let mut placement = Placement::empty();
    for name in men.as_bytes().split(|byte| *byte == b' ') {
        assert!(rt; name.len() == 3);
        let man = Man::of_letter(name[0]).expect(rt, "a man's letter");
        let at = Square::parse(&name[1..]).expect(rt, "a square's name");
        put(rt, &mut placement, at, man);
    }
    placement
}

/// The board as a game begins.
pub(super) fn start() -> Placement {
    Position::start().into_setup().placement
}

/// These men stand on these squares.
pub(super) fn assert_stand(rt: &impl Abort, placement: &Placement, men: &[(&str, Colour, Kind)]) {
    for (name, colour, kind) in men {
        let man = Man {
            colour: *colour,
            kind: *kind,
        };
        assert!(rt; placement.get(square(rt, name)) == Some(man), "{name}");
    }
}

/// A board, and what follows its changes: the attack counts, the evaluation and the key.
#[derive(Drop)]
pub(super) struct Followed<'k> {
    pub(super) placement: Placement,
    pub(super) counts: Counts,
    pub(super) sum: Sum,
    pub(super) key: Key<'k>,
    ghost counts_agree: { AreCounts counts placement },
    ghost sum_agrees: { AreSumsOf sum placement },
    ghost key_agrees: { IsKeyOf key placement },
}

impl<'k> Followed<'k> {
    pub(super) fn empty(table: &'k KeyTable) -> Followed<'k> {
        Followed {
            placement: Placement::empty(),
            counts: Counts::empty(),
            sum: Sum::empty(),
            key: Key::empty(table),
        }
    }

    pub(super) fn of(table: &'k KeyTable, placement: Placement) -> Followed<'k> {
        let counts = Counts::of(&placement);
        let sum = Sum::of(&placement);
        let key = Key::of(table, &placement);
        Followed {
            placement,
            counts,
            sum,
            key,
        }
    }

    /// Counts the ticks from here on.
    pub(super) fn begin(&mut self) {
        self.counts.begin();
    }

    pub(super) fn put(&mut self, rt: &impl Abort, at: Square, man: Man) {
        assert!(rt; self.placement.get(at).is_none());
        assert!(rt; self.placement.men(man.colour) < 16);
        self.counts.put(&self.placement, at, man);
        self.sum.put(&self.placement, at, man);
        self.key.put(&self.placement, at, man);
        self.placement.put(at, man);
    }

    pub(super) fn clear(&mut self, rt: &impl Abort, at: Square) {
        assert!(rt; self.placement.get(at).is_some());
        self.counts.clear(&self.placement, at);
        self.sum.clear(&self.placement, at);
        self.key.clear(&self.placement, at);
        self.placement.clear(at);
    }

    /// Puts the man that stands there as a game begins, if one does.
    pub(super) fn put_at_home(&mut self, rt: &impl Abort, at: Square) {
        if let Some(man) = start().get(at) {
            self.put(rt, at, man);
        }
    }

    /// Clears the square, if a man stands there.
    pub(super) fn clear_if_held(&mut self, rt: &impl Abort, at: Square) {
        if self.placement.get(at).is_some() {
            self.clear(rt, at);
        }
    }

    /// How many men stand on the board.
    pub(super) fn men(&self) -> usize {
        self.placement.men(Colour::White) as usize + self.placement.men(Colour::Black) as usize
    }
}
