//! Whitespace, periods and move numbers, passed over together where they change nothing.

ghost use Rattle.std.specs.Prelude.{◌≡◌, ℕ, true, IfSome};
ghost use Rattle.chess_items.specs.Items.{Skipped, is_outside};
ghost use Rattle.chess_items.specs.steps.Firsts.{IsFollowed};
ghost use Rattle.chess_items.specs.steps.Idle.{IsIdle, IsIdleRun, PassesIdle};

use crate::class::{Class, is_blank};
use crate::place::Place;
use crate::taker::Taker;
use crate::taking::Spot;
use crate::text::Text;
use crate::token::Token;

impl Place {
    ghost use Rattle.std.specs.Prelude.{◌≡◌};
    ghost use Rattle.chess_items.specs.Items.{is_outside};

    // Whether it is outside of tags.
    #[inline(always)]
    fn is_outside(self) -> bool
        ensures { result ≡ is_outside self }
    {
        matches!(self, Place::GameStart | Place::LineStart | Place::InLine)
    }
}

/// The bytes after a move number, if there are any.
#[inline(always)]
pub fn behind_number(bytes: &[u8]) -> Option<&[u8]>
    ensures { IfSome result (λ rest. IsFollowed bytes.now Skipped rest.now) }
{
    let (digits, rest) = bytes.split_at(Class::Digit.run_len(bytes));
    let (&next, _) = rest.split_first()?;
    if digits.is_empty() || Class::Word.has(next) {
        return None;
    }
    Some(rest)
}

// The whitespace, the period or the move number that comes first outside of tags: the place after it, and what follows.
#[inline(always)]
fn idle_first(bytes: &[u8]) -> Option<(Place, &[u8])>
    ensures { IfSome result (λ found. IsIdle bytes.now found.0 found.1.now) }
{
    let (&b, rest) = bytes.split_first()?;
    if is_blank(b) {
        return Some((Place::InLine.after(Token::Blank(b)), rest));
    }
    if b == b'.' {
        return Some((Place::InLine, rest));
    }
    Some((Place::InLine, behind_number(bytes)?))
}

// All that come first: the place after them, and what follows.
#[inline(always)]
fn idle_run(place: Place, bytes: &[u8]) -> (Place, &[u8])
    requires { is_outside place ≡ true }
    ensures { (at : ℕ) → IsIdleRun at place bytes.now result.0 result.1.now }
{
    let mut place = place;
    let mut rest = bytes;
    while let Some((next, others)) = idle_first(rest) {
        place = next;
        rest = others;
    }
    (place, rest)
}

/// Passes over whitespace, periods and move numbers at hand, if the taker lets them pass and more than whitespace came before. Returns the
/// place after them, and how many bytes they have.
#[inline(always)]
pub fn pass_idle<X: Text, T: Taker>(
    text: &mut X,
    taker: &T,
    spot: Spot,
    white: bool,
) -> (Place, usize)
    requires { X.sound text.old }
    ensures { PassesIdle X.comes X.at_hand X.all X.sound X.reads T.takes spot.at spot.most spot.place white text.old text.new taker.now result.0 result.1 }
{
    if white || !taker.is_passing() || !spot.place.is_outside() {
        return (spot.place, 0);
    }
    let bytes = text.unread();
    let len = bytes.len();
    let within = &bytes[..len.min(spot.most)];
    let (next, rest) = idle_run(spot.place, within);
    let used = within.len() - rest.len();
    text.keep(len - used);
    (next, used)
}
