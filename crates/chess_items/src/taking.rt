//! Taking the items of a text, one after another.

ghost use Rattle.std.specs.Prelude.{◌≡◌, ◌<◌, ◌≤◌, ◌+◌, length, take, IfErr, IfOk, IfSome, MatchBool, Ok};
ghost use Rattle.chess_items.specs.Items.{Skipped, Word};
ghost use Rattle.chess_items.specs.steps.Deciding.{Decides};
ghost use Rattle.chess_items.specs.declared.place.Place.TheVariants.{InLine};
ghost use Rattle.chess_items.specs.steps.Firsts.{IsFirst, IsFollowed, IsWithin};
ghost use Rattle.chess_items.specs.steps.Taking.{Offered, Settles, Steps, Ran, RunBreaks};
ghost use Rattle.chess_items.specs.steps.Texts.{BreaksAt};
ghost use Rattle.chess_items.specs.steps.ItemAt.{item_at};
ghost use Rattle.chess_items.specs.steps.Tokens.{found, item_of};

use crate::at_hand::Fault;
use crate::class::Class;
use crate::cut::{Comment, comment_at, is_undecided};
use crate::fault::PgnFault;
use crate::idle::{behind_number, pass_idle};
use crate::lexer::item;
use crate::place::Place;
use crate::taker::{Taken, Taker};
use crate::text::Text;
use crate::token::Token;

/// Why no more items are taken.
#[derive(Clone, Copy)]
pub enum Stop {
    /// The last item is used.
    Full,
    /// The next item isn't used: all ended before it.
    Left,
    /// The next item is refused, with this fault.
    Refused(PgnFault),
    /// The text has ended.
    End,
    /// What comes next is no item, whatever follows.
    NoItem,
    /// The next item reaches past the limit, or what comes next isn't known to be none before it.
    TooLarge,
}

/// Where and why no more items are taken.
#[derive(Clone, Copy)]
pub struct Stopped {
    pub why: Stop,
    /// How many bytes are used.
    pub at: usize,
    pub place: Place,
    /// Whether the items were but whitespace, marks and hidden lines.
    pub white: bool,
}

/// What becomes of one item: it is used, with its place after it, its length and whether it is white, or it is where all stops.
#[derive(Clone, Copy)]
pub enum Step {
    On(Place, usize, bool),
    Full(Place, usize, bool),
    Stops(Stop),
}

/// Where the next item is: its place, how many bytes are used before it, and how many it may have.
#[derive(Clone, Copy)]
pub struct Spot {
    pub place: Place,
    pub at: usize,
    pub most: usize,
}

/// Whether there are more than `most` bytes, and the first `most + 1` don't decide the item; nor do the first `looked`.
fn exceeds(place: Place, bytes: &[u8], most: usize, looked: usize) -> bool
    requires within { looked ≤ length bytes.now }
    requires looked { Decides place (take looked bytes.now) → ⊥ }
    ensures { MatchBool result
        ((most < length bytes.now) × (Decides place (take (most + 1) bytes.now) → ⊥))
        (most < length bytes.now → Decides place (take (most + 1) bytes.now)) }
{
    if bytes.len() <= most {
        return false;
    }
    is_undecided(place, &bytes[..most + 1], looked.min(most + 1))
}

// The first item, where the first `looked` bytes don't decide it: where those are all, a comment between braces is none.
fn item_unlooked(place: Place, bytes: &[u8], looked: usize) -> Option<(Token<'_>, &[u8])>
    requires within { looked ≤ length bytes.now }
    requires looked { Decides place (take looked bytes.now) → ⊥ }
    ensures { found result ≡ item_at place bytes.now }
{
    if let Some(Comment::Braces) = comment_at(place, bytes) {
        if looked == bytes.len() {
            return None;
        }
    }
    item(place, bytes)
}

// Offers an item of `used` bytes. A bracket is offered even after the limit, since it may be left.
#[inline(always)]
fn offer<T: Taker>(taker: &mut T, spot: Spot, token: Token<'_>, used: usize) -> Step
    ensures { Offered T.takes spot.at spot.most spot.place (item_of token.entry) used taker.old taker.new result }
{
    if used > spot.most && !matches!(token, Token::TagOpen) {
        return Step::Stops(Stop::TooLarge);
    }
    match taker.take(spot.at, token) {
        Err(fault) => Step::Stops(Stop::Refused(fault)),
        Ok(Taken::Leaves) => Step::Stops(Stop::Left),
        Ok(Taken::GoesOn) => {
            if used > spot.most {
                return Step::Stops(Stop::TooLarge);
            }
            Step::On(spot.place.after(token), used, token.is_white())
        }
        Ok(Taken::Ends) => {
            if used > spot.most {
                return Step::Stops(Stop::TooLarge);
            }
            Step::Full(spot.place.after(token), used, token.is_white())
        }
    }
}

// The same step: where its item is used, so are all but `left` of the bytes at hand.
#[inline(always)]
fn settle<X: Text>(text: &mut X, step: Step, left: usize) -> Step
    requires within { left ≤ length (X.at_hand text.old) }
    requires sound { X.sound text.old }
    ensures step { result ≡ step }
    ensures text { Settles X.comes X.at_hand X.all X.sound X.reads left step text.old text.new }
{
    match step {
        Step::Stops(_) => {}
        Step::On(_, _, _) | Step::Full(_, _, _) => text.keep(left),
    }
    step
}

// Takes one item, once the bytes at hand decide it or no more come.
fn take_read<X: Text, T: Taker>(text: &mut X, taker: &mut T, spot: Spot) -> Result<Step, Fault>
    requires { X.sound text.old }
    ensures steps { Steps X.comes X.at_hand X.all X.sound X.reads T.takes spot.at spot.most spot.place text.old text.new taker.old taker.new result }
    ensures broken { IfErr result (λ fault. BreaksAt X.comes X.at_hand X.breaks X.all X.sound X.reads spot.most spot.place text.old text.new fault) }
{
    match text.ready(spot.place, spot.most) {
        Err(fault) => return Err(fault),
        Ok(false) => return Ok(Step::Stops(Stop::TooLarge)),
        Ok(true) => {}
    }
    if text.unread().is_empty() {
        return Ok(Step::Stops(Stop::End));
    }
    let looked = text.looked(spot.place);
    let Some((token, rest)) = item_unlooked(spot.place, text.unread(), looked) else {
        if exceeds(spot.place, text.unread(), spot.most, looked) {
            return Ok(Step::Stops(Stop::TooLarge));
        }
        return Ok(Step::Stops(Stop::NoItem));
    };
    let left = rest.len();
    let used = text.unread().len() - left;
    let step = offer(taker, spot, token, used);
    Ok(settle(text, step, left))
}

// The first byte and how many come after it, where it is within a line and some do.
#[inline(always)]
fn first_within(place: Place, bytes: &[u8]) -> Option<(u8, usize)>
    ensures { IfSome result (λ first. IsWithin place first.0 first.1 bytes.now) }
{
    if !matches!(place, Place::InLine) {
        return None;
    }
    let (&b, rest) = bytes.split_first()?;
    if rest.is_empty() {
        return None;
    }
    Some((b, rest.len()))
}

// A move's text within a line, and what follows it, where something does. It begins with no digit, as numbers and markers do.
#[inline(always)]
fn word_within(bytes: &[u8]) -> Option<(&[u8], &[u8])>
    ensures { IfSome result (λ found. IsFollowed bytes.now (Word found.0.now) found.1.now) }
{
    let (&first, _) = bytes.split_first()?;
    if !Class::Word.has(first) || Class::Digit.has(first) {
        return None;
    }
    let (word, rest) = bytes.split_at(Class::Word.run_len(bytes));
    if rest.is_empty() {
        return None;
    }
    Some((word, rest))
}

// How many bytes follow a move number within a line, where some do.
#[inline(always)]
fn after_number(bytes: &[u8]) -> Option<usize>
    ensures { IfSome result (λ left. IsFirst bytes.now Skipped left) }
{
    Some(behind_number(bytes)?.len())
}

// Takes an item within a line, after which `left` bytes are left.
#[inline(always)]
fn take_first<X: Text, T: Taker>(
    text: &mut X,
    taker: &mut T,
    spot: Spot,
    token: Token<'_>,
    left: usize,
) -> Step
    requires sound { X.sound text.old }
    requires here { spot.place ≡ InLine }
    requires first { IsFirst (X.at_hand text.old) (item_of token) left }
    ensures steps { Steps X.comes X.at_hand X.all X.sound X.reads T.takes spot.at spot.most spot.place text.old text.new taker.old taker.new (Ok result) }
{
    let used = text.unread().len() - left;
    let step = offer(taker, spot, token, used);
    settle(text, step, left)
}

// Takes one item. Where a byte is at hand after the first item, no read can change it, and it is taken at
// once: so the bytes of nearly all items are looked at once. Within a line the most frequent items are known by their first byte.
#[inline(always)]
pub fn take_one<X: Text, T: Taker>(text: &mut X, taker: &mut T, spot: Spot) -> Result<Step, Fault>
    requires { X.sound text.old }
    ensures steps { Steps X.comes X.at_hand X.all X.sound X.reads T.takes spot.at spot.most spot.place text.old text.new taker.old taker.new result }
    ensures broken { IfErr result (λ fault. BreaksAt X.comes X.at_hand X.breaks X.all X.sound X.reads spot.most spot.place text.old text.new fault) }
{
    if let Some((b, left)) = first_within(spot.place, text.unread()) {
        let spot = Spot {
            place: Place::InLine,
            at: spot.at,
            most: spot.most,
        };
        if let Some((word, rest)) = word_within(text.unread()) {
            let left = rest.len();
            let used = text.unread().len() - left;
            let step = offer(taker, spot, Token::Word(word), used);
            return Ok(settle(text, step, left));
        }
        if b == b' ' {
            return Ok(take_first(text, taker, spot, Token::Blank(b' '), left));
        }
        if b == b'.' {
            return Ok(take_first(text, taker, spot, Token::Skipped, left));
        }
        if let Some(left) = after_number(text.unread()) {
            return Ok(take_first(text, taker, spot, Token::Skipped, left));
        }
    }
    // What is known not to be decided isn't searched again.
    if text.looked(spot.place) == text.unread().len() {
        return take_read(text, taker, spot);
    }
    let Some((token, rest)) = item(spot.place, text.unread()) else {
        return take_read(text, taker, spot);
    };
    if rest.is_empty() {
        return take_read(text, taker, spot);
    }
    let left = rest.len();
    let used = text.unread().len() - left;
    let step = offer(taker, spot, token, used);
    Ok(settle(text, step, left))
}

/// Takes items while the taker wants more, of at most `limit` bytes together.
pub fn run<X: Text, T: Taker>(text: &mut X, taker: &mut T, limit: usize) -> Result<Stopped, Fault>
    requires { X.sound text.old }
    ensures sound { IfOk result (λ _. X.sound text.new) }
    ensures ran { Ran X.comes X.at_hand X.all X.sound X.reads T.takes limit text.old text.new taker.old taker.new result }
    ensures broken { IfErr result (λ fault. RunBreaks X.comes X.at_hand X.all X.sound X.reads T.takes limit X.breaks text.old text.new taker.old fault) }
{
    let mut place = Place::GameStart;
    let mut at = 0usize;
    let mut white = true;
    loop {
        let here = Spot {
            place,
            at,
            most: limit - at,
        };
        let (after, passed) = pass_idle(text, &*taker, here, white);
        place = after;
        at += passed;
        let spot = Spot {
            place,
            at,
            most: limit - at,
        };
        match take_one(text, taker, spot) {
            Err(fault) => return Err(fault),
            Ok(Step::Stops(why)) => {
                return Ok(Stopped {
                    why,
                    at,
                    place,
                    white,
                });
            }
            Ok(Step::Full(next, used, is_white)) => {
                return Ok(Stopped {
                    why: Stop::Full,
                    at: at + used,
                    place: next,
                    white: white & is_white,
                });
            }
            Ok(Step::On(next, used, is_white)) => {
                place = next;
                at += used;
                white = white & is_white;
            }
        }
    }
}
