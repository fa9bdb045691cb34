//! Whitespace, marks and hidden lines, read on without being kept.

ghost use Rattle.std.specs.Prelude.{◌≡◌, ℕ, List, ◌∷◌, IfErr};
ghost use Rattle.chess_items.specs.Items.{Each, in_line};
ghost use Rattle.chess_items.specs.steps.Skipping.{BeginsHidden, Hides, MaySkip, Skips};
ghost use Rattle.chess_items.specs.steps.Texts.{BreaksWhile};

use crate::at_hand::Fault;
use crate::class::Class;
use crate::fault::PgnFault;
use crate::place::Place;
use crate::taker::{Taken, Taker};
use crate::taking::{Spot, Step, take_one};
use crate::text::Text;
use crate::token::Token;

/// The bytes of a mark: no other item of whitespace has more, but for a hidden line.
const MARK: usize = 3;

// Takes whitespace, marks and hidden lines.
#[derive(Clone, Copy)]
struct Whites;

impl Taker for Whites {
    ghost use Rattle.chess_items.specs.steps.Skipping.{TakesWhite};

    ghost takes = { λ old at item result new. TakesWhite item result };

    fn take(&mut self, _at: usize, token: Token<'_>) -> Result<Taken, PgnFault> {
        if token.is_white() {
            Ok(Taken::GoesOn)
        } else {
            Ok(Taken::Leaves)
        }
    }

    #[inline(always)]
    fn is_passing(&self) -> bool {
        false
    }
}

// Whether the bytes begin as a hidden line does.
fn begins_hidden(place: Place, bytes: &[u8]) -> bool
    ensures { BeginsHidden place bytes.now result }
{
    match place {
        Place::GameStart | Place::LineStart | Place::TagLineStart => {}
        Place::InLine | Place::InTag | Place::InValue => return false,
    }
    match bytes.first() {
        Some(first) => *first == b'%',
        None => false,
    }
}

// Uses a hidden line, up to its end, and keeps nothing of it.
fn skip_line<X: Text>(text: &mut X) -> Result<(), Fault>
    requires sound { X.sound text.old }
    requires begins { (rest : List ℕ) × (X.at_hand text.old ≡ 37 ∷ rest) }
    ensures hides { Hides X.comes X.at_hand X.all X.sound X.reads text.old text.new result }
    ensures broken { IfErr result (λ fault. BreaksWhile X.comes X.at_hand X.breaks X.all X.reads (Each in_line) text.old text.new fault) }
{
    loop {
        let line = Class::Line.run_len(text.unread());
        let left = text.unread().len() - line;
        text.keep(left);
        if left > 0 {
            return Ok(());
        }
        match text.refill() {
            Err(fault) => return Err(fault),
            Ok(false) => return Ok(()),
            Ok(true) => {}
        }
    }
}

/// Uses whitespace, marks and hidden lines from that place on, and keeps nothing of them. Whether the text ends after them.
pub fn skip_white<X: Text>(text: &mut X, place: Place) -> Result<bool, Fault>
    requires { X.sound text.old }
    ensures skips { Skips X.comes X.at_hand X.all X.sound X.reads place text.old text.new result }
    ensures broken { IfErr result (λ fault. BreaksWhile X.comes X.at_hand X.breaks X.all X.reads (MaySkip place) text.old text.new fault) }
{
    let mut place = place;
    loop {
        let spot = Spot {
            place,
            at: 0,
            most: MARK,
        };
        match take_one(text, &mut Whites, spot) {
            Err(fault) => return Err(fault),
            Ok(Step::On(next, _, _)) => place = next,
            // Whites end at no item that they use.
            Ok(Step::Full(_, _, _)) => unreachable!(),
            Ok(Step::Stops(_)) => {
                if !begins_hidden(place, text.unread()) {
                    return Ok(text.unread().is_empty());
                }
                if let Err(fault) = skip_line(text) {
                    return Err(fault);
                }
                place = place.after(Token::Hidden);
            }
        }
    }
}
