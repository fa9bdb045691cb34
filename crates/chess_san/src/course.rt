//! A text read as what it says of a move, before any position is looked at (PGN 8.2.3).

ghost use Rattle.std.specs.Prelude.{◌≡◌, ◌<◌, ◌≤◌, IfSome};
ghost use Rattle.byte_streams.specs.Words.{without_last_gaps};
ghost use Rattle.chess_san.specs.Forms.{among_eight, file_in, rank_in, square_at, piece_in, promotion_in, ending_in, arrival_square_in, arrival_in, ranked_in, rank_or_not, filed_in, course_in, man_in, wing_in, form_in, marks};

use crate::form::{Course, Form, Origin};
use chess_types::{Kind, Square, Wing};

// The number of a byte among the eight that begin with the first: of a file from a to h, or of a rank from 1 to 8.
#[tactic(auto, unfolding(crate::specs::Forms::among_eight))]
fn among_eight(first: u8, byte: u8) -> Option<u8>
    requires { first ≤ 120 }
    ensures value { result ≡ among_eight first byte }
    ensures below { IfSome result (λ number. number < 8) }
{
    if first <= byte && byte <= first + 7 {
        Some(byte - first)
    } else {
        None
    }
}

fn square_in(letter: u8, digit: u8) -> Option<Square>
    ensures { result ≡ square_at (file_in letter) (rank_in digit) }
{
    match (among_eight(b'a', letter), among_eight(b'1', digit)) {
        (Some(file), Some(rank)) => Some(Square::from_index(8 * rank + file)),
        _ => None,
    }
}

#[tactic(auto, unfolding(crate::specs::Forms::piece_in))]
fn piece_in(letter: u8) -> Option<Kind>
    ensures { result ≡ piece_in letter }
{
    match Kind::of_letter(letter)? {
        Kind::Pawn => None,
        kind => Some(kind),
    }
}

#[tactic(auto, unfolding(crate::specs::Forms::promotion_in))]
fn promotion_in(letter: u8) -> Option<Kind>
    ensures { result ≡ promotion_in letter }
{
    match letter {
        b'Q' | b'q' => Some(Kind::Queen),
        b'R' | b'r' => Some(Kind::Rook),
        b'B' | b'b' => Some(Kind::Bishop),
        b'N' | b'n' => Some(Kind::Knight),
        _ => None,
    }
}

// What a pawn becomes, by what comes after the target.
#[tactic(auto, unfolding(crate::specs::Forms::ending_in))]
fn ending_in(text: &[u8]) -> Option<Option<Kind>>
    ensures { result ≡ ending_in text.now }
{
    match text {
        [] => Some(None),
        [letter] => Some(Some(promotion_in(*letter)?)),
        [b'=', letter] => Some(Some(promotion_in(*letter)?)),
        _ => None,
    }
}

#[tactic(auto, unfolding(crate::specs::Forms::arrival_square_in))]
fn arrival_square_in(origin: Origin, text: &[u8]) -> Option<Course>
    ensures { result ≡ arrival_square_in origin text.now }
{
    match text {
        [file, rank, ending @ ..] => {
            let to = square_in(*file, *rank)?;
            let promo = ending_in(ending)?;
            Some(Course { origin, to, promo })
        }
        _ => None,
    }
}

#[tactic(auto, unfolding(crate::specs::Forms::arrival_in))]
fn arrival_in(origin: Origin, text: &[u8]) -> Option<Course>
    ensures { result ≡ arrival_in origin text.now }
{
    match text {
        [] => None,
        [b'x', rest @ ..] => arrival_square_in(origin, rest),
        _ => arrival_square_in(origin, text),
    }
}

#[tactic(auto, unfolding(crate::specs::Forms::ranked_in))]
fn ranked_in(file: Option<u8>, text: &[u8]) -> Option<Course>
    ensures { result ≡ ranked_in file text.now }
{
    match text {
        [] => None,
        [digit, rest @ ..] => {
            let rank = among_eight(b'1', *digit)?;
            arrival_in(
                Origin {
                    file,
                    rank: Some(rank),
                },
                rest,
            )
        }
    }
}

#[tactic(auto, unfolding(crate::specs::Forms::rank_or_not))]
fn rank_or_not(file: Option<u8>, text: &[u8]) -> Option<Course>
    ensures { result ≡ rank_or_not file text.now }
{
    match arrival_in(Origin { file, rank: None }, text) {
        Some(course) => Some(course),
        None => ranked_in(file, text),
    }
}

#[tactic(auto, unfolding(crate::specs::Forms::filed_in))]
fn filed_in(text: &[u8]) -> Option<Course>
    ensures { result ≡ filed_in text.now }
{
    match text {
        [] => None,
        [letter, rest @ ..] => {
            let file = among_eight(b'a', *letter)?;
            rank_or_not(Some(file), rest)
        }
    }
}

// A file or nothing, a rank or nothing, an x or nothing, the target, and what a pawn becomes.
#[tactic(auto, unfolding(crate::specs::Forms::course_in))]
fn course_in(text: &[u8]) -> Option<Course>
    ensures { result ≡ course_in text.now }
{
    match rank_or_not(None, text) {
        Some(course) => Some(course),
        None => filed_in(text),
    }
}

#[tactic(auto, unfolding(crate::specs::Forms::man_in))]
fn man_in(text: &[u8]) -> Option<Form>
    ensures { result ≡ man_in text.now }
{
    match text {
        [] => None,
        [letter, rest @ ..] => match piece_in(*letter) {
            Some(kind) => {
                let course = course_in(rest)?;
                match course.promo {
                    None => Some(Form::Piece(kind, course)),
                    Some(_) => None,
                }
            }
            None => {
                let course = course_in(text)?;
                Some(Form::Plain(course))
            }
        },
    }
}

#[tactic(auto, unfolding(crate::specs::Forms::wing_in))]
fn wing_in(text: &[u8]) -> Option<Wing>
    ensures { result ≡ wing_in text.now }
{
    if text == b"O-O".as_slice() || text == b"0-0".as_slice() {
        Some(Wing::KingSide)
    } else if text == b"O-O-O".as_slice() || text == b"0-0-0".as_slice() {
        Some(Wing::QueenSide)
    } else {
        None
    }
}

// The bytes without + and # at their end.
pub(crate) fn without_marks(text: &[u8]) -> &[u8]
    ensures { result.now ≡ without_last_gaps marks text.now }
{
    let mut rest = text;
    while let [others @ .., last] = rest {
        if *last != b'+' && *last != b'#' {
            return rest;
        }
        rest = others;
    }
    rest
}

/// The form of a text, where it has one.
#[tactic(auto, unfolding(crate::specs::Forms::form_in))]
pub(crate) fn form_in(text: &[u8]) -> Option<Form>
    ensures { result ≡ form_in text.now }
{
    let bare = without_marks(text);
    match wing_in(bare) {
        Some(wing) => Some(Form::Castles(wing)),
        None => man_in(bare),
    }
}
