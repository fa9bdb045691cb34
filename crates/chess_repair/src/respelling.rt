//! A text whose moves have the piece letters of another language, written in the standard's.

ghost use Rattle.std.specs.Prelude.{◌≡◌, length, IfOk, IfSome};
ghost use Rattle.chess_repair.specs.Letters.{IsInLetters, IsRespelled, IsSpeltAs};

use crate::letters::Letters;
use crate::spelling::letters_in;
use crate::standing::Standing;
use std::alloc::{AllocError, Allocator};

/// The name of such a repair, of one byte.
pub const LETTER: &str = "Letter";

/// A text in which letters are written anew.
#[derive(Drop)]
pub struct Respelled<'a, A: Allocator> {
    pub text: Vec<u8, &'a A>,
    /// The places of the letters, in their order.
    pub places: Vec<usize, &'a A>,
}

// What is written for a byte: the standard's letter, where that is asked for and the byte stands among the moves.
fn spelt_as(letters: Letters, standing: Standing, b: u8, is_asked: bool) -> u8
    ensures { IsSpeltAs letters standing b result }
{
    if is_asked && standing.is_of_moves() {
        letters.standard(b)
    } else {
        b
    }
}

// The text with the letters at some places, in their order, as the standard's; the places of those that stand among the moves.
fn written<'a, A: Allocator>(
    alloc: &'a A,
    letters: Letters,
    text: &[u8],
    places: &[usize],
) -> Result<Respelled<'a, A>, AllocError>
    ensures { IfOk result (λ r. IsRespelled letters text.now r.text.items) }
{
    let mut spelt = Vec::new(alloc);
    let mut put = Vec::new(alloc);
    let mut standing = Standing::Line;
    let mut asked = places;
    let mut rest = text;
    while let [b, more @ ..] = rest {
        let at = text.len().saturating_sub(rest.len());
        let is_asked = asked.first() == Some(&at);
        if is_asked {
            asked = &asked[1..];
        }
        if is_asked && standing.is_of_moves() {
            put.push(at)?;
        }
        spelt.push(spelt_as(letters, standing, *b, is_asked))?;
        standing = standing.after_byte(*b);
        rest = more;
    }
    Ok(Respelled {
        text: spelt,
        places: put,
    })
}

/// The text with the letters of men in the moves of the game at its start written as the standard's, where letters of a language are given; nothing, where no
/// letter is written otherwise.
///
/// # Errors
///
/// There is no memory.
pub fn respell<'a, A: Allocator>(
    alloc: &'a A,
    letters: Option<Letters>,
    text: &[u8],
) -> Result<Option<Respelled<'a, A>>, AllocError>
    ensures spelt { IfOk result (λ found. IfSome found (λ r. IsInLetters letters text.now r.text.items)) }
    ensures length { IfOk result (λ found. IfSome found (λ r. length r.text.items ≡ length text.now)) }
    // (where nothing is written otherwise)
    ensures same { IsInLetters letters text.now text.now }
{
    let Some(letters) = letters else {
        return Ok(None);
    };
    let places = letters_in(alloc, letters, text)?;
    let found = written(alloc, letters, text, places.as_slice())?;
    if found.places.is_empty() {
        return Ok(None);
    }
    Ok(Some(found))
}
