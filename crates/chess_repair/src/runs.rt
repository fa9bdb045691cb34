//! Texts from some byte on.

ghost use Rattle.std.specs.Prelude.{◌≡◌, ◌++◌, IfSome};
ghost use Rattle.chess_items.specs.Items.{is_blank, is_name_byte};
ghost use Rattle.chess_repair.specs.Runs.{past};

use crate::marks::{is_blank, is_name};

/// The text without whitespace at its beginning.
pub fn past_blanks(text: &[u8]) -> &[u8]
    ensures { result.now ≡ past is_blank text.now }
{
    let mut rest = text;
    while let [b, more @ ..] = rest {
        if !is_blank(*b) {
            break;
        }
        rest = more;
    }
    rest
}

/// The text without bytes of names at its beginning.
pub fn past_name(text: &[u8]) -> &[u8]
    ensures { result.now ≡ past is_name_byte text.now }
{
    let mut rest = text;
    while let [b, more @ ..] = rest {
        if !is_name(*b) {
            break;
        }
        rest = more;
    }
    rest
}

/// The front of a text that ends with the given bytes; `None` if it doesn't end with them.
pub fn before<'t>(text: &'t [u8], rest: &[u8]) -> Option<&'t [u8]>
    ensures { IfSome result (λ front. text.now ≡ front.now ++ rest.now) }
{
    if text.len() < rest.len() {
        return None;
    }
    let (front, end) = text.split_at(text.len() - rest.len());
    if end == rest { Some(front) } else { None }
}
