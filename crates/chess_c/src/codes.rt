//! The numbers by which C sees refusals, draws that may be claimed, and colours.

ghost use Rattle.std.specs.Prelude.{◌≡◌};
ghost use Rattle.chess_c.specs.Codes.{claims_code, colour_code, colour_of_code, ended_code, refusal_code};

use chess_bindings::{ARGUMENT, AT_ROOT, FORM, ILLEGAL, MEMORY, OK};
use chess_cli::Refusal;
use chess_types::{Claims, Colour};

/// The status of a refusal.
pub fn refusal_code(refusal: Refusal) -> u32
    ensures { result ≡ refusal_code refusal }
{
    match refusal {
        Refusal::Fen(fault) => 20 + u32::from(fault.number()),
        Refusal::Form => FORM,
        Refusal::NoSuch => 12,
        Refusal::Illegal => ILLEGAL,
        Refusal::TooLong => 6,
        Refusal::AtRoot => AT_ROOT,
        Refusal::Ambiguous => 4,
        Refusal::Full => 7,
        Refusal::BadComment => 13,
        Refusal::Memory => MEMORY,
        Refusal::Command => 14,
        Refusal::Argument => ARGUMENT,
        Refusal::LongLine => 15,
    }
}

/// The status of a call that is done or refused.
pub fn ended_code(ended: Result<(), Refusal>) -> u32
    ensures { result ≡ ended_code ended }
{
    match ended {
        Ok(()) => OK,
        Err(refusal) => refusal_code(refusal),
    }
}

/// The draws that may be claimed, as a number.
pub fn claims_code(claims: Claims) -> u32
    ensures { result ≡ claims_code claims }
{
    u32::from(claims.threefold) + 2 * u32::from(claims.fifty)
}

/// The number of a colour.
pub fn colour_code(colour: Colour) -> u8
    ensures { result ≡ colour_code colour }
{
    match colour {
        Colour::White => 0,
        Colour::Black => 1,
    }
}

/// A colour by its number.
pub fn colour_in(code: u8) -> Option<Colour>
    ensures { result ≡ colour_of_code code }
{
    match code {
        0 => Some(Colour::White),
        1 => Some(Colour::Black),
        _ => None,
    }
}
