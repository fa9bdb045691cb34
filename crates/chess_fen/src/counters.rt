//! The two counters of a FEN, read (PGN 16.1.3.5, 16.1.3.6).

ghost use Rattle.std.specs.Prelude.{◌≡◌};
ghost use Rattle.std.specs.Char.{is_ascii_digit};
ghost use Rattle.std.specs.List.{list_all};
ghost use Rattle.chess_fen.specs.Reading.{counter_in};

use super::fault::FenFault;

const MOST: u32 = 99_999;

fn are_digits(field: &[u8]) -> bool
    ensures { result ≡ list_all is_ascii_digit field.now }
{
    field.iter().all(|byte| byte.is_ascii_digit())
}

/// The halfmove clock or the fullmove number: decimal digits alone, at most 99,999; zeros may stand first.
pub fn read_counter(field: &[u8]) -> Result<u32, FenFault>
    ensures { result ≡ counter_in field.now }
{
    if !are_digits(field) {
        return Err(FenFault::Counter);
    }
    let Ok(text) = str::from_utf8(field) else {
        return Err(FenFault::Counter);
    };
    let Ok(value) = text.parse::<u32>() else {
        return Err(FenFault::Counter);
    };
    if value > MOST {
        return Err(FenFault::Counter);
    }
    Ok(value)
}
