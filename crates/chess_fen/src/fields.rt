//! A FEN cut into its fields, and the side to move read (PGN 16.1.3).

ghost use Rattle.std.specs.Prelude.{◌≡◌, ◌∷◌, [], IfOk, IfErr, OnErr};
ghost use Rattle.byte_streams.specs.Words.{words};
ghost use Rattle.chess_fen.specs.Reading.{counters_in, fields_in, side_in};

use super::fault::FenFault;
use byte_streams::split_word;
use chess_types::Colour;

/// The texts of the six fields.
#[derive(Drop)]
pub struct Fields<'a> {
    pub placement: &'a [u8],
    pub side: &'a [u8],
    pub castling: &'a [u8],
    pub target: &'a [u8],
    pub clock: &'a [u8],
    pub number: &'a [u8],
}

const SPACE: &[u8] = b" ";

// The next word, and what comes after it.
fn next_field(text: &[u8]) -> Result<(&[u8], &[u8]), FenFault>
    ensures word { IfOk result (λ r. words (32 ∷ []) text.now ≡ r.0.now ∷ words (32 ∷ []) r.1.now) }
    ensures none { OnErr result (words (32 ∷ []) text.now ≡ []) }
    ensures fault { IfErr result (λ fault. fault ≡ FenFault.Fields) }
{
    split_word(text, SPACE).ok_or(FenFault::Fields)
}

// The texts of the two counters, after the other fields: both words, or none, for which 0 and 1 stand.
fn split_counters(text: &[u8]) -> Result<(&[u8], &[u8]), FenFault>
    ensures counters { IfOk result (λ r. counters_in (words (32 ∷ []) text.now) ≡ Ok (r.0.now, r.1.now)) }
    ensures fault { IfErr result (λ fault. counters_in (words (32 ∷ []) text.now) ≡ Err fault) }
{
    let Some((clock, rest)) = split_word(text, SPACE) else {
        return Ok((b"0", b"1"));
    };
    let (number, rest) = next_field(rest)?;
    if split_word(rest, SPACE).is_some() {
        return Err(FenFault::Fields);
    }
    Ok((clock, number))
}

/// The texts of the fields, four words or six; spaces may repeat, and stand at the ends.
#[tactic(auto, unfolding(crate::specs::Reading::fields_in))]
pub fn split_fields(text: &[u8]) -> Result<Fields<'_>, FenFault>
    ensures fields { IfOk result (λ f. fields_in text.now ≡ Ok (record {
      placement = f.placement.now;
      side = f.side.now;
      castling = f.castling.now;
      target = f.target.now;
      clock = f.clock.now;
      number = f.number.now;
    })) }
    ensures fault { IfErr result (λ fault. fields_in text.now ≡ Err fault) }
{
    let (placement, rest) = next_field(text)?;
    let (side, rest) = next_field(rest)?;
    let (castling, rest) = next_field(rest)?;
    let (target, rest) = next_field(rest)?;
    let (clock, number) = split_counters(rest)?;
    Ok(Fields {
        placement,
        side,
        castling,
        target,
        clock,
        number,
    })
}

/// The side to move.
#[tactic(auto, unfolding(crate::specs::Reading::side_in))]
pub fn read_side(field: &[u8]) -> Result<Colour, FenFault>
    ensures { result ≡ side_in field.now }
{
    if field == b"w".as_slice() {
        Ok(Colour::White)
    } else if field == b"b".as_slice() {
        Ok(Colour::Black)
    } else {
        Err(FenFault::Side)
    }
}
