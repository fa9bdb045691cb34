//! Words looked up in a table.

ghost use Rattle.std.specs.Prelude.{◌≡◌, map};
ghost use Rattle.chess_uci.specs.Tables.{beside};

/// What is beside the word in the table, at its first place.
pub(crate) fn beside<T: Copy>(table: &[(&[u8], T)], word: &[u8]) -> Option<T>
    ensures { result ≡ beside (map (λ row. (row.0.now, row.1)) table.now) word.now }
{
    let mut rest = table;
    while let [(name, value), others @ ..] = rest {
        if word == *name {
            return Some(*value);
        }
        rest = others;
    }
    None
}
