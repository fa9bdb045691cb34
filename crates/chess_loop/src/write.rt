//! A text written whole, by as many calls as it takes.

ghost use Rattle.std.specs.Prelude.{[]};
ghost use Rattle.chess_loop.specs.steps.Sending.{SentOr};

use byte_streams::{Failed, Sink};

/// Writes all of the text, call by call, until one fails or takes no byte.
pub fn write_all<W: Sink>(writer: &mut W, text: &[u8]) -> Result<(), Failed>
    ensures { SentOr W.takes W.failed writer.old text.now [] writer.new result }
{
    let mut rest = text;
    while !rest.is_empty() {
        match writer.write(rest) {
            Ok(0) => return Err(Failed),
            Ok(count) => rest = &rest[count..],
            Err(failed) => return Err(failed),
        }
    }
    Ok(())
}
