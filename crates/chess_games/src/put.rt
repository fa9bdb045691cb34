//! Bytes on their way to a sink.

ghost use Rattle.std.specs.Prelude.{◌≡◌, IfErr, OnOk};
ghost use Rattle.byte_streams.specs.Calls.{Carries};
ghost use Rattle.chess_loop.specs.RunEnds.{Broken};
ghost use Rattle.chess_command_line.specs.declared.collection.Failure.TheVariants as by;

use byte_streams::Sink;
use chess_command_line::Failure;
use chess_loop::write_all;

/// Writes all of the bytes.
pub fn put<W: Sink>(writer: &mut W, bytes: &[u8]) -> Result<(), Failure>
    ensures all { OnOk result (Carries W.takes writer.old bytes.now writer.new) }
    ensures well { OnOk result (W.failed writer.new ≡ W.failed writer.old) }
    ensures fault { IfErr result (λ failure. failure ≡ by.Write) }
    ensures broken { IfErr result (λ _. Broken W.takes W.failed writer.old bytes.now writer.new) }
{
    match write_all(writer, bytes) {
        Ok(()) => Ok(()),
        Err(_) => Err(Failure::Write),
    }
}
