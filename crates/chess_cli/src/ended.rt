//! How a run of a command ended: its exit status, and the line for the standard error.

ghost use Rattle.std.specs.Prelude.{◌≡◌, []};
ghost use Rattle.chess_cli.specs.ExitStatus.{fault_text};

use arrayvec::ArrayString;
use chess_loop::RunEnd;
use chess_pgn::PgnFault;
use itoa::Buffer;

/// How a run of a command ended.
#[derive(Clone, Copy, Debug, PartialEq, Eq)]
pub enum Ended {
    /// The whole input was read, and all was written.
    Good,
    /// A game of the input was refused. Its place is counted from the input's beginning.
    Input(PgnFault),
    /// A read failed, or there were 2^40 reads.
    ReadFault,
    /// A write failed or took no byte.
    WriteFault,
    /// There was no memory to begin with, or for a game or its text.
    Memory,
}

// `fault PLACE KIND NAME`
fn push_fault(message: &mut ArrayString<64>, fault: PgnFault)
    requires { message.old.bytes ≡ [] }
    ensures { message.new.bytes ≡ fault_text fault }
{
    message.push_str("fault ");
    message.push_str(Buffer::new().format(fault.place));
    message.push_str(" ");
    message.push_str(Buffer::new().format(fault.kind.number()));
    message.push_str(" ");
    message.push_str(fault.kind.name());
}

impl Ended {
    ghost use Rattle.std.specs.Prelude.{◌≡◌};
    ghost use Rattle.chess_cli.specs.ExitStatus.{status_of, message_of};

    /// The exit status: 0 for `Good`, 2 for `Input`, else 3.
    pub fn status(&self) -> u8
        ensures { result ≡ status_of self.now }
    {
        match self {
            Ended::Good => 0,
            Ended::Input(_) => 2,
            Ended::ReadFault | Ended::WriteFault | Ended::Memory => 3,
        }
    }

    /// The line for the standard error, without its line feed; empty for `Good`.
    pub fn message(&self) -> ArrayString<64>
        ensures { result.bytes ≡ message_of self.now }
    {
        let mut message = ArrayString::new();
        match self {
            Ended::Good => {}
            Ended::Input(fault) => push_fault(&mut message, *fault),
            Ended::ReadFault => message.push_str("read fault"),
            Ended::WriteFault => message.push_str("write fault"),
            Ended::Memory => message.push_str("out of memory"),
        }
        message
    }
}

impl From<RunEnd> for Ended {
    ghost use Rattle.std.specs.Prelude.{◌≡◌};
    ghost use Rattle.chess_cli.specs.Endings.{ended_of};

    ghost from_gives = { λ end ended. ended ≡ ended_of end };

    /// The end of the loop over lines, which knows no games.
    fn from(end: RunEnd) -> Self {
        match end {
            RunEnd::Good => Self::Good,
            RunEnd::ReadFault => Self::ReadFault,
            RunEnd::WriteFault => Self::WriteFault,
            RunEnd::Memory => Self::Memory,
        }
    }
}
