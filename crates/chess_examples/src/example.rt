//! An example of the board's language: lines asked and lines wanted, and whether a new board answers so.

ghost use Rattle.std.specs.Prelude.{◌≡◌, ◌++◌, ◌∷◌, [], OnOk};

use byte_streams::{FromBytes, ToBytes};
use chess_cli::{Ended, board_over_bytes};
use std::alloc::{AllocError, Global};
use std::io;

/// The most bytes that the board may answer to one example.
const ROOM: usize = 4096;

/// An example: its name, the lines that the board reads, and those that it has to answer.
#[derive(Drop)]
pub struct Example<'t> {
    name: &'t str,
    asked: Vec<u8>,
    wanted: Vec<u8>,
}

/// Puts a line after the others.
fn add_line(lines: &mut Vec<u8>, line: &str) -> Result<(), AllocError>
    ensures { OnOk result (lines.new.items ≡ (lines.old.items ++ line.now) ++ 10 ∷ []) }
{
    lines.extend_from_slice(line.as_bytes())?;
    lines.push(b'\n')?;
    Ok(())
}

/// Prints the lines after a mark.
fn print_lines(rt: &HostRuntime, mark: &str, lines: &[u8]) -> io::Result<()> {
    for line in String::from_utf8_lossy(rt.alloc(), lines)?.lines() {
        println!(rt; "{mark} {line}")?;
    }
    Ok(())
}

impl<'t> Example<'t> {
    /// An example of that name, in which nothing is asked yet.
    pub fn new(alloc: Global, name: &'t str) -> Example<'t> {
        Example {
            name,
            asked: Vec::new(alloc),
            wanted: Vec::new(alloc),
        }
    }

    /// The board reads the line, too.
    pub fn ask(&mut self, line: &str) -> Result<(), AllocError> {
        add_line(&mut self.asked, line)
    }

    /// The board has to answer the line, too.
    pub fn want(&mut self, line: &str) -> Result<(), AllocError> {
        add_line(&mut self.wanted, line)
    }

    /// Whether a new board answers the lines asked with the lines wanted, and nothing else. Prints `ok` and the name, or `differs`, the name
    /// and the lines wanted and given.
    pub fn is_met(&self, rt: &HostRuntime) -> io::Result<bool> {
        let mut reader = FromBytes::new(self.asked.as_slice(), ROOM);
        let mut room = [0; ROOM];
        let mut writer = ToBytes::new(&mut room, ROOM);
        let ended = board_over_bytes(rt.alloc(), &mut reader, &mut writer);
        let name = self.name;
        if ended == Ended::Good && writer.taken() == self.wanted.as_slice() {
            println!(rt; "ok {name}")?;
            return Ok(true);
        }
        println!(rt; "differs {name}")?;
        print_lines(rt, "  wanted", self.wanted.as_slice())?;
        print_lines(rt, "  given", writer.taken())?;
        Ok(false)
    }
}
