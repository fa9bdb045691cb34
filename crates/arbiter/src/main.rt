//! What the Laws say of each game of a collection. Reads games from the standard input, one after another, and writes a row for each on the standard
//! output, as comma-separated values (RFC 4180) or as lines of JSON. A game that can't be read has a row with the place of its fault and its kind, and with what
//! is said of the game that its text is repaired to (`chess_salvage`); reading goes on at the next section of tags.
#![tactic(auto)]

mod cell;
mod columns;
mod findings;
mod judge;
mod roster;
mod row;
mod words;

use byte_streams::{FromRead, ToWrite};
use chess_collection::Window;
use chess_command_line::{FAILED, Progress, Refused, SOME_REFUSED, read_words};
use judge::judge;
use std::process::ExitCode;
use words::{Words, parse_words};

// What the program was called for.
fn asked(rt: &HostRuntime) -> Result<Words, Refused> {
    let words = read_words(rt)?;
    parse_words(rt.alloc(), words.as_slice())
}

fn main(rt: HostRuntime) -> ExitCode {
    let words = match asked(&rt) {
        Ok(words) => words,
        Err(refused) => return refused.end(&rt),
    };
    let mut progress = Progress::new(&rt, words.progress);
    let alloc = rt.alloc();
    let mut window = Window::new(&alloc, FromRead::new(rt.stdin()));
    let mut writer = ToWrite::new(rt.stdout());
    match judge(alloc, words.asked, &mut window, &mut writer, &mut progress) {
        Ok(totals) if totals.bad == 0 => ExitCode::SUCCESS,
        Ok(_) => ExitCode::from(SOME_REFUSED),
        Err(failure) => {
            let _ = eprintln!(rt; "{failure}");
            ExitCode::from(FAILED)
        }
    }
}
