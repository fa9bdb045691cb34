//! Runs examples of the Laws and of the formats through the board, and reports which of them it answers otherwise.
//!
//! The standard input is a table that a player can read. An example begins with a line `# NAME`; a line after `< ` is read by the board, one
//! after `> ` is what it has to answer. Empty lines and headings, which begin with `=`, are passed over. Each example has a board of its own.
//! The output is a line `ok NAME` for each, or `differs NAME` with the answers given, and the count. The exit status is 0 where all are as wanted,
//! 1 where one differs, and 3 where memory or a stream fails; standard error says what failed.
#![tactic(auto)]

mod example;
mod table;

use std::process::ExitCode;
use table::run;

/// The status where an example differs.
const DIFFERS: u8 = 1;

/// The status where memory or a stream failed.
const FAILED: u8 = 3;

fn main(rt: HostRuntime) -> ExitCode {
    match run(&rt) {
        Ok(true) => ExitCode::SUCCESS,
        Ok(false) => ExitCode::from(DIFFERS),
        Err(error) => {
            // A fault of the standard error is ignored.
            let _ = eprintln!(rt; "{error}");
            ExitCode::from(FAILED)
        }
    }
}
