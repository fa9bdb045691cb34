//! What the programs over the standard streams share: their version, how their arguments are read and refused, why a collection isn't read to its end, and how
//! far its reading has come.
#![tactic(auto)]

mod collection;
mod progress;
mod words;

pub use collection::{Failure, GAMES, Place};
pub use progress::Progress;
pub use words::{Refused, flag, option, progress_flag, read_words, why_refused};

/// The version of the programs and the libraries, as the file VERSION has it.
pub const VERSION: &str = "0.2.0";

/// The exit status where the words after the program's name are refused, `--help` and `--version` among them.
pub const WORDS_REFUSED: u8 = 1;

/// The exit status where some games could not be read.
pub const SOME_REFUSED: u8 = 2;

/// The exit status where a stream failed or memory was refused.
pub const FAILED: u8 = 3;
