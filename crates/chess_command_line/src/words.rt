//! How the words after a program's name are read, and why they are refused.

use crate::{FAILED, WORDS_REFUSED};
use clap::error::ErrorKind;
use clap::{Arg, ArgAction, Error};
use std::alloc::{AllocError, Global};
use std::process::ExitCode;
use std::rt::Env;
use std::{env, io};

/// Why the words after a program's name ask for no work.
#[derive(Debug, Drop)]
pub enum Refused {
    /// They ask how the program is used, or for its version. The text says so.
    Help(String),
    /// They are none of the program's. The text says what is wrong and how the program is used.
    Words(String),
    /// There was no memory to read them.
    Memory,
}

impl From<AllocError> for Refused {
    fn from(_error: AllocError) -> Refused {
        Refused::Memory
    }
}

impl Refused {
    /// Writes the text, to the standard output where it was asked for and else to the standard error, and answers the exit status. A fault of these
    /// streams is ignored.
    pub fn end(self, rt: &HostRuntime) -> ExitCode {
        match self {
            Refused::Help(text) => {
                let _ = print!(rt; "{text}");
                ExitCode::from(WORDS_REFUSED)
            }
            Refused::Words(message) => {
                let _ = eprint!(rt; "{message}");
                ExitCode::from(WORDS_REFUSED)
            }
            Refused::Memory => {
                let _ = eprintln!(rt; "out of memory");
                ExitCode::from(FAILED)
            }
        }
    }
}

// The text of what clap found.
fn text(alloc: Global, error: Error) -> Result<String, AllocError> {
    format!(in alloc; "{error}")
}

/// Why clap refused the words.
pub fn why_refused(alloc: Global, error: Error) -> Refused {
    let kind = error.kind();
    if kind == ErrorKind::OutOfMemory {
        return Refused::Memory;
    }
    match text(alloc, error) {
        Ok(text) if kind == ErrorKind::DisplayHelp || kind == ErrorKind::DisplayVersion =>
            Refused::Help(text),
        Ok(text) => Refused::Words(text),
        Err(AllocError) => Refused::Memory,
    }
}

/// `--name`, which may be there.
pub fn flag<'a>(alloc: Global, name: &'a str, help: &'a str) -> Arg<'a> {
    Arg::new(alloc, name)
        .long(name)
        .help(help)
        .action(ArgAction::SetTrue)
}

/// `--name VALUE`, which may be there.
pub fn option<'a>(alloc: Global, name: &'a str, help: &'a str) -> Arg<'a> {
    Arg::new(alloc, name)
        .long(name)
        .help(help)
        .action(ArgAction::Set)
}

/// `--progress`, where `Progress` is asked for.
pub fn progress_flag<'a>(alloc: Global) -> Arg<'a> {
    flag(
        alloc,
        "progress",
        "bytes and games so far, once a second, on the standard error",
    )
}

/// The words that the program was called with, its name first.
pub fn read_words(rt: &(impl Env + AllocGlobal)) -> Result<Vec<String>, Refused> {
    match env::args(rt) {
        Ok(args) => Ok(args.collect::<Vec<String>>(rt.alloc())?),
        Err(error) if error.kind() == io::ErrorKind::OutOfMemory => Err(Refused::Memory),
        // A word that is no text.
        Err(error) => Err(Refused::Words(format!(in rt.alloc(); "error: {error}\n")?)),
    }
}
