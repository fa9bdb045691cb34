//! The examples of the standard input, run one after another and counted.

use crate::example::Example;
use std::io;

/// How many examples there were, and how many of them the board answered otherwise.
#[derive(Clone, Copy, Debug, Default, PartialEq, Eq)]
struct Tally {
    examples: u64,
    differing: u64,
}

impl Tally {
    /// One example more.
    fn count(&mut self, is_met: bool) {
        self.examples = self.examples.saturating_add(1);
        if !is_met {
            self.differing = self.differing.saturating_add(1);
        }
    }
}

/// Whether the line says nothing of an example: it is empty, or a heading.
fn is_passed_over(line: &str) -> bool {
    line.is_empty() || line.starts_with("=")
}

/// Takes a line of an example up. `false` where it is of no such form.
fn take(example: &mut Example, line: &str) -> io::Result<bool> {
    if let Some(asked) = line.strip_prefix("< ") {
        example.ask(asked)?;
    } else if let Some(wanted) = line.strip_prefix("> ") {
        example.want(wanted)?;
    } else if !is_passed_over(line) {
        return Ok(false);
    }
    Ok(true)
}

/// Runs the examples of the standard input. Whether the board answers each as wanted, and each line is of the table's form.
///
/// # Errors
///
/// That of the stream that failed, and want of memory.
pub fn run(rt: &HostRuntime) -> io::Result<bool> {
    let text = io::read_to_string(rt.alloc(), rt.stdin())?;
    let mut tally = Tally::default();
    let mut current: Option<Example> = None;
    for line in text.lines() {
        if let Some(name) = line.strip_prefix("# ") {
            if let Some(example) = &current {
                tally.count(example.is_met(rt)?);
            }
            current = Some(Example::new(rt.alloc(), name));
        } else if let Some(example) = &mut current {
            if !take(example, line)? {
                tally.count(false);
                println!(rt; "not of the table's form: {line}")?;
            }
        }
    }
    if let Some(example) = &current {
        tally.count(example.is_met(rt)?);
    }
    let Tally {
        examples,
        differing,
    } = tally;
    println!(rt; "{examples} examples, {differing} differing")?;
    Ok(differing == 0)
}
