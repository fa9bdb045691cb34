//! Tests of `chess_pgn` by its public calls. They are in a crate of their own, so that nothing of `chess_pgn` is proved again for them.
#![tactic(auto)]

#[cfg(test)]
mod tests;
