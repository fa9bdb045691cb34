//! Tests of `chess_positions` by its public calls. They are in a crate of their own, so that nothing of it is proved again for them.
#![tactic(auto)]

#[cfg(test)]
mod tests;
