//! Tests of `chess_search` by its public calls. They are in a crate of their own, so that nothing of `chess_search` is proved again for them.
#![tactic(auto)]

#[cfg(test)]
mod tests;
