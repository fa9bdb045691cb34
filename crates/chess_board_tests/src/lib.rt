//! Tests of the crates from `chess_types` to `chess_draws`, by their public calls. They are in a crate of their own, so that nothing of
//! those crates is proved again for them.
#![tactic(auto)]

#[cfg(test)]
mod tests;
