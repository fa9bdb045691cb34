//! Tests of `chess_queries`, `chess_walk`, `chess_edit` and `chess_report` by their public calls. They are in a crate of their own, so that nothing of
//! those is proved again for them.
#![tactic(auto)]

#[cfg(test)]
mod tests;
