//! The evaluation of a board, in centipawns: what each man is worth on its square, White's less Black's, tapered from the
//! middlegame to the endgame by the weights of the men that are left.
//!
//! `middle`, `end` and `weight` are the tables; `Sum` keeps the sums of a placement and follows its changes, and `white` is
//! the evaluation. Contracts speak of the definitions `middle_of`, `end_of` and `weight_of` (`specs/Worth.antt`) and
//! `evaluation` (`specs/Evaluation.antt`), and see a `Sum` as three numbers.
#![tactic(auto)]

mod sum;
mod worths;

pub use sum::Sum;
pub use worths::{end, middle, weight};
