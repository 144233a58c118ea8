//! The functions of one value at a time, on exact numbers.
//! Its rows of tests stand in `number_tests`.
#![tactic(auto)]

mod formulas;
mod laws;

pub use formulas::element;
pub use laws::{clamp_is_both_halves, rounding_is_nearest};
