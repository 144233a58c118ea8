//! Element functions, and operators between a vector and a scalar, row by row over steps that are lent.
//! Its rows of tests stand in `kernel_tests`.
#![tactic(auto)]

mod elements;
mod formula;

pub use elements::{ElementRows, is_scalar};
pub use formula::ElementRule;
