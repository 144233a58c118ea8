//! The result of a query over a grid, collected from steps that are lent in batches.
//! Its rows of tests stand in `kernel_tests`.
#![tactic(auto)]

mod collected;
mod found;
pub mod laws;
mod series;

pub use collected::Collected;
