//! Aggregations of groups of rows, over steps that are lent. Its rows of tests stand in `kernel_tests`.
#![tactic(auto)]

mod groups;
mod kernel;
pub mod laws;
mod owed;
mod putting;
mod tally;

pub use kernel::{Grouped, is_grouped, is_partial};
