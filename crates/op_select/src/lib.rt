//! The newest rows of series, with cursors that go forward. Its rows of tests stand in `kernel_tests`.
#![tactic(auto)]

pub mod laws;
mod rows;
mod select;

pub use select::Select;
