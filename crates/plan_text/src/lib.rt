//! The lines that explain a plan.
//! Its rows of tests stand in `print_tests`.
#![tactic(auto)]

mod lines;
mod words;

pub use lines::write;
pub use std::alloc::AllocError as Memory;
