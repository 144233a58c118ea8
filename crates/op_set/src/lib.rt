//! Set operators between two vectors, over steps that are lent.
//! Its rows of tests stand in `kernel_tests`.
#![tactic(auto)]

mod choose;
mod combined;
mod rising;
mod sides;

pub use combined::Combined;
