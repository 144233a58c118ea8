//! The ring of a subquery: it is fed the steps of the inner expression one after another, and lends the windows of one outer
//! instant after another.
//! Its rows of tests stand in `kernel_tests`.
#![tactic(auto)]

mod hand;
pub mod laws;
mod points;
mod raised;
mod span;
mod waiting;

pub use points::Points;
