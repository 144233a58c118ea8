//! What the steps of a tree of kernels come to over the instants of a grid, turn by turn.
#![tactic(auto)]

mod draining;
pub mod laws;

pub use draining::{Drained, drain};
