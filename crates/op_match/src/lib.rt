//! Operators between two vectors, over steps that are lent: rows with equal signatures are paired.
//! Its rows of tests stand in `kernel_tests`.
#![tactic(auto)]

mod index;
mod joined;
mod kept;
mod labels;
pub mod laws;
mod meeting;
mod order;
mod putting;
mod renewal;
mod sides;

pub use joined::{Joined, are_together};
