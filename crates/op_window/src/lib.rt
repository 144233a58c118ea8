//! Functions of windows, instant by instant, over the store with cursors that go forward, or over windows that are lent.
//! Its rows of tests stand in `kernel_tests`.
#![tactic(auto)]

mod fill;
pub mod laws;
mod made;
mod named;
mod renew;
mod rows;
mod scalar;
mod step;
mod walked;

pub use rows::WindowRows;
