//! The small kernels: numbers, the time, stamps, scalars and vectors out of each other, and what is absent.
//! Its rows of tests stand in `kernel_tests`.
#![tactic(auto)]

mod ones;
mod rows;
mod rule;
mod small;

pub use rule::SmallRule;
pub use small::Small;
