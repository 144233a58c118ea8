//! Averages as sums divided by counts.
#![tactic(auto)]

mod averages;
mod nesting;

pub use averages::apply;
