//! The rewrites of plans that are chosen, one after another.
#![tactic(auto)]

mod choosing;

pub use choosing::{Choices, evaluated, rewritten};
