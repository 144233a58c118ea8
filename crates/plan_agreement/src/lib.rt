//! Laws of plans that agree: plans give the same steps, or steps that have the mark Overflow on both sides. It computes nothing, and has
//! no rows of tests.
#![tactic(auto)]

pub mod laws;
