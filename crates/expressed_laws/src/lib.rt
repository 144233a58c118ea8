//! Laws of plans that have expressions: what is true of the expression of such a plan. It computes nothing, and has no rows of tests.
#![tactic(auto)]

pub mod laws;
