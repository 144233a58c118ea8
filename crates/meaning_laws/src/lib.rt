//! Laws of what queries mean, in a crate of their own so that a new law proves nothing below anew. It computes nothing, and has no
//! rows of tests.
#![tactic(auto)]

pub mod laws;
