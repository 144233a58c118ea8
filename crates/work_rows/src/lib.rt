//! What the plans of small queries may spend, worked out by hand. The functions do nothing: each stands for what its contract says.
#![tactic(auto)]

pub mod laws;
