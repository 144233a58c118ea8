//! Which plans kernels serve, and that they serve the plan of a query.
#![tactic(auto)]

pub mod laws;
