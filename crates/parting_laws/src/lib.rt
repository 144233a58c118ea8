//! Laws of samples that are parted over engines: what a query means over a part of them, and what the parts come to together. It
//! computes nothing, and has no rows of tests.
#![tactic(auto)]

pub mod laws;
