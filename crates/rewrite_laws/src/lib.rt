//! Laws of the rewrites of plans together: a typed plan stays typed, a valid one valid, one that kernels serve is served still, and
//! what stands under Once nodes is the same at each instant, so that each rewrite may follow any other.
#![tactic(auto)]

pub mod laws;
