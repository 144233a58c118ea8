//! Rewrites of what a plan selects and sorts: a selector stands over another one that has a part of its rules, and sorts that order
//! nothing that is seen go.
#![tactic(auto)]

mod bases;
mod candidates;
mod found;
mod keyed;
mod kinds;
mod merging;
mod trimming;

pub use merging::merge;
pub use trimming::trim;
