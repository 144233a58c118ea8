//! Rewrites of the rules of selectors.
#![tactic(auto)]

mod handing;
mod keys;
mod ordering;
mod propagating;

pub use ordering::sort;
pub use propagating::propagate;
