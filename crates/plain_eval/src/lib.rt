//! The meaning of a typed query at an instant, and its result over a grid, computed from the tree and the store.
//! Its rows of tests are the scripts of `tests/scripts`.
#![tactic(auto)]

mod aggregates;
mod calls;
mod elements;
mod evaluating;
mod givens;
mod laws;
mod operators;
mod results;
mod selecting;

pub use evaluating::{at, given};
pub use laws::{checked_patterns_are_kept, kept_patterns_stay};
pub use results::{is_scalar, order_asked, range};
pub use std::alloc::AllocError as Memory;
