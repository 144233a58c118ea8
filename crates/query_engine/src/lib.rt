//! What the text of a query comes to over the samples of a store or of engines, its typed tree, and its plan.
//! Its rows of tests stand in `query_tests`.
#![tactic(auto)]

mod engines;
mod evaluating;
mod options;
mod planning;
mod reading;
mod streaming;

pub use engines::{lose, move_last};
pub use evaluating::evaluate;
pub use options::Options;
pub use planning::rewritten;
pub use reading::typed_tree;
pub use std::alloc::AllocError as Memory;
