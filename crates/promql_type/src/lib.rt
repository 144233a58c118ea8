//! The types of queries: what an expression gives, and why a query that can be read is refused all the same.
//! Its rows of tests stand in `language_tests`.
#![tactic(auto)]

mod checking;
mod judge;
mod kind;
mod laws;
mod least;
mod literal;
mod points;
mod replace;
mod rules;
mod settle;
mod signature;
mod template;
mod typed_tree;

pub use checking::check;
pub use laws::{edges_are_typed_alike, least_is_first, typed_trees_fit};
pub use typed_tree::{TypeFault, Typed};
