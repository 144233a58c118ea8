//! The tree of a query, and why a query's text is refused.
//! Its rows of tests stand in `language_tests`.
#![tactic(auto)]

mod edge;
mod equal;
mod laws;
mod refusal;
mod tree;

pub use edge::{edged_trees_stay, edges_are_set, last_edge_counts};
pub use laws::depths_are_by_nodes;
pub use refusal::QueryRefusal;
pub use tree::{Expr, Fixed, Moment, Node, Selector};
