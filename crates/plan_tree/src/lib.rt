//! A plan's tree of kernels: it is fed instants, and lends the steps that its plan has there.
#![tactic(auto)]

mod arms;
mod copying;
mod feeding;
mod gathering;
pub mod laws;
mod node;
mod outside;
mod tree;
mod turns;

pub use node::Node;
pub use outside::Outside;
pub use tree::Tree;
pub use turns::Fed;
