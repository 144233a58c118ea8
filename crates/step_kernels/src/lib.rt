//! Kernels by how many parts of a query they are fed: one, or two at the same instants. Each gives of each step what its rule says.
#![tactic(auto)]

mod binary;
pub mod laws;
mod unary;

pub use binary::{Binary, BinaryRule, is_binary, takes_scalar};
pub use unary::{Unary, UnaryRule, is_unary};
