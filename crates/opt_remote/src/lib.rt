//! Plans whose selectors engines are asked for.
#![tactic(auto)]

mod gathering;
pub mod laws;

pub use gathering::gather_selectors;
