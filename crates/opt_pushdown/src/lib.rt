//! Filters over selectors become selectors.
#![tactic(auto)]

mod pushing;

pub use pushing::push;
