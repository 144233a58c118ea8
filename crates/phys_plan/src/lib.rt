//! Trees of kernels for plans.
#![tactic(auto)]

mod building;
mod growing;
pub mod laws;
mod site;

pub use building::build;
pub use plan_parts::Unbuilt;
