//! Where a kernel has come to among the samples of each series: marks that go forward, so that each sample is fetched once.
#![tactic(auto)]

mod advance;
pub mod laws;
mod mark;
mod renew;

pub use advance::{resumed, stands_at};
pub use mark::Mark;
pub use renew::{edge_since, place_behind, renewed};
