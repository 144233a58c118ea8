//! The exchange core: the cells that several engines deliver for the instants of a walk, joined at each instant.
#![tactic(auto)]

mod gather;
mod groups;
mod joined;
mod joining;
pub mod laws;
mod queue;
mod windows;

pub use gather::{Gather, GatherRefusal};
