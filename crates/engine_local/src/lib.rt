//! An engine over samples of its own, which tells all that it holds and never fails.
#![tactic(auto)]

mod asks;
mod cells;
mod engine;
mod groups;
mod own;
mod patterns;
mod pulling;

pub use engine::LocalEngine;
