//! Patterns, kept built under numbers, and the rules that test a label's value.
//! Its rows of tests stand in `store_tests`.
#![tactic(auto)]

mod built;
mod kept;
mod patterns;
mod plain;
mod room;
mod rules;
mod spans;

pub use label_set::Memory;
pub use patterns::{PatternRefusal, Patterns};
pub use room::PatternRoom;
pub use rules::{labels_pass, passes};
pub use spans::Spans;
