//! The series of a plan's selectors and of the filters over them, found once before the plan's tree is made.
#![tactic(auto)]

mod bases;
mod kept;
pub mod laws;
mod leaves;
mod lists;
mod rule_list;
mod testing;

pub use bases::Bases;
pub use kept::{are_rules_kept, is_kept_whole};
pub use leaves::Leaf;
