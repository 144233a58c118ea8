//! Rewrites of plans: one node at a time, over children that are rewritten already.
#![tactic(auto)]

mod rewriting;
mod rule_lists;

pub use rewriting::{Rewrite, rewritten};
pub use rule_lists::{has_rule, is_part};
