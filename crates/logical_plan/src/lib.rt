//! Plans of queries: what they mean, the plan of a typed tree, and the expression of a plan.
#![tactic(auto)]

mod copying;
mod exprs;
mod laws;
mod lowering;
mod nodes;
mod onces;
mod parts;
mod steadiness;
mod typed_plan;

pub use exprs::part_expr;
pub use laws::{
    checked_trees_are_within_limits, kept_patterns_are_placed, onces_keep_meanings,
    onces_keep_validity, plans_mean_their_trees, steady_plans_stay,
};
pub use nodes::{Plan, PlanNode};
pub use onces::with_onces;
pub use typed_plan::lower;
