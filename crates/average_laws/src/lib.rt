//! Laws of the averages in plans: each ratio of a plan is a sum and a count of equal arguments by one grouping, also behind the rewrite that
//! splits averages. It computes nothing, and has no rows of tests.
#![tactic(auto)]

pub mod laws;
