//! What engines owe of a part of a plan at one instant, and what the cells of all engines come to: the definitions, and laws that
//! users of engines rely on. It computes nothing, and has no rows of tests; the types of cells stand in `step_table`.
#![tactic(auto)]

pub mod laws;
