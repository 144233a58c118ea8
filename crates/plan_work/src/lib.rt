//! What plans cost at most: a bound over the selectors of a plan, and that the trees of its parts stay within it; and how many
//! series their builds look at.
#![tactic(auto)]

pub mod laws;
