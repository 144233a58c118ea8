//! Where the `label_replace` calls of a query stand, so that a call's pattern is found by its place. Laws alone.
#![tactic(auto)]

pub mod laws;
