//! A function of the windows of a subquery: it is fed the steps of the inner expression one after another, and gives the step of one
//! outer instant after another.
#![tactic(auto)]

mod rows;

pub use rows::SubqueryRows;
