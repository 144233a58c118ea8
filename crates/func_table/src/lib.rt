//! The names of PromQL: set operators, functions and aggregations, what a function's name stands for, and what each is called.
//! Its rows of tests stand in `number_tests`.
#![tactic(auto)]

mod names;
mod naming;
mod table;

pub use names::{find, listed_names_are_found};
pub use naming::{aggregate_name, functions_have_their_names, name};
pub use table::{Aggregate, CalendarPart, Element, Found, Func, SetOp, Window};
