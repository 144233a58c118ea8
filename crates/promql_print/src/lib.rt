//! The canonical text of a query's tree, and the texts of its parts.
//! Its rows of tests are the texts of `tests/texts.cases`.
#![tactic(auto)]

mod canonical;
mod labels;
mod operators;
mod times;

pub use canonical::print;
pub use labels::{append_rules_in_braces, pattern_text};
pub use operators::{append_grouping, append_pair_operator, append_set_operator};
pub use std::alloc::AllocError as Memory;
pub use times::{append_number, append_range, append_select, append_steps};
