//! Steps as texts, as the rows of kernels' tests have them: read, cut into feeds, and compared with what is lent.
//! This project's own.
#![tactic(auto)]

mod batches;
mod cases;
mod groups;
mod operators;
mod words;
mod written;

pub use batches::{are_lent, blank_of, buffer_of, has_same_steps};
pub use cases::{Case, Feed, line_that_differs, parted};
pub use groups::{aggregate, grouping};
pub use operators::operator;
pub use words::{labels, names, value};
pub use written::steps;
