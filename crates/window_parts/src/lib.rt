//! The trees of functions of windows, over series, over windows that engines give and over subqueries, which stand over the trees of
//! their scalars and, of a subquery, over the tree of its inner expression.
#![tactic(auto)]

mod asked;
mod given;
mod over;
mod scalars;
mod selectors;

pub use asked::is_gathered;
pub use given::gathered;
pub use over::{Subquery, inside, points, series};
