//! The trees of queries, by the grammar of the Prometheus querying documentation.
//! Its rows of tests stand in `language_tests`.
#![tactic(auto)]

mod build;
mod laws;
mod number;
mod query;
mod reader;

pub use laws::{
    each_query_is_read, queries_are_open, queries_lie_within_limits, refusals_stand,
    unexpected_is_first, what_is_read_is_a_query, what_no_query_goes_on_with_is_refused,
};
pub use query::parse;
