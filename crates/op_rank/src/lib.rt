//! The aggregations that read a parameter or a label, topk, bottomk, quantile and count_values, over steps that are lent.
//! Its rows of tests stand in `kernel_tests`.
#![tactic(auto)]

mod best;
mod contenders;
mod entries;
mod first_rows;
mod groups;
mod label_order;
pub mod laws;
mod quantiles;
mod ranked;
mod value_counts;
mod value_labels;

pub use ranked::{Ranked, is_ranking};
