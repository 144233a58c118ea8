//! The rules of one step as calls: on steps, on the rows that one series or group has, and on texts and values alone, so that
//! nothing that computes a query writes them again.
//! Its rows of tests are the scripts of `tests/scripts`.
#![tactic(auto)]

mod absences;
mod aggregates;
mod buckets;
mod elements;
pub mod laws;
mod orders;
mod points;
mod ranges;
mod relabels;
mod scalars;
mod templates;
mod times;

pub use absences::{absence, absence_under, absent_labels};
pub use aggregates::aggregated_with;
pub use buckets::{
    Quantile, bound_of, bucket_quantiles, histogram_quantile, quantile_of_merged,
    quantile_of_rising,
};
pub use elements::{applied_to, negated, operated_with, with_operand};
pub use orders::{ByValue, in_order, root_order};
pub use points::{Points, add_step, earlier, instants_up_to, multiples, window_of, windows_over};
pub use ranges::{name_note, window_labels, window_value, windowed, windowed_with};
pub use relabels::{Replacing, joined_values, label_joined, label_replaced, replaced_labels};
pub use scalars::{as_scalar, marked, scalar_step, value_in};
pub use templates::expanded;
pub use times::{at_instant, seconds_of, stamps, time_step};
