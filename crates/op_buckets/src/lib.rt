//! Quantiles of histograms, over steps that are lent.
//! Its rows of tests stand in `kernel_tests`.
#![tactic(auto)]

mod buckets;
mod groups;
mod kept_labels;
mod order;
mod split;

pub use buckets::Buckets;
