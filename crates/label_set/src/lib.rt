//! Labels, which name a series: distinct pairs of a name and a value, in byte order of the names. With them the data
//! types that speak of labels: rules, groupings, pairings and changes of labels.
//! Its rows of tests stand in `store_tests`.
#![tactic(auto)]

mod label_text;
mod labels;
mod pairs;
mod rules;
mod spans;

pub use holders::{Boxed, Items, Memory, Text};
pub use label_text::append_quoted;
pub use labels::{LabelRefusal, Labels, METRIC_NAME, equality_is_tie, order_is_total};
pub use rules::{Card, Grouping, Pairing, PatternId, Relabel, Rule, RuleKind};
