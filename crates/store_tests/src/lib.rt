//! Rows of labels, patterns, the sample store, and the files and sinks of a run. The answers are worked out elsewhere.
#![tactic(auto)]

#[cfg(test)]
mod labels;
#[cfg(test)]
mod outside;
#[cfg(test)]
mod patterns;
#[cfg(test)]
mod rows;
#[cfg(test)]
mod stores;
