//! Rows of queries over a few series, in a store or at engines, and what comes of each. The answers are worked out elsewhere.
#![tactic(auto)]

#[cfg(test)]
mod compared;
#[cfg(test)]
mod over;
#[cfg(test)]
mod results;
