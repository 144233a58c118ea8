//! Rows of tables, the operators between two vectors, element functions and aggregations. The answers are worked out elsewhere.
#![tactic(auto)]

#[cfg(test)]
mod aggregations;
#[cfg(test)]
mod tables;
#[cfg(test)]
mod written;
