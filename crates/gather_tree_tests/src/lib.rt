//! Rows of trees whose leaves are gathers over two engines: beside each other, inside a subquery and below a Once node. The answers are
//! worked out by hand.
#![tactic(auto)]

#[cfg(test)]
mod gathers;
#[cfg(test)]
mod parts;
#[cfg(test)]
mod samples;
#[cfg(test)]
mod trees;
#[cfg(test)]
mod turns;
