//! Rows of an exchange over two engines with samples of their own. The answers are worked out by hand.
#![tactic(auto)]

#[cfg(test)]
mod asks;
#[cfg(test)]
mod exchanges;
#[cfg(test)]
mod faults;
#[cfg(test)]
mod gathers;
#[cfg(test)]
mod lent;
#[cfg(test)]
mod runs;
#[cfg(test)]
mod samples;
