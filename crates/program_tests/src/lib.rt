//! Rows of the program: words, runs of scripts, and whole reports. The answers are worked out elsewhere.
#![tactic(auto)]

#[cfg(test)]
mod engines;
#[cfg(test)]
mod gathered;
#[cfg(test)]
mod reports;
#[cfg(test)]
mod rows;
#[cfg(test)]
mod runs;
#[cfg(test)]
mod shelf;
#[cfg(test)]
mod words;
#[cfg(test)]
mod workloads;
