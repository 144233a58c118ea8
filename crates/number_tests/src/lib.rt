//! Rows of numbers, times, their texts, and the functions of values and of windows. The answers are worked out elsewhere.
#![tactic(auto)]

#[cfg(test)]
mod fractions;
#[cfg(test)]
mod functions;
#[cfg(test)]
mod holding;
#[cfg(test)]
mod names;
#[cfg(test)]
mod numbers;
#[cfg(test)]
mod texts;
#[cfg(test)]
mod times;
#[cfg(test)]
mod windows;
