//! Rows of steps that are lent, of kernels, of what engines deliver and of what is collected, fed in batches of one step and of three.
//! The answers are worked out by hand.
#![tactic(auto)]

#[cfg(test)]
mod aggregates;
#[cfg(test)]
mod cells;
#[cfg(test)]
mod conditions;
#[cfg(test)]
mod counts;
#[cfg(test)]
mod delivered;
#[cfg(test)]
mod elements;
#[cfg(test)]
mod gathers;
#[cfg(test)]
mod joins;
#[cfg(test)]
mod modifiers;
#[cfg(test)]
mod no_engine;
#[cfg(test)]
mod orders;
#[cfg(test)]
mod ranks;
#[cfg(test)]
mod ratios;
#[cfg(test)]
mod refusals;
#[cfg(test)]
mod results;
#[cfg(test)]
mod sets;
#[cfg(test)]
mod shown;
#[cfg(test)]
mod small;
#[cfg(test)]
mod steps;
#[cfg(test)]
mod wanted;
#[cfg(test)]
mod windows;
#[cfg(test)]
mod written;
