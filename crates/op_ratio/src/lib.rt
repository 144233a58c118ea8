//! A sum divided by a count, row by row over steps that are lent.
#![tactic(auto)]

mod dividing;
mod numbering;
mod ratios;

pub use ratios::Ratios;
