//! Engines for rows of tests: with written samples, and one that doesn't do what it is asked. This project's own.
#![tactic(auto)]

mod faulty;
mod samples;

pub use faulty::Faulty;
pub use samples::{engine_of, sample};
