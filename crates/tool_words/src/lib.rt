//! The words of the program: the command that they name, and what it is asked for.
//! Its rows of tests stand in `program_tests`.
#![tactic(auto)]

mod asked;
mod build;
mod engines;
mod instants;
mod laws;
mod matches;
mod number;
mod opts;
mod read;

pub use asked::{Asked, Choices, Optimisers};
pub use engines::engines_by;
pub use laws::{
    batches_are_asked_for, commands_are_simple, edges_are_asked_for, words_say_what_they_spell,
};
pub use read::read_words;
pub use std::alloc::AllocError as Memory;
