//! Scripts of the promqltest format, read from the bytes of a file.
//! Its rows of tests stand in `language_tests`.
#![tactic(auto)]

mod command;
mod cut;
mod expectation;
mod fault;
mod item;
mod laws;
mod line;
mod quote;
mod reader;
mod rows;
mod script;
mod series;
mod word;

pub use fault::ReadFault;
pub use laws::{
    each_script_is_read, items_are_told, lines_are_told, refusals_are_of_first_lines,
    what_is_read_is_a_script,
};
pub use reader::{FILE_LIMIT, read};
pub use script::{
    Command, Expectations, Expected, Script, ScriptRefusal, SeriesItem, SeriesLine, Wanted, What,
};
pub use std::alloc::AllocError as Memory;
