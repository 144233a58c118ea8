//! Texts of numbers and times.
//! Its rows of tests stand in `number_tests`.
#![tactic(auto)]

mod decimal;
mod digits;
mod hexadecimal;
mod laws;
mod read;
mod refusal;
mod time;
mod value;
mod write;

pub use decimal::{are_digits, is_optional_run, split_fraction};
pub use digits::run_length;
pub use laws::{
    decimals_end_by_the_hundredth, durations_are_times, numbers_are_told, spellings_are_numbers,
    times_are_told,
};
pub use read::{read_number, read_script_number};
pub use refusal::{NumberRefusal, TimeRefusal};
pub use std::alloc::AllocError as Memory;
pub use time::read_time;
pub use write::{NumberText, spelled, write_number};
