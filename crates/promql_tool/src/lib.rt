//! The runner for promqltest scripts, as one call over words, files and a sink.
//! Its rows of tests stand in `program_tests`.
#![tactic(auto)]

mod boxes;
mod fault;
mod fetch;
mod files;
mod judge;
mod laws;
mod print;
mod printing;
mod query;
mod text;
mod tool;
mod working;
mod workload;

pub use fault::{Lost, Refusal};
pub use laws::{choices_leave_reports, words_have_one_report};
pub use print::Status;
pub use tool::run_tool;
pub use workload::{loaded_line, workload_text};
