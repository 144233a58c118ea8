//! Whether the outcome of an evaluation is what a script expects of it, and the texts of outcomes and notes.
//! Its rows of tests stand in `language_tests`.
#![tactic(auto)]

mod beside;
mod failure_text;
mod joined;
mod judging;
mod label_pieces;
mod laws;
mod note_order;
mod note_text;
mod noted;
mod outcome_text;
mod paired;
mod pieces;
mod rounds;
mod series;
mod tested;
mod verdict;

pub use joined::{append_both, append_labelled};
pub use judging::judge;
pub use laws::{
    ordered_pass_is_pass, passes_exactly_where_each_line_holds, passes_exactly_where_series_agree,
    scripts_keep_their_patterns,
};
pub use note_text::{append_note, is_warning};
pub use outcome_text::append_outcome;
pub use std::alloc::AllocError as Memory;
pub use verdict::{Reason, Verdict};
