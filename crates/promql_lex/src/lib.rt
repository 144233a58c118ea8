//! The tokens of a query's text.
//! Its rows of tests stand in `language_tests`.
#![tactic(auto)]

mod cut;
mod escape;
mod fault;
mod laws;
mod name;
mod number;
mod piece;
mod sign;
mod string;
mod token;
mod word;

pub use cut::tokens;
pub use fault::LexFault;
pub use laws::{
    bad_durations_have_units, kinds_are_of_spellings, refused_spellings_are_last,
    spans_lie_in_order,
};
pub use std::alloc::AllocError as Memory;
pub use token::{Token, TokenKind};
pub use word::{Word, word_of};
