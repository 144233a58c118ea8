//! Laws of canonical texts.
#![tactic(auto)]

mod laws;

pub use laws::canonical_texts_are_read;
