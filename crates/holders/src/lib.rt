//! A text, a list and a box, which contracts see as what they hold: its bytes, its items, its value.
//! Copies are equal to what they copy, wherever the two lie in memory.
//! Its rows of tests stand in `number_tests`.
#![tactic(auto)]

mod boxed;
mod items;
mod text;

pub use boxed::Boxed;
pub use items::Items;
pub use std::alloc::AllocError as Memory;
pub use text::Text;
