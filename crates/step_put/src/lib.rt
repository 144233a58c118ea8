//! Steps that were made whole or row by row, put into the buffers that lend them.
//! Its rows of tests stand in `kernel_tests`.
#![tactic(auto)]

mod cells;
mod clashing;
mod faults;
mod labels_left;
mod outcome_buffer;
mod own_places;
mod owners;
mod placed;
mod put;
mod rising;

pub use labels_left::Left;
pub use outcome_buffer::OutcomeBuffer;
pub use own_places::Placing;
pub use placed::PlacedOutcome;
pub use put::put_step;
