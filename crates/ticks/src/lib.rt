//! Times and durations, in whole milliseconds.
#![tactic(auto)]

mod edge;
mod grid;
mod laws;
mod moment;
mod read;
mod refusal;
mod step;
mod unit;
mod walk;
mod work;
mod write;

pub use edge::{closed_windows_have_their_edge, last_before};
pub use grid::Grid;
pub use laws::{
    durations_are_found, instants_are_numbered, spellings_are_durations, walks_are_listed,
    walks_keep_to_times,
};
pub use moment::Ms;
pub use read::read_duration;
pub use refusal::TickRefusal;
pub use std::alloc::AllocError as Memory;
pub use walk::{Walk, WalkMoment};
pub use work::Work;
pub use write::write_duration;
