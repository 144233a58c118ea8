//! The tree of kernels of each kind of node of a plan, over the trees of its children.
#![tactic(auto)]

mod asking;
mod course;
mod gathers;
mod kept;
pub mod kinds;
pub mod laws;
mod parts;
mod selectors;
mod unbuilt;

pub use asking::are_rising;
pub use course::Course;
pub use gathers::gather;
pub use parts::{Part, repeated, select, series_of, settled};
pub use selectors::{InstantSelector, instant_selector};
pub use unbuilt::Unbuilt;
