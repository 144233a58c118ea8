//! Steps and windows that are lent, and the buffers that lend them.
//! Its rows of tests stand in `kernel_tests`.
#![tactic(auto)]

mod batch;
mod buffer;
pub mod laws;
mod slices;
mod steps;
mod window_buffer;
mod windows;

pub use batch::Batch;
pub use buffer::StepBuffer;
pub use slices::Slices;
pub use steps::Slot;
pub use window_buffer::WindowBuffer;
pub use windows::Windows;
