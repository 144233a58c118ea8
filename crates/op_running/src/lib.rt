//! Windows that go on, with what is kept of their values: a function of a window then costs what the samples cost that come and go, and not
//! what all cost that lie in it. Its rows of tests stand in `kernel_tests`.
#![tactic(auto)]

mod extremes;
mod losses;
mod rates;
mod running;
mod summary;
mod totals;
mod window;

pub use window::RunningWindow;
