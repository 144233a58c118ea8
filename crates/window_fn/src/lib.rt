//! The functions over the samples in a window, and the aggregations over values, on exact numbers.
//! Its rows of tests stand in `number_tests`.
#![tactic(auto)]

pub mod aggregates;
mod frame;
mod increases;
pub mod laws;
mod points;
mod quantiles;
mod slopes;
mod steps;
mod sums;
mod windows;

pub use frame::{WindowFault, WindowFrame};
pub use increases::{Layout, carried, layout_of};
pub use points::in_seconds;
pub use quantiles::quantile;
pub use slopes::is_finite;
pub use windows::over;
