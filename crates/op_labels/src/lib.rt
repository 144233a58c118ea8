//! New labels for rows, and rows and windows whose labels pass rules, over steps and windows that are lent.
//! Its rows of tests stand in `kernel_tests`.
#![tactic(auto)]

mod change;
mod kept_labels;
mod passing_windows;
mod relabelled;

pub use relabelled::Relabelled;
