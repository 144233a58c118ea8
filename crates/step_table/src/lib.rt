//! Steps: what an expression gives at one instant, as a table of rows with notes and marks, and the rules between two
//! vectors.
//! Its rows of tests stand in `table_tests`.
#![tactic(auto)]

mod cells;
mod groups;
pub mod laws;
mod marks;
mod matching;
mod operators;
pub mod order_laws;
mod orders;
mod outcomes;
mod set_operators;
mod step;
mod unions;
mod windows;

pub use cells::{Cell, CellRow, PartKind, StepCells};
pub use groups::{Parted, add, gather, part, part_groups};
pub use marks::{Mark, Marks, Note};
pub use matching::{labelled, pair};
pub use operators::{drops_name, not_taken, operate, put_one, some_value, without_name};
pub use outcomes::{Outcome, by_labels, settled, taken};
pub use set_operators::combine;
pub use step::{Row, Step, Table, step_of_rows};
pub use unions::as_set;
pub use windows::WindowRow;
