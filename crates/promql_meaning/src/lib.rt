//! What a query means at an instant and over a grid: the definitions, in the words of the Prometheus querying documentation,
//! the types of a result, and the calls on steps that stand beside them.
//! Its rows of tests stand in `table_tests`.
#![tactic(auto)]

mod aggregates;
mod answer;
mod buckets;
mod countings;
mod elements;
mod given;
mod groups;
pub mod laws;
mod limits;
mod notes;
mod ranks;

pub use aggregates::group;
pub use answer::{Answer, Outcome, Point, ResultSeries};
pub use buckets::Bucket;
pub use elements::map_rows;
pub use given::{Given, Selection, Stamped, Windows, barren, no_marks};
pub use limits::{labels_with, without_label};
pub use notes::{is_outside, range_notes, range_notes_of, with_notes};
pub use ranks::value_order;
