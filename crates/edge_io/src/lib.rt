//! The outside of the tool: where files come from, and where the report goes.
//! Its rows of tests stand in `store_tests`.
#![tactic(auto)]

mod library;
mod memory;
mod sink;
mod system;

pub use library::{Fetch, Fetched, Library};
pub use memory::{MemLibrary, MemSink};
pub use sink::{Sink, SinkFail, write_all};
pub use system::{StdLibrary, StdSink};
