//! An exchange: the gathers of one tree of operators over several engines. It makes all asks at once, and pulls for one gather at a time.
#![tactic(auto)]

mod asking;
mod exchange;
mod fault;
pub mod laws;
mod place;
mod pulling;
mod request;
mod turns;

pub use exchange::Exchange;
pub use fault::RunFault;
