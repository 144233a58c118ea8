//! Running a promqltest script: its loads, and the line of the verdict of each of its evaluations; and answering a query over
//! what it loads.
//! Its rows of tests stand in `program_tests`.
#![tactic(auto)]

mod alone;
mod answering;
mod batch;
mod begun;
mod boxes;
mod evaluation;
mod fault;
mod into;
mod laws;
mod load;
mod lost;
mod over;
mod placing;
mod running;
mod scripts;
mod storing;
mod text;
mod totals;

pub use answering::answer;
pub use fault::{LoadRefusal, RunnerFault};
pub use laws::{each_evaluation_has_one_verdict, engines_leave_the_same, loads_put_their_samples};
pub use scripts::run;
pub use totals::Totals;
