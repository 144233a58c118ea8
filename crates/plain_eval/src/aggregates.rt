//! Aggregations of what their arguments give.
ghost use Rattle.promql_meaning.specs.Meaning.{aggregation};
ghost use Rattle.std.specs.Prelude.{◌≡◌, IfOk};

use crate::givens::{take_step, take_words};
use func_table::Aggregate;
use label_set::{Grouping, Items};
use promql_meaning::{Given, group};
use std::alloc::{AllocError, Global};
use step_rules::aggregated_with;
use step_table::Step;
use xfrac::whole;

/// An aggregation of its parameter and the vector. The only error is want of memory.
#[tactic(auto, using(crate::proofs::Taken::second_is))]
pub fn aggregation(
    alloc: Global,
    f: Aggregate,
    by: &Grouping,
    arguments: Items<Given>,
) -> Result<Step, AllocError>
    ensures { IfOk result (λ step. step ≡ aggregation f by.now arguments) }
{
    let mut arguments = arguments;
    match f {
        Aggregate::TopK | Aggregate::BottomK | Aggregate::Quantile => {
            let parameter = take_step(alloc, &mut arguments)?;
            let step = take_step(alloc, &mut arguments)?;
            aggregated_with(alloc, f, by, "", &parameter, step)
        }
        Aggregate::CountValues => {
            let label = take_words(alloc, &mut arguments)?;
            let step = take_step(alloc, &mut arguments)?;
            group(alloc, &step, f, by, &whole(0), label.as_str())
        }
        _ => {
            let step = take_step(alloc, &mut arguments)?;
            group(alloc, &step, f, by, &whole(0), "")
        }
    }
}
