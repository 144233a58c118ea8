//! Aggregations with their parameters.
ghost use Rattle.promql_meaning.specs.Aggregations.{aggregated};
ghost use Rattle.promql_meaning.specs.Givens.{with_scalar};
ghost use Rattle.promql_meaning.specs.Meaning.{aggregated_with};
ghost use Rattle.std.specs.Prelude.{◌≡◌, [], IfOk};

use crate::scalars::{marked, value_in};
use func_table::Aggregate;
use label_set::Grouping;
use promql_meaning::{barren, group};
use std::alloc::{AllocError, Global};
use step_table::Step;
use xfrac::whole;

/// An aggregation of a vector: `parameter` is the scalar of topk, bottomk and quantile, and `label` that of count_values; the
/// other aggregations read neither. The only error is want of memory. (Prometheus querying, "Aggregation operators".)
pub fn aggregated_with(
    alloc: Global,
    f: Aggregate,
    by: &Grouping,
    label: &str,
    parameter: &Step,
    step: Step,
) -> Result<Step, AllocError>
    ensures { IfOk result (λ s. s ≡ aggregated_with f by.now label.now parameter.now step) }
{
    match f {
        Aggregate::TopK | Aggregate::BottomK | Aggregate::Quantile => {
            with_parameter(alloc, f, by, parameter, step)
        }
        Aggregate::CountValues => group(alloc, &step, f, by, &whole(0), label),
        _ => group(alloc, &step, f, by, &whole(0), ""),
    }
}

/// An aggregation with a scalar as its parameter.
fn with_parameter(
    alloc: Global,
    f: Aggregate,
    by: &Grouping,
    parameter: &Step,
    step: Step,
) -> Result<Step, AllocError>
    ensures { IfOk result (λ s. s ≡ with_scalar (λ a. aggregated f by.now a []) parameter.now step) }
{
    let step = marked(&parameter.marks, step)?;
    match value_in(parameter) {
        Some(value) => group(alloc, &step, f, by, &value, ""),
        None => Ok(barren(alloc, step.marks)),
    }
}
