ghost use Rattle.promql_meaning.specs.Aggregations.{aggregate_notes as notes_of_aggregate, aggregate_of, aggregated, keyed_values, summarised};
ghost use Rattle.std.specs.Prelude.{◌≡◌, ◌<◌, IfOk, length};
ghost use Rattle.step_table.specs.Operators.{some_value as value_or_fault};
ghost use Rattle.window_fn.specs.Aggregates.{quantile_of as quantile_answer};

use crate::countings::counted;
use crate::groups::group_labels;
use crate::notes::{range_notes_of, with_notes};
use crate::ranks::ranked;
use func_table::Aggregate;
use label_set::{Grouping, Items, Labels};
use std::alloc::{AllocError, Global};
use step_table::{Note, Outcome, Row, Step, gather, some_value, taken};
use window_fn::aggregates::{average, count, greatest, least, total, variance};
use window_fn::{WindowFault, quantile};
use xfrac::{NumFault, XFrac, whole};

/// An aggregation of the rows of a step, by the labels that the grouping keeps. `arg` is the parameter of `TopK`, `BottomK`
/// and `Quantile`, `label` that of `CountValues`; the others read neither. No rows give no group. A group whose value
/// overflows is left out with the mark Overflow, and so is a row that `CountValues` has no labels for within the limits; a
/// parameter of `TopK` or `BottomK` that is NaN, or above 2^63 - 1 when it is cut to a whole number, leaves that mark and no
/// rows. A quantile outside 0 to 1 has a note where there is a group. The only error is want of memory. (Prometheus querying,
/// "Aggregation operators".)
pub fn group(
    alloc: Global,
    t: &Step,
    f: Aggregate,
    by: &Grouping,
    arg: &XFrac,
    label: &str,
) -> Result<Step, AllocError>
    ensures { IfOk result (λ step. step ≡ aggregated f by.now arg.now label.now t.now) }
{
    match f {
        Aggregate::TopK => ranked(alloc, t, by, true, arg),
        Aggregate::BottomK => ranked(alloc, t, by, false, arg),
        Aggregate::CountValues => counted(alloc, t, by, label),
        _ => summarised(alloc, t, f, by, arg),
    }
}

/// What an aggregation makes of the values of each group.
fn summarised(
    alloc: Global,
    t: &Step,
    f: Aggregate,
    by: &Grouping,
    q: &XFrac,
) -> Result<Step, AllocError>
    ensures { IfOk result (λ step. step ≡ summarised f by.now q.now t.now) }
{
    let rows = t.table.rows.as_slice();
    let marks = with_notes(alloc, t.marks.copy()?, aggregate_notes(alloc, f, q, rows)?)?;
    let mut outcomes = Items::new(alloc);
    for (labels, values) in gather(alloc, by_group(alloc, rows, by)?)? {
        outcomes.push(Outcome {
            labels,
            value: aggregate(alloc, f, q, values.as_slice())?,
        })?;
    }
    taken(alloc, marks, outcomes)
}

/// Each row's value beside the labels of its group.
fn by_group(
    alloc: Global,
    rows: &[Row],
    by: &Grouping,
) -> Result<Items<(Labels, XFrac)>, AllocError>
    ensures { IfOk result (λ pairs. pairs ≡ keyed_values by.now rows.now) }
{
    let mut pairs = Items::new(alloc);
    for row in rows {
        pairs.push((group_labels(by, &row.labels)?, row.value))?;
    }
    Ok(pairs)
}

fn aggregate_notes(
    alloc: Global,
    f: Aggregate,
    q: &XFrac,
    rows: &[Row],
) -> Result<Items<Note>, AllocError>
    ensures { IfOk result (λ notes. notes ≡ notes_of_aggregate f q.now rows.now) }
{
    match f {
        Aggregate::Quantile => range_notes_of(alloc, q, rows),
        _ => Ok(Items::new(alloc)),
    }
}

/// What an aggregation makes of the values of a group: its value or that of a fault. The only error is want of memory, by
/// `Quantile` alone.
fn aggregate(
    alloc: Global,
    f: Aggregate,
    q: &XFrac,
    values: &[XFrac],
) -> Result<Result<Option<XFrac>, NumFault>, AllocError>
    requires { 0 < length values.now }
    ensures { IfOk result (λ value. value ≡ aggregate_of f q.now values.now) }
{
    match f {
        Aggregate::Sum => Ok(some_value(total(values))),
        Aggregate::Avg => Ok(some_value(average(values))),
        Aggregate::Min => Ok(Ok(Some(least(values)))),
        Aggregate::Max => Ok(Ok(Some(greatest(values)))),
        Aggregate::Count => Ok(Ok(Some(count(values)))),
        Aggregate::Group => Ok(Ok(Some(whole(1)))),
        Aggregate::Stdvar => Ok(some_value(variance(values))),
        Aggregate::Quantile => quantile_of(alloc, q, values),
        Aggregate::TopK | Aggregate::BottomK | Aggregate::CountValues => Ok(Ok(None)),
    }
}

fn quantile_of(
    alloc: Global,
    q: &XFrac,
    values: &[XFrac],
) -> Result<Result<Option<XFrac>, NumFault>, AllocError>
    requires { 0 < length values.now }
    ensures { IfOk result (λ value. value ≡ value_or_fault (quantile_answer q.now values.now)) }
{
    match quantile(alloc, q, values) {
        Ok(value) => Ok(Ok(Some(value))),
        Err(WindowFault::Overflow) => Ok(Err(NumFault::Overflow)),
        Err(WindowFault::Memory) => Err(AllocError),
    }
}
