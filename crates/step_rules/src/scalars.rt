//! Scalars as steps of one row, and steps with the marks of other parts.
ghost use Rattle.promql_meaning.specs.Givens.{marked, scalar_step, value_in};
ghost use Rattle.promql_meaning.specs.Meaning.{as_scalar, value_of_one};
ghost use Rattle.std.specs.Prelude.{◌≡◌, IfOk};

use label_set::{Items, Labels};
use promql_meaning::no_marks;
use std::alloc::{AllocError, Global};
use step_table::{Marks, Row, Step, step_of_rows};
use xfrac::XFrac;

/// A table of one row without labels. The only error is want of memory.
pub fn scalar_step(alloc: Global, value: &XFrac) -> Result<Step, AllocError>
    ensures { IfOk result (λ step. step ≡ scalar_step value.now) }
{
    let mut rows = Items::new(alloc);
    rows.push(Row {
        labels: Labels::empty(alloc),
        value: *value,
    })?;
    Ok(step_of_rows(rows, no_marks(alloc)))
}

/// The value of a scalar, unless its row is lost to a fatal mark.
pub fn value_in(scalar: &Step) -> Option<XFrac>
    ensures { result ≡ value_in scalar.now }
{
    match scalar.table.rows.as_slice() {
        [] => None,
        [row, ..] => Some(row.value),
    }
}

/// A step with the marks of another part. The only error is want of memory.
pub fn marked(marks: &Marks, step: Step) -> Result<Step, AllocError>
    ensures { IfOk result (λ s. s ≡ marked marks.now step) }
{
    let mut step = step;
    step.marks.unite(marks)?;
    Ok(step)
}

/// The value of the one row of a vector, else NaN, as a scalar. The only error is want of memory. (Prometheus querying,
/// `scalar()`.)
pub fn as_scalar(alloc: Global, step: Step) -> Result<Step, AllocError>
    ensures { IfOk result (λ s. s ≡ as_scalar step) }
{
    let value = value_of_one(step.table.rows.as_slice());
    let mut rows = Items::new(alloc);
    rows.push(Row {
        labels: Labels::empty(alloc),
        value,
    })?;
    Ok(step_of_rows(rows, step.marks))
}

fn value_of_one(rows: &[Row]) -> XFrac
    ensures { result ≡ value_of_one rows.now }
{
    match rows {
        [row] => row.value,
        _ => XFrac::NaN,
    }
}
