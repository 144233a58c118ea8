//! What is shown of a cell, as one number.
use func_table::Aggregate;
use std::test::Fail;
use step_table::Cell;
use xfrac::{SumAcc, XFrac, whole_count};

/// Whether an aggregation makes cells like this one: sums for `sum` and `avg`, values for `min` and `max`, counts for the others.
fn is_of(f: Aggregate, cell: &Cell) -> bool {
    match f {
        Aggregate::Sum | Aggregate::Avg => matches!(cell, Cell::Sum(_)),
        Aggregate::Min | Aggregate::Max => matches!(cell, Cell::Value(_)),
        _ => matches!(cell, Cell::Count(_)),
    }
}

/// The mean of a sum, or its value where the mean passes the limits of numbers.
fn mean(sum: &SumAcc) -> Result<XFrac, Fail> {
    if sum.count() == 0 {
        return Err("a sum of no values")?;
    }
    Ok(sum.mean().unwrap_or(sum.value()))
}

fn total(f: Aggregate, sum: &SumAcc) -> Result<XFrac, Fail> {
    match f {
        Aggregate::Avg => mean(sum),
        _ => Ok(sum.value()),
    }
}

/// The number of a cell: the value of a sum, the mean of one for `avg`, a least or greatest value, or how many rows there are.
/// An error where the aggregation makes no such cells.
pub fn number(f: Aggregate, cell: &Cell) -> Result<XFrac, Fail> {
    if !is_of(f, cell) {
        return Err("a cell of another kind")?;
    }
    match cell {
        Cell::Value(value) => Ok(*value),
        Cell::Sum(sum) => total(f, sum),
        Cell::Count(count) => Ok(whole_count(*count as u128)),
        Cell::Window { .. } => Err("a window")?,
    }
}
