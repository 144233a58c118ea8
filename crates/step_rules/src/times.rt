//! Times as numbers.
ghost use Rattle.promql_meaning.specs.Elements.{at_instant, seconds_of, stamps, time_step};
ghost use Rattle.std.specs.Prelude.{◌≡◌, IfOk};

use label_set::{Items, Labels};
use promql_meaning::{Stamped, no_marks};
use std::alloc::{AllocError, Global};
use step_table::{Outcome, Step, settled, taken, without_name};
use ticks::Ms;
use xfrac::{ArithOp, NumFault, XFrac, arith, whole};

/// A time as a number of seconds.
pub fn seconds_of(t: Ms) -> Result<Option<XFrac>, NumFault>
    ensures { result ≡ seconds_of t.0 }
{
    match arith(ArithOp::Div, &whole(t.0), &whole(1000)) {
        Ok(value) => Ok(Some(value)),
        Err(fault) => Err(fault),
    }
}

/// The instant in seconds, as a scalar. The only error is want of memory.
pub fn time_step(alloc: Global, t: Ms) -> Result<Step, AllocError>
    ensures { IfOk result (λ step. step ≡ time_step t.0) }
{
    let mut outcomes = Items::new(alloc);
    outcomes.push(Outcome {
        labels: Labels::empty(alloc),
        value: seconds_of(t),
    })?;
    taken(alloc, no_marks(alloc), outcomes)
}

/// The time of each sample in seconds, under its labels without the name. The only error is want of memory.
pub fn stamps(alloc: Global, rows: &[Stamped]) -> Result<Step, AllocError>
    ensures { IfOk result (λ step. step ≡ stamps rows.now) }
{
    let mut outcomes = Items::new(alloc);
    for row in rows {
        outcomes.push(Outcome {
            labels: without_name(alloc, &row.labels)?,
            value: seconds_of(row.at),
        })?;
    }
    settled(alloc, taken(alloc, no_marks(alloc), outcomes)?)
}

/// The instant in seconds in the place of each value, under its labels without the name. The only error is want of memory.
pub fn at_instant(alloc: Global, step: Step, t: Ms) -> Result<Step, AllocError>
    ensures { IfOk result (λ s. s ≡ at_instant t.0 step) }
{
    let Step { table, marks } = step;
    let mut outcomes = Items::new(alloc);
    for row in table.rows.as_slice() {
        outcomes.push(Outcome {
            labels: without_name(alloc, &row.labels)?,
            value: seconds_of(t),
        })?;
    }
    settled(alloc, taken(alloc, marks, outcomes)?)
}
