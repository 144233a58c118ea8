//! Element functions, and operators between a vector and a scalar.
ghost use Rattle.promql_meaning.specs.Elements.{mapped, operated_rows, operated_with};
ghost use Rattle.promql_meaning.specs.Givens.{with_scalar, with_scalars};
ghost use Rattle.promql_meaning.specs.Meaning.{applied_to, zero_number};
ghost use Rattle.std.specs.Prelude.{◌≡◌, IfOk};
ghost use Rattle.step_table.specs.Operators.{unnamed};

use crate::scalars::{marked, value_in};
use func_table::Element;
use label_set::{Items, Labels};
use promql_meaning::{barren, map_rows};
use std::alloc::{AllocError, Global};
use step_table::{Outcome, Step, drops_name, operate, settled, taken, without_name};
use xfrac::{NumFault, PairOp, XFrac, compare, whole};

/// An element function of a vector and of the scalars that it takes: `first` is what `Round` rounds to or a bound, `second` the
/// upper bound of `Clamp`; the other functions read neither. The only error is want of memory. (Prometheus querying,
/// "Functions".)
pub fn applied_to(
    alloc: Global,
    f: Element,
    first: &Step,
    second: &Step,
    step: Step,
) -> Result<Step, AllocError>
    ensures { IfOk result (λ s. s ≡ applied_to f first.now second.now step) }
{
    match f {
        Element::Round | Element::ClampMin | Element::ClampMax => with_one(alloc, f, first, step),
        Element::Clamp => clamped(alloc, first, second, step),
        _ => map_rows(alloc, &step, f, &whole(0), &whole(0)),
    }
}

/// An element function of a vector and one scalar.
fn with_one(alloc: Global, f: Element, scalar: &Step, step: Step) -> Result<Step, AllocError>
    ensures { IfOk result (λ s. s ≡ with_scalar (λ a. mapped f a zero_number) scalar.now step) }
{
    let step = marked(&scalar.marks, step)?;
    match value_in(scalar) {
        Some(value) => map_rows(alloc, &step, f, &value, &whole(0)),
        None => Ok(barren(alloc, step.marks)),
    }
}

fn clamped(alloc: Global, low: &Step, high: &Step, step: Step) -> Result<Step, AllocError>
    ensures { IfOk result (λ s. s ≡ with_scalars (mapped Element.Clamp) low.now high.now step) }
{
    let step = marked(&high.marks, marked(&low.marks, step)?)?;
    match (value_in(low), value_in(high)) {
        (Some(low), Some(high)) => map_rows(alloc, &step, Element::Clamp, &low, &high),
        _ => Ok(barren(alloc, step.marks)),
    }
}

/// The minus of each row, which loses its name. The only error is want of memory.
pub fn negated(alloc: Global, step: &Step) -> Result<Step, AllocError>
    ensures { IfOk result (λ s. s ≡ mapped Element.Neg zero_number zero_number step.now) }
{
    map_rows(alloc, step, Element::Neg, &whole(0), &whole(0))
}

/// An operator between the rows of a vector and a scalar, which is the left operand or the right one. The only error is
/// want of memory.
pub fn with_operand(
    alloc: Global,
    op: PairOp,
    scalar_left: bool,
    scalar: &Step,
    step: Step,
) -> Result<Step, AllocError>
    ensures { IfOk result (λ s. s ≡ with_scalar (operated_rows op scalar_left) scalar.now step) }
{
    let step = marked(&scalar.marks, step)?;
    match value_in(scalar) {
        Some(value) => operated_rows(alloc, op, scalar_left, &value, step),
        None => Ok(barren(alloc, step.marks)),
    }
}

fn operated_rows(
    alloc: Global,
    op: PairOp,
    scalar_left: bool,
    scalar: &XFrac,
    step: Step,
) -> Result<Step, AllocError>
    ensures { IfOk result (λ s. s ≡ operated_rows op scalar_left scalar.now step) }
{
    let Step { table, marks } = step;
    let mut outcomes = Items::new(alloc);
    for row in table.rows.into_vec() {
        outcomes.push(Outcome {
            value: operated_with(op, scalar_left, scalar, &row.value),
            labels: left_labels(alloc, op, row.labels)?,
        })?;
    }
    settled(alloc, taken(alloc, marks, outcomes)?)
}

/// What an operator gives of the value of a row and a scalar, which is the left operand or the right one; a filter keeps the
/// row's value, or gives nothing.
pub fn operated_with(
    op: PairOp,
    scalar_left: bool,
    scalar: &XFrac,
    value: &XFrac,
) -> Result<Option<XFrac>, NumFault>
    ensures { result ≡ operated_with op scalar_left scalar.now value.now }
{
    if !scalar_left {
        return operate(op, value, scalar);
    }
    match op {
        PairOp::Filter(c) => Ok(if compare(c, scalar, value) {
            Some(*value)
        } else {
            None
        }),
        _ => operate(op, scalar, value),
    }
}

/// The labels that an operator leaves.
fn left_labels(alloc: Global, op: PairOp, labels: Labels) -> Result<Labels, AllocError>
    ensures { IfOk result (λ l. l ≡ unnamed op labels) }
{
    if drops_name(op) {
        without_name(alloc, &labels)
    } else {
        Ok(labels)
    }
}
