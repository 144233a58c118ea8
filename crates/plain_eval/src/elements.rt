//! Functions of values, windows and times, of what their arguments give.
ghost use Rattle.plain_eval.specs.Frames.{IsFramed};
ghost use Rattle.promql_meaning.specs.Elements.{timestamps};
ghost use Rattle.promql_meaning.specs.Givens.{scalar_step as step_of_scalar, step_of};
ghost use Rattle.promql_meaning.specs.Meaning.{absent, applied, over_windows, over_windows_with, ranged};
ghost use Rattle.promql_meaning.specs.declared.given.Given.TheVariants.{Scalar};
ghost use Rattle.std.specs.List.{AllByRecursion};
ghost use Rattle.std.specs.Prelude.{◌≡◌, slice_index_or, IfOk};
ghost use Rattle.xfrac.specs.Arithmetic.{whole_number};

use crate::givens::{take_first, take_step};
use func_table::{Element, Window};
use label_set::Items;
use promql_meaning::{Given, Selection, Windows, barren, map_rows, no_marks};
use std::alloc::{AllocError, Global};
use step_rules::{absence, applied_to, at_instant, scalar_step, stamps, windowed, windowed_with};
use step_table::Step;
use ticks::Ms;
use xfrac::whole;

/// An element function of a vector and of the scalars that it takes. The only error is want of memory.
#[tactic(auto, using(crate::proofs::Taken::second_is, crate::proofs::Taken::third_is, crate::proofs::Taken::other_is))]
pub fn applied(alloc: Global, f: Element, arguments: Items<Given>) -> Result<Step, AllocError>
    ensures { IfOk result (λ step. step ≡ applied f arguments) }
{
    let mut arguments = arguments;
    let step = take_step(alloc, &mut arguments)?;
    match f {
        Element::Round => {
            let to = rounding(alloc, arguments)?;
            applied_to(alloc, f, &to, &to, step)
        }
        Element::ClampMin | Element::ClampMax => {
            let bound = take_step(alloc, &mut arguments)?;
            applied_to(alloc, f, &bound, &bound, step)
        }
        Element::Clamp => {
            let low = take_step(alloc, &mut arguments)?;
            let high = take_step(alloc, &mut arguments)?;
            applied_to(alloc, f, &low, &high, step)
        }
        _ => map_rows(alloc, &step, f, &whole(0), &whole(0)),
    }
}

/// What is rounded to: the argument that is left, or else 1.
fn rounding(alloc: Global, arguments: Items<Given>) -> Result<Step, AllocError>
    ensures { IfOk result (λ step. step ≡ step_of (slice_index_or arguments 0 (Scalar (step_of_scalar (whole_number 1))))) }
{
    let mut arguments = arguments;
    if arguments.as_slice().is_empty() {
        return scalar_step(alloc, &whole(1));
    }
    take_step(alloc, &mut arguments)
}

/// A function of windows, and of the scalar that it takes. The only error is want of memory.
pub fn ranged(alloc: Global, f: Window, arguments: Items<Given>, t: Ms) -> Result<Step, AllocError>
    requires { AllByRecursion (IsFramed t.0) arguments }
    ensures { IfOk result (λ step. step ≡ ranged f t.0 arguments) }
{
    let mut arguments = arguments;
    match f {
        Window::PredictLinear => {
            let given = take_first(alloc, &mut arguments);
            let ahead = take_step(alloc, &mut arguments)?;
            with_scalar(alloc, f, &ahead, given, t)
        }
        Window::QuantileOver => {
            let quantile = take_step(alloc, &mut arguments)?;
            let given = take_first(alloc, &mut arguments);
            with_scalar(alloc, f, &quantile, given, t)
        }
        _ => alone(alloc, f, take_first(alloc, &mut arguments), t),
    }
}

/// A function of windows alone.
fn alone(alloc: Global, f: Window, given: Given, t: Ms) -> Result<Step, AllocError>
    requires { IsFramed t.0 given }
    ensures { IfOk result (λ step. step ≡ over_windows f t.0 given) }
{
    match given {
        Given::Windows(windows) => windowed(alloc, f, t, &whole(0), windows),
        _ => Ok(barren(alloc, no_marks(alloc))),
    }
}

/// A function of windows and a scalar, with the marks of both.
fn with_scalar(
    alloc: Global,
    f: Window,
    scalar: &Step,
    given: Given,
    t: Ms,
) -> Result<Step, AllocError>
    requires { IsFramed t.0 given }
    ensures { IfOk result (λ step. step ≡ over_windows_with f t.0 scalar.now given) }
{
    match given {
        Given::Windows(windows) => windowed_with(alloc, f, t, scalar, windows),
        _ => Ok(barren(alloc, no_marks(alloc))),
    }
}

/// The time of each sample of a selector in seconds; of any other vector the instant. The only error is want of memory.
pub fn timestamps(alloc: Global, given: Given, t: Ms) -> Result<Step, AllocError>
    ensures { IfOk result (λ step. step ≡ timestamps given t.0) }
{
    match given {
        Given::Selected(selection) => stamps(alloc, selection.rows.as_slice()),
        other => at_instant(alloc, other.into_step(alloc)?, t),
    }
}

/// One row 1 where a vector has no rows, or windows have none. The only error is want of memory.
pub fn absent(alloc: Global, given: Given) -> Result<Step, AllocError>
    ensures { IfOk result (λ step. step ≡ absent given) }
{
    match given {
        Given::Selected(selection) => {
            let Selection { rules, rows } = selection;
            absence(alloc, rules.as_slice(), rows.as_slice(), no_marks(alloc))
        }
        Given::Windows(windows) => {
            let Windows {
                rules,
                rows,
                marks,
                ..
            } = windows;
            absence(alloc, rules.as_slice(), rows.as_slice(), marks)
        }
        other => {
            let Step { table, marks } = other.into_step(alloc)?;
            absence(alloc, &[], table.rows.as_slice(), marks)
        }
    }
}
