//! The scalar of a function of windows, out of a batch that is fed beside them.
ghost use Rattle.op_window.specs.Rules.{HasScalars, fed_by, first_in, scalar_in, takes_scalar as wants_scalar};
ghost use Rattle.std.specs.Prelude.{◌≡◌, ◌<◌, Some, length, slice_get, IfOk};
ghost use Rattle.step_batch.specs.Lent.{stages};

use func_table::Window;
use promql_meaning::no_marks;
use std::alloc::{AllocError, Global};
use step_batch::{Batch, Slot};
use step_table::Marks;
use ticks::Ms;
use xfrac::{XFrac, whole};

/// The value of a scalar, unless it is lost to a fatal mark, and its marks.
#[derive(Drop)]
pub(crate) struct Scalar {
    pub value: Option<XFrac>,
    pub marks: Marks,
}

/// Whether a function takes a scalar beside its windows.
fn takes_scalar(f: Window) -> bool
    ensures { result ≡ wants_scalar f }
{
    matches!(f, Window::PredictLinear | Window::QuantileOver)
}

/// The value of the first slot.
fn value_of(slots: &[Slot]) -> Option<XFrac>
    ensures { result ≡ first_in slots.now }
{
    match slots {
        [] => None,
        [slot, ..] => Some(slot.value),
    }
}

/// The scalar of the step at a place, where the function takes one. The only error is want of memory.
pub(crate) fn scalar_at(
    alloc: Global,
    f: Window,
    at: &[Ms],
    arg: &Batch<'_>,
    i: usize,
) -> Result<Scalar, AllocError>
    requires there { i < length at.now }
    requires scalars { HasScalars f at.now arg.now }
    ensures { IfOk result (λ scalar. (s : _) → slice_get (fed_by f at.now (stages arg.now)) i ≡ Some s → scalar ≡ scalar_in f s.step) }
{
    if takes_scalar(f) {
        let marks = arg.marks(i).copy()?;
        Ok(Scalar {
            value: value_of(arg.slots(i)),
            marks,
        })
    } else {
        Ok(Scalar {
            value: Some(whole(0)),
            marks: no_marks(alloc),
        })
    }
}
