//! What is asked for, joined into what is lent.
ghost use Rattle.op_gather.specs.Histories.{AreWell};
ghost use Rattle.op_gather.specs.Joined.{LendsJoined};
ghost use Rattle.std.specs.Prelude.{◌≡◌, ◌<◌, ◌∷◌, ◌^◌, [], length, OnOk};
ghost use Rattle.step_batch.specs.Lent.{stages};
ghost use Rattle.step_table.specs.WellFormed.{IsTable};

use crate::groups::join_groups;
use crate::joining::join_rows;
use crate::windows::join_windows;
use label_set::Items;
use remote_api::Ask;
use std::alloc::{AllocError, Global};
use step_batch::{StepBuffer, WindowBuffer};
use step_put::put_step;
use step_table::{PartKind, Step, StepCells};
use ticks::Ms;

/// Joins the steps of all engines at an instant, as windows where these are asked, else as a step, in the place of what was lent. The
/// only error is want of memory.
pub(crate) fn join(
    alloc: Global,
    ask: &Ask,
    at: Ms,
    steps: Items<StepCells>,
    buffer: &mut StepBuffer,
    windows: &mut WindowBuffer,
) -> Result<(), AllocError>
    requires few { length steps < 2 ^ 32 }
    requires well { AreWell ask.now steps }
    ensures { OnOk result (LendsJoined ask.now.kind at steps buffer.new windows.new) }
{
    match &ask.kind {
        PartKind::Rows => put_joined(alloc, buffer, at, &join_rows(alloc, steps)?),
        PartKind::Windows => join_windows(alloc, windows, at, steps),
        PartKind::Partial(f, _) => put_joined(alloc, buffer, at, &join_groups(alloc, *f, steps)?),
    }
}

/// Puts a step in the place of those before.
fn put_joined(alloc: Global, buffer: &mut StepBuffer, at: Ms, step: &Step) -> Result<(), AllocError>
    requires { IsTable step.now.table.rows }
    ensures { OnOk result (stages buffer.new ≡ record { at = at; step = step.now } ∷ []) }
{
    buffer.begin_feed();
    put_step(alloc, buffer, at, step)
}
