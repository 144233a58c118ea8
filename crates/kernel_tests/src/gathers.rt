//! Gathers over the instants 10, 20 and so on up to 50, and what they lend.
ghost use Rattle.kernel_tests.specs.Rooms.{TakesFrame};
ghost use Rattle.std.specs.Prelude.{IsTrue};

use op_gather::Gather;
use std::alloc::{AllocError, Global};
use std::slice;
use std::test::Fail;
use step_batch::Windows;
use step_table::{PartKind, Row, Step};
use ticks::{Grid, Ms, Walk, WalkMoment};
use written_steps::are_lent;

/// A gather of so many engines over a grid, whose windows are open on the left and 10 milliseconds long.
fn gather_over(
    alloc: Global,
    engines: u32,
    grid: Grid,
    kind: &PartKind,
) -> Result<Gather, AllocError> {
    let moment = WalkMoment {
        fixed: None,
        offset: Ms(0),
        closed: false,
    };
    Gather::new(alloc, engines, &Walk::Grid(grid), kind, &moment, Ms(10))
}

/// A gather of so many engines over the instants that the rows stand at.
pub fn gather_of(alloc: Global, engines: u32, kind: &PartKind) -> Result<Gather, Fail> {
    let grid = Grid::of(Ms(10), Ms(50), Ms(10))?;
    Ok(gather_over(alloc, engines, grid, kind)?)
}

/// Whether a gather that isn't spent has room for an engine.
pub fn has_room(gather: &Gather, engine: u32) -> bool
    ensures { IsTrue result → TakesFrame gather.now engine }
{
    !gather.is_spent() && (engine as usize) < gather.engines() && gather.room(engine)
}

/// Whether a lent window is that of a row.
fn is_window(windows: &Windows<'_>, i: usize, at: Ms, row: &Row) -> bool {
    let times = [Ms(at.0.saturating_sub(5)), at];
    let values = [row.value, row.value];
    i < windows.len()
        && windows.labels(i).is_same(&row.labels)
        && windows.times(i) == times.as_slice()
        && windows.values(i) == values.as_slice()
}

/// Whether the windows that are lent are those of the rows of a step, in their order.
fn are_windows(windows: &Windows<'_>, at: Ms, step: &Step) -> bool {
    let rows = step.table.rows.as_slice();
    if windows.len() != rows.len() || !windows.marks().is_same(&step.marks) {
        return false;
    }
    for i in 0..rows.len() {
        if !is_window(windows, i, at, &rows[i]) {
            return false;
        }
    }
    windows.at().0 == at.0
}

/// Whether the step that is lent is this one.
fn is_lent(gather: &Gather, kind: &PartKind, wanted: &(Ms, Step)) -> bool {
    match kind {
        PartKind::Windows => are_windows(&gather.lend_windows(), wanted.0, &wanted.1),
        _ => are_lent(&gather.lend(), slice::from_ref(wanted)),
    }
}

/// Takes the next step where it is ready, and answers whether it was.
pub fn take_next(gather: &mut Gather) -> Result<bool, Fail> {
    if gather.is_spent() || !gather.ready() {
        return Ok(false);
    }
    gather.take()?;
    Ok(true)
}

/// Takes each step that is ready, and answers how many were taken by then; an error where another one is lent than is wanted.
pub fn take_ready(
    gather: &mut Gather,
    kind: &PartKind,
    wanted: &[(Ms, Step)],
    taken: usize,
) -> Result<usize, Fail> {
    for i in taken..wanted.len() {
        if !take_next(gather)? {
            return Ok(i);
        }
        if !is_lent(gather, kind, &wanted[i]) {
            return Err("another step is lent")?;
        }
    }
    Ok(wanted.len())
}
