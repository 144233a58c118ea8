//! The windows of all engines, joined.
ghost use Rattle.op_gather.specs.Cells.{AreWindowCells};
ghost use Rattle.op_gather.specs.Joins.{windows_joined};
ghost use Rattle.std.specs.List.{AllByRecursion, filter_map, list_any};
ghost use Rattle.std.specs.List.Sorted.{IsStrictlySortedBy};
ghost use Rattle.std.specs.Prelude.{◌≡◌, ◌++◌, ◌∷◌, [], false, map, IfOk, OnOk};
ghost use Rattle.label_set.specs.LabelEquality.{labels_eq};
ghost use Rattle.label_set.specs.Labels.{labels_cmp};
ghost use Rattle.step_batch.specs.LentWindows.{IsWindow, names_of};
ghost use Rattle.step_cells.specs.Joined.{window_under};
ghost use Rattle.step_table.specs.Outcomes.{keyed_by};
ghost use Rattle.step_table.specs.Unions.{with_fatal};
ghost use Rattle.step_table.specs.declared.marks.Mark.TheVariants.{SameLabelset};

use crate::joining::together;
use label_set::{Items, Labels};
use std::alloc::{AllocError, Global};
use step_batch::WindowBuffer;
use step_table::{Cell, CellRow, Mark, Marks, StepCells, WindowRow, as_set, part};
use ticks::Ms;

/// Fills a buffer with the windows of all engines at an instant, in the order of labels; windows that share labels are left out with
/// their mark. The only error is want of memory.
pub(crate) fn join_windows(
    alloc: Global,
    buffer: &mut WindowBuffer,
    at: Ms,
    steps: Items<StepCells>,
) -> Result<(), AllocError>
    requires { AllByRecursion AreWindowCells steps }
    ensures { OnOk result (buffer.new ≡ windows_joined at steps) }
{
    let all = together(alloc, steps)?;
    let mut marks = all.marks;
    let windows = windows_of(alloc, all.cells)?;
    let parted = part(alloc, windows)?;
    add_shared(alloc, &mut marks, parted.shared)?;
    buffer.begin(at);
    buffer.unite(&marks)?;
    put_all(buffer, parted.lone.as_slice())
}

/// Windows, each beside its labels. The only error is want of memory.
fn windows_of(
    alloc: Global,
    cells: Items<CellRow>,
) -> Result<Items<(Labels, WindowRow)>, AllocError>
    ensures { IfOk result (λ windows. windows ≡ keyed_by (λ w. w.labels) (filter_map (λ row. window_under row.labels row.cell) cells)) }
{
    let mut windows = Items::new(alloc);
    for row in cells.into_vec() {
        let CellRow { labels, cell } = row;
        match cell {
            Cell::Window { times, values } => windows.push((
                labels.copy()?,
                WindowRow {
                    labels,
                    times,
                    values,
                },
            ))?,
            _ => {}
        }
    }
    Ok(windows)
}

/// Adds a mark for each labels that windows share. The only error is want of memory.
fn add_shared(alloc: Global, marks: &mut Marks, shared: Items<Labels>) -> Result<(), AllocError>
    ensures { OnOk result (marks.new ≡ with_fatal marks.old (map SameLabelset shared)) }
{
    let fatal = as_set(alloc, marks_of(alloc, shared)?)?;
    let notes = Items::new(alloc);
    marks.unite(&Marks { fatal, notes })
}

fn marks_of(alloc: Global, shared: Items<Labels>) -> Result<Items<Mark>, AllocError>
    ensures { IfOk result (λ marks. marks ≡ map SameLabelset shared) }
{
    let mut marks = Items::new(alloc);
    for labels in shared.into_vec() {
        marks.push(Mark::SameLabelset(labels))?;
    }
    Ok(marks)
}

/// Puts windows in the order of their labels into a buffer that has none.
fn put_all(buffer: &mut WindowBuffer, windows: &[WindowRow]) -> Result<(), AllocError>
    requires empty { buffer.old.rows ≡ [] }
    requires sorted { IsStrictlySortedBy labels_cmp (names_of windows.now) }
    requires windows { AllByRecursion IsWindow windows.now }
    ensures { OnOk result (buffer.new ≡ record { at = buffer.old.at; rows = windows.now; marks = buffer.old.marks }) }
{
    for window in windows {
        put_one(buffer, window)?;
    }
    Ok(())
}

fn put_one(buffer: &mut WindowBuffer, window: &WindowRow) -> Result<(), AllocError>
    requires window { IsWindow window.now }
    requires fresh { list_any (labels_eq window.now.labels) (names_of buffer.old.rows) ≡ false }
    ensures { OnOk result (buffer.new ≡ record { at = buffer.old.at; rows = buffer.old.rows ++ window.now ∷ []; marks = buffer.old.marks }) }
{
    buffer.put(
        &window.labels,
        window.times.as_slice(),
        window.values.as_slice(),
    )
}
