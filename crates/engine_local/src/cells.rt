//! What is owed at an instant, of what an expression gives there.
ghost use Rattle.engine_local.specs.Local.{HasFewRows};
ghost use Rattle.std.specs.Prelude.{◌≡◌, map, IfOk, OnOk};
ghost use Rattle.step_cells.specs.Owed.{cells, row_cells, value_cell, window_cell, window_cells, windows_at};

use crate::groups::partial_cells;
use label_set::Items;
use promql_meaning::{Given, Windows, no_marks};
use std::alloc::{AllocError, Global};
use step_table::{Cell, CellRow, PartKind, Row, Step, StepCells, WindowRow};
use ticks::Ms;

/// The cells of a kind at an instant. No memory holds so many rows that a group's count would be too large for a cell. The only error
/// is want of memory.
pub(crate) fn cells_of(
    alloc: Global,
    kind: &PartKind,
    at: Ms,
    given: Given,
) -> Result<StepCells, AllocError>
    ensures cells { IfOk result (λ step. step ≡ cells kind.now at given) }
    ensures few { OnOk result (HasFewRows kind.now given) }
{
    match kind {
        PartKind::Rows => {
            let step = given.into_step(alloc)?;
            row_cells(alloc, at, step)
        }
        PartKind::Windows => window_cells(alloc, at, given),
        PartKind::Partial(f, by) => {
            let step = given.into_step(alloc)?;
            partial_cells(alloc, *f, by, at, step)
        }
    }
}

/// A step's rows as cells.
fn row_cells(alloc: Global, at: Ms, step: Step) -> Result<StepCells, AllocError>
    ensures { IfOk result (λ cells. cells ≡ row_cells (record { at = at; step = step })) }
{
    let Step { table, marks } = step;
    let rows = value_cells(alloc, table.rows)?;
    Ok(StepCells { at, rows, marks })
}

fn value_cells(alloc: Global, rows: Items<Row>) -> Result<Items<CellRow>, AllocError>
    ensures { IfOk result (λ cells. cells ≡ map value_cell rows) }
{
    let mut cells = Items::new(alloc);
    for row in rows.into_vec() {
        let Row { labels, value } = row;
        let cell = Cell::Value(value);
        cells.push(CellRow { labels, cell })?;
    }
    Ok(cells)
}

/// Windows as cells; what gives none has no cells.
fn window_cells(alloc: Global, at: Ms, given: Given) -> Result<StepCells, AllocError>
    ensures { IfOk result (λ cells. cells ≡ window_cells (windows_at at given)) }
{
    match given {
        Given::Windows(windows) => {
            let Windows { rows, marks, .. } = windows;
            let rows = all_windows(alloc, rows)?;
            Ok(StepCells { at, rows, marks })
        }
        _ => Ok(StepCells {
            at,
            rows: Items::new(alloc),
            marks: no_marks(alloc),
        }),
    }
}

fn all_windows(alloc: Global, rows: Items<WindowRow>) -> Result<Items<CellRow>, AllocError>
    ensures { IfOk result (λ cells. cells ≡ map window_cell rows) }
{
    let mut cells = Items::new(alloc);
    for row in rows.into_vec() {
        let WindowRow {
            labels,
            times,
            values,
        } = row;
        let cell = Cell::Window { times, values };
        cells.push(CellRow { labels, cell })?;
    }
    Ok(cells)
}
