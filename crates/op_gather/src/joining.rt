//! The cells of all engines at one instant, brought together, and their rows joined.
ghost use Rattle.op_gather.specs.Joins.{as_sets, rows_joined, with_sets};
ghost use Rattle.std.specs.List.{filter_map};
ghost use Rattle.std.specs.List.Sorted.{IsPermutation};
ghost use Rattle.std.specs.Prelude.{◌≡◌, ◌++◌, map, IfOk, OnOk};
ghost use Rattle.step_cells.specs.Joined.{all_cells, all_marks, cell_row};
ghost use Rattle.step_table.specs.WellFormed.{AreSets, IsTable};

use label_set::Items;
use promql_meaning::no_marks;
use std::alloc::{AllocError, Global};
use step_table::laws::{steps_are_well_formed, unions_are_sets};
use step_table::order_laws::rows_ignore_order;
use step_table::{Cell, CellRow, Marks, Row, Step, StepCells, as_set, settled, step_of_rows};

/// The cells of all engines, with all marks and notes.
#[derive(Drop)]
pub(crate) struct AllCells {
    pub cells: Items<CellRow>,
    pub marks: Marks,
}

/// The cells of the steps of all engines, with their marks and notes as sets. The only error is want of memory.
pub(crate) fn together(alloc: Global, steps: Items<StepCells>) -> Result<AllCells, AllocError>
    ensures cells { IfOk result (λ t. t.cells ≡ all_cells (map with_sets steps)) }
    ensures marks { IfOk result (λ t. t.marks ≡ all_marks (map with_sets steps)) }
    ensures sets { IfOk result (λ t. AreSets t.marks) }
{
    unions_are_sets();
    let mut cells = Items::new(alloc);
    let mut marks = no_marks(alloc);
    for step in steps.into_vec() {
        let StepCells {
            rows,
            marks: more,
            ..
        } = step;
        marks.unite(&sets_of(alloc, more)?)?;
        append(&mut cells, rows)?;
    }
    Ok(AllCells { cells, marks })
}

/// Marks and notes in their order, each once. The only error is want of memory.
fn sets_of(alloc: Global, marks: Marks) -> Result<Marks, AllocError>
    ensures same { IfOk result (λ m. m ≡ as_sets marks) }
    ensures sets { IfOk result AreSets }
{
    let Marks { fatal, notes } = marks;
    Ok(Marks {
        fatal: as_set(alloc, fatal)?,
        notes: as_set(alloc, notes)?,
    })
}

fn append(cells: &mut Items<CellRow>, more: Items<CellRow>) -> Result<(), AllocError>
    ensures { OnOk result (cells.new ≡ cells.old ++ more) }
{
    for cell in more.into_vec() {
        cells.push(cell)?;
    }
    Ok(())
}

/// The rows of the steps of all engines, in the order of labels; rows that share labels are left out with their mark. The only error
/// is want of memory.
pub(crate) fn join_rows(alloc: Global, steps: Items<StepCells>) -> Result<Step, AllocError>
    ensures joined { IfOk result (λ step. step ≡ rows_joined steps) }
    ensures table { IfOk result (λ step. IsTable step.table.rows) }
{
    steps_are_well_formed();
    rows_ignore_order();
    let all = together(alloc, steps)?;
    let rows = rows_of(alloc, all.cells)?;
    let sorted = in_order(rows);
    settled(alloc, step_of_rows(sorted, all.marks))
}

/// The rows of cells that have a value. The only error is want of memory.
fn rows_of(alloc: Global, cells: Items<CellRow>) -> Result<Items<Row>, AllocError>
    ensures { IfOk result (λ rows. rows ≡ filter_map cell_row cells) }
{
    let mut rows = Items::new(alloc);
    for row in cells.into_vec() {
        let CellRow { labels, cell } = row;
        match cell {
            Cell::Value(value) => rows.push(Row { labels, value })?,
            _ => {}
        }
    }
    Ok(rows)
}

/// The rows in the order of their labels, so that they needn't be copied to be parted. It takes no memory.
fn in_order(rows: Items<Row>) -> Items<Row>
    ensures { IsPermutation rows result }
{
    let mut sorted = rows.into_vec();
    sorted.sort_unstable_by(|a, b| a.labels.cmp(&b.labels));
    Items::from_vec(sorted)
}
