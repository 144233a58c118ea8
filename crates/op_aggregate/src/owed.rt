//! What is kept of the groups of steps for an engine that is asked for their cells.
ghost use Rattle.op_aggregate.specs.OwedCells.{cell_at, cells_at, has_lost, named_cell, owed_step as step_owed, placed_cell, row_under};
ghost use Rattle.std.specs.List.{AllByRecursion, filter_map};
ghost use Rattle.std.specs.Option.{option_map, option_to_list};
ghost use Rattle.std.specs.Prelude.{◌≡◌, ◌<◌, ◌++◌, ◌∷◌, [], Some, fold, length, map, if◌then◌else◌, IfOk, OnOk};
ghost use Rattle.step_batch.specs.Tables.{in_order, put_into};

use crate::groups::Groups;
use crate::putting::overflow_marks;
use label_set::{Items, Labels};
use std::alloc::{AllocError, Global};
use std::collections::BTreeMap;
use step_table::{Cell, CellRow, Marks, StepCells};
use ticks::Ms;

/// The cell of a group, by the place of its labels.
#[derive(Drop)]
pub(crate) struct PlacedCell {
    pub place: usize,
    pub cell: Cell,
}

/// The cells of the groups of a step, with its instant and its marks and notes.
#[derive(Drop)]
pub(crate) struct OwedStep {
    pub at: Ms,
    pub cells: Items<PlacedCell>,
    pub marks: Marks,
}

/// The cells of the groups of each step, where they are asked for.
#[derive(Drop)]
pub(crate) struct Owed {
    pub wanted: bool,
    pub steps: Vec<OwedStep>,
}

impl Owed {
    /// Keeps the cells of the groups of a step, if they are asked for. The only error is want of memory.
    pub(crate) fn keep(
        &mut self,
        alloc: Global,
        at: Ms,
        marks: &Marks,
        groups: &Groups,
    ) -> Result<(), AllocError>
        requires { AllByRecursion (λ p. p < length groups.now.all.items) groups.now.filled.items }
        ensures wanted { self.new.wanted ≡ self.old.wanted }
        ensures steps { OnOk result (self.new.steps.items ≡ self.old.steps.items ++ (if self.old.wanted then step_owed at marks.now groups.now.all.items groups.now.filled.items ∷ [] else [])) }
    {
        if !self.wanted {
            return Ok(());
        }
        let step = owed_step(alloc, at, marks, groups)?;
        self.steps.push(step)?;
        Ok(())
    }
}

/// What is kept of a step.
fn owed_step(alloc: Global, at: Ms, marks: &Marks, groups: &Groups) -> Result<OwedStep, AllocError>
    requires { AllByRecursion (λ p. p < length groups.now.all.items) groups.now.filled.items }
    ensures { IfOk result (λ step. step ≡ step_owed at marks.now groups.now.all.items groups.now.filled.items) }
{
    let mut all = marks.copy()?;
    all.unite(&overflow_marks(alloc, has_lost(groups))?)?;
    Ok(OwedStep {
        at,
        cells: cells_of(alloc, groups)?,
        marks: all,
    })
}

/// The cells of groups, each by the place of its labels.
fn cells_of(alloc: Global, groups: &Groups) -> Result<Items<PlacedCell>, AllocError>
    requires { AllByRecursion (λ p. p < length groups.now.all.items) groups.now.filled.items }
    ensures { IfOk result (λ cells. cells ≡ filter_map (placed_cell groups.now.all.items) groups.now.filled.items) }
{
    let mut cells = Items::new(alloc);
    for place in groups.filled.as_slice() {
        let cell = cell_at(groups, *place);
        push_cell(&mut cells, *place, cell)?;
    }
    Ok(cells)
}

/// Puts a cell behind others, if there is one.
fn push_cell(
    cells: &mut Items<PlacedCell>,
    place: usize,
    cell: Option<Cell>,
) -> Result<(), AllocError>
    ensures { OnOk result (cells.new ≡ cells.old ++ option_to_list (option_map (λ c. record { place = place; cell = c }) cell)) }
{
    match cell {
        Some(cell) => cells.push(PlacedCell { place, cell }),
        None => Ok(()),
    }
}

/// Whether a group has no cell.
fn has_lost(groups: &Groups) -> bool
    requires { AllByRecursion (λ p. p < length groups.now.all.items) groups.now.filled.items }
    ensures { result ≡ has_lost groups.now.all.items groups.now.filled.items }
{
    for place in groups.filled.as_slice() {
        if cell_at(groups, *place).is_none() {
            return true;
        }
    }
    false
}

/// The cell of the group at a place.
fn cell_at(groups: &Groups, place: usize) -> Option<Cell>
    requires { place < length groups.now.all.items }
    ensures { result ≡ cell_at groups.now.all.items place }
{
    groups.all[place].cell()
}

/// The cells of what is kept of a step, in the order of their labels. The only error is want of memory.
pub(crate) fn step_cells(
    alloc: Global,
    labels: &[Labels],
    step: &OwedStep,
) -> Result<StepCells, AllocError>
    ensures { IfOk result (λ cells. cells ≡ cells_at labels.now step.now) }
{
    let entries = entries_of(alloc, labels, step.cells.as_slice())?;
    Ok(StepCells {
        at: step.at,
        rows: rows_of(alloc, entries)?,
        marks: step.marks.copy()?,
    })
}

/// Cells by their labels.
fn entries_of(
    alloc: Global,
    labels: &[Labels],
    cells: &[PlacedCell],
) -> Result<BTreeMap<Labels, Cell>, AllocError>
    ensures { IfOk result (λ map. map.entries ≡ in_order (filter_map (named_cell labels.now) cells.now)) }
{
    let mut entries = BTreeMap::new(alloc);
    for placed in cells {
        put_cell(&mut entries, labels, placed)?;
    }
    Ok(entries)
}

/// Puts a cell under its labels.
fn put_cell(
    entries: &mut BTreeMap<Labels, Cell>,
    labels: &[Labels],
    placed: &PlacedCell,
) -> Result<(), AllocError>
    ensures { OnOk result (entries.new.entries ≡ fold put_into entries.old.entries (option_to_list (named_cell labels.now placed.now))) }
{
    if let Some(labels) = labels.get(placed.place) {
        entries.insert(labels.copy()?, placed.cell.copy()?)?;
    }
    Ok(())
}

/// The rows of cells.
fn rows_of(alloc: Global, entries: BTreeMap<Labels, Cell>) -> Result<Items<CellRow>, AllocError>
    ensures { IfOk result (λ rows. rows ≡ map row_under entries.entries) }
{
    let mut rows = Items::new(alloc);
    for (labels, cell) in entries {
        rows.push(CellRow { labels, cell })?;
    }
    Ok(rows)
}
