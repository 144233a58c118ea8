//! What comes to the own places of rows at a step, whatever order the rows come in.
ghost use Rattle.std.specs.List.{AllByRecursion};
ghost use Rattle.std.specs.Prelude.{◌≡◌, ◌<◌, [], length, set, slice_index_or, IsTrue, OnOk};
ghost use Rattle.step_put.specs.Clashes.{AreApart, cells_of, is_single_at as is_noted_single, joined_by, taken_by};
ghost use Rattle.step_put.specs.declared.cells.Cell.TheVariants.{Empty};
ghost use Rattle.step_put.specs.Placed.{PlacesRise, marks_made, marks_of_faults, noted, slots_made};
ghost use Rattle.step_table.specs.Orders.{mark_cmp};
ghost use Rattle.step_table.specs.Unions.{set_of};

use crate::faults::Faults;
use crate::owners::{Owners, is_single_at};
use crate::placed::PlacedOutcome;
use crate::rising::place_at;
use std::alloc::AllocError;
use xfrac::{NumFault, XFrac};

/// What came to a place: nothing, a value, or several.
#[derive(Clone, Copy, Debug)]
pub(crate) enum Cell {
    Empty,
    One(XFrac),
    Several,
}

fn joined(cell: Cell, value: XFrac) -> Cell
    ensures { result ≡ joined_by cell value }
{
    match cell {
        Cell::Empty => Cell::One(value),
        Cell::One(_) => Cell::Several,
        Cell::Several => Cell::Several,
    }
}

/// So many cells to which nothing came, in the place of those that were there.
pub(crate) fn empty(cells: &mut Vec<Cell>, count: usize) -> Result<(), AllocError>
    ensures { OnOk result (cells.new.items ≡ cells_of count []) }
{
    cells.clear();
    cells.resize(count, Cell::Empty)?;
    Ok(())
}

/// Takes the values that were made, each into the cell of its own place, and answers the faults. Whether values come
/// together is looked at only where the place isn't noted as that of one labels alone.
pub(crate) fn take_values(
    cells: &mut Vec<Cell>,
    owners: &[Owners],
    places: &[usize],
    placed: &[PlacedOutcome],
) -> Faults
    requires empty { cells.old.items ≡ cells_of (length cells.old.items) [] }
    requires apart { AreApart owners.now places.now }
    requires there { AllByRecursion (λ place. place < length cells.old.items) places.now }
    requires within { PlacesRise 0 (length places.now) placed.now }
    ensures cells { cells.new.items ≡ cells_of (length cells.old.items) (slots_made places.now placed.now) }
    ensures faults { marks_of_faults result ≡ set_of mark_cmp (marks_made placed.now) }
{
    let mut faults = Faults::none();
    for row in placed {
        let place = place_at(places, row.place);
        faults = take_value(cells, owners, faults, place, row.value);
    }
    faults
}

/// Takes a value that was made, or notes its fault.
fn take_value(
    cells: &mut Vec<Cell>,
    owners: &[Owners],
    faults: Faults,
    place: usize,
    value: Result<Option<XFrac>, NumFault>,
) -> Faults
    requires there { place < length cells.old.items }
    requires single { IsTrue (is_noted_single owners.now place) → slice_index_or cells.old.items place Empty ≡ Empty }
    ensures cells { cells.new.items ≡ taken_by cells.old.items place value }
    ensures faults { result ≡ noted faults value }
{
    match value {
        Ok(Some(value)) => {
            come(cells, owners, place, value);
            faults
        }
        Ok(None) => faults,
        Err(fault) => faults.with(fault),
    }
}

/// A value comes to a place.
fn come(cells: &mut Vec<Cell>, owners: &[Owners], place: usize, value: XFrac)
    requires there { place < length cells.old.items }
    requires single { IsTrue (is_noted_single owners.now place) → slice_index_or cells.old.items place Empty ≡ Empty }
    ensures { cells.new.items ≡ set cells.old.items place (joined_by (slice_index_or cells.old.items place Empty) value) }
{
    if is_single_at(owners, place) {
        cells[place] = Cell::One(value);
        return;
    }
    let cell = cells[place];
    cells[place] = joined(cell, value);
}
