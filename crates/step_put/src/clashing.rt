//! Steps whose rows come out of the order of their own places, or come to share labels.
ghost use Rattle.std.specs.Option.{option_to_list};
ghost use Rattle.std.specs.Prelude.{◌≡◌, ◌<◌, ◌<ℤ◌, ◌≤◌, ◌+◌, ◌++◌, ◌∷◌, [], length, IfOk, OnOk};
ghost use Rattle.step_batch.specs.Lent.{IsFreeFrom, IsLater, entries_of, stages, step_of};
ghost use Rattle.step_put.specs.Clashes.{AreApart, is_shared as has_several, lone_slot, lone_slots, marks_at, shared_places};
ghost use Rattle.step_put.specs.Placed.{IsPlaced, PlacesRise, made_step};
ghost use Rattle.step_table.specs.Orders.{mark_cmp};
ghost use Rattle.step_table.specs.Unions.{set_of};

use crate::cells::{Cell, empty, take_values};
use crate::own_places::Placing;
use crate::owners::Owners;
use crate::placed::PlacedOutcome;
use label_set::{Items, Labels};
use std::alloc::{AllocError, Global};
use step_batch::StepBuffer;
use step_batch::laws::{free_places_are_free, lent_steps_are_tables};
use step_table::order_laws::rows_ignore_order;
use step_table::{Mark, Marks, as_set};
use ticks::Ms;

/// Puts the step of what is made, in which rows may share labels and come in any order of their own places. `cells` is used
/// for it.
pub(crate) fn put_clashing(
    alloc: Global,
    buffer: &mut StepBuffer,
    cells: &mut Vec<Cell>,
    owners: &[Owners],
    placing: &Placing,
    at: Ms,
    marks: &Marks,
    placed: &[PlacedOutcome],
) -> Result<(), AllocError>
    requires named { IsPlaced buffer.old placing.now }
    requires apart { AreApart owners.now placing.now.places }
    requires later { IsLater buffer.old at }
    requires within { PlacesRise 0 (length placing.now.fed) placed.now }
    ensures labels { buffer.new.labels ≡ buffer.old.labels }
    ensures later { OnOk result ((u : _) → at.0 <ℤ u.0 → IsLater buffer.new u) }
    ensures lent { OnOk result (stages buffer.new ≡ stages buffer.old ++ record { at = at; step = made_step placing.now.left placing.now.fed marks.now placed.now } ∷ []) }
{
    lent_steps_are_tables();
    rows_ignore_order();
    let count = buffer.lend().labels().len();
    empty(cells, count)?;
    let faults = take_values(cells, owners, placing.places(), placed);
    let faulty = faults.marks(alloc)?;
    let shared = marks_of_shared(alloc, buffer.lend().labels(), cells.as_slice())?;
    buffer.begin(at)?;
    buffer.unite(marks)?;
    buffer.unite(&faulty)?;
    buffer.unite(&shared)?;
    put_lone(buffer, cells.as_slice())?;
    Ok(())
}

/// Puts the values that came alone to their places into the last step.
fn put_lone(buffer: &mut StepBuffer, cells: &[Cell]) -> Result<(), AllocError>
    requires begun { IsFreeFrom 0 buffer.old }
    requires within { length cells.now ≤ length buffer.old.labels }
    ensures labels { buffer.new.labels ≡ buffer.old.labels }
    ensures begun { OnOk result (0 < length buffer.new.steps) }
    ensures later { OnOk result ((u : _) → IsLater buffer.old u → IsLater buffer.new u) }
    ensures lent { OnOk result ((front at marks : _) → stages buffer.old ≡ front ++ record { at = at; step = step_of [] marks } ∷ []
        → stages buffer.new ≡ front ++ record { at = at; step = step_of (entries_of buffer.old.labels (lone_slots 0 cells.now)) marks } ∷ []) }
{
    for place in 0..cells.len() {
        put_cell(buffer, place, cells[place])?;
    }
    Ok(())
}

/// Puts a value into the last step at its place, if it came alone.
fn put_cell(buffer: &mut StepBuffer, place: usize, cell: Cell) -> Result<(), AllocError>
    requires there { place < length buffer.old.labels }
    requires free { IsFreeFrom place buffer.old }
    ensures labels { buffer.new.labels ≡ buffer.old.labels }
    ensures free { OnOk result (IsFreeFrom (place + 1) buffer.new) }
    ensures later { OnOk result ((u : _) → IsLater buffer.old u → IsLater buffer.new u) }
    ensures stages { OnOk result ((front at es marks : _) → stages buffer.old ≡ front ++ record { at = at; step = step_of es marks } ∷ []
        → stages buffer.new ≡ front ++ record { at = at; step = step_of (es ++ entries_of buffer.old.labels (option_to_list (lone_slot place cell))) marks } ∷ []) }
{
    match cell {
        Cell::Empty => Ok(()),
        Cell::One(value) => {
            free_places_are_free();
            buffer.put(place, value)?;
            Ok(())
        }
        Cell::Several => Ok(()),
    }
}

fn is_shared(cell: Cell) -> bool
    ensures { result ≡ has_several cell }
{
    matches!(cell, Cell::Several)
}

/// A mark for all labels to whose places several values came.
fn marks_of_shared(alloc: Global, labels: &[Labels], cells: &[Cell]) -> Result<Marks, AllocError>
    requires { length cells.now ≤ length labels.now }
    ensures { IfOk result (λ m. m ≡ record { fatal = set_of mark_cmp (marks_at labels.now (shared_places 0 cells.now)); notes = [] }) }
{
    let mut shared = Items::new(alloc);
    for place in 0..cells.len() {
        if !is_shared(cells[place]) {
            continue;
        }
        shared.push(Mark::SameLabelset(labels[place].copy()?))?;
    }
    Ok(Marks {
        fatal: as_set(alloc, shared)?,
        notes: Items::new(alloc),
    })
}
