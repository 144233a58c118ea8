ghost use Rattle.step_batch.specs.Lent.{IsLater, entry_in, has_slot, last_slots, no_marks, stages, step_of};
ghost use Rattle.step_put.specs.Puts.{AreAt, names_in};
ghost use Rattle.step_table.specs.WellFormed.{IsTable};
ghost use Rattle.std.specs.Prelude.{◌≡◌, ◌<◌, ◌<ℤ◌, ◌++◌, ◌∷◌, [], Some, false, length, map, slice_get, IfOk, OnOk};

use label_set::Items;
use std::alloc::{AllocError, Global};
use step_batch::StepBuffer;
use step_batch::laws::lent_steps_are_tables;
use step_table::{Row, Step};
use ticks::Ms;

/// Puts a step at an instant behind those of a buffer. The only error is want of memory.
pub fn put_step(
    alloc: Global,
    buffer: &mut StepBuffer,
    at: Ms,
    step: &Step,
) -> Result<(), AllocError>
    requires later { IsLater buffer.old at }
    requires table { IsTable step.now.table.rows }
    ensures kept { (j : _) (names : _) → slice_get buffer.old.labels j ≡ Some names → slice_get buffer.new.labels j ≡ Some names }
    ensures later { OnOk result ((u : _) → at.0 <ℤ u.0 → IsLater buffer.new u) }
    ensures lent { OnOk result (stages buffer.new ≡ stages buffer.old ++ record { at = at; step = step.now } ∷ []) }
{
    lent_steps_are_tables();
    let rows = step.table.rows.as_slice();
    let places = places_of(alloc, buffer, rows)?;
    buffer.begin(at)?;
    put_rows(buffer, rows, places.as_slice())?;
    buffer.unite(&step.marks)?;
    Ok(())
}

/// The places of the labels of rows. The steps stay.
fn places_of(
    alloc: Global,
    buffer: &mut StepBuffer,
    rows: &[Row],
) -> Result<Items<usize>, AllocError>
    ensures kept { (j : _) (names : _) → slice_get buffer.old.labels j ≡ Some names → slice_get buffer.new.labels j ≡ Some names }
    ensures places { IfOk result (λ places. AreAt buffer.new.labels (names_in rows.now) places) }
    ensures steps { buffer.new.steps ≡ buffer.old.steps }
    ensures stages { OnOk result (stages buffer.new ≡ stages buffer.old) }
{
    let mut places = Items::new(alloc);
    for row in rows {
        let place = buffer.place(&row.labels)?;
        places.push(place)?;
    }
    Ok(places)
}

/// Puts the values of rows into the last step, at the places of their labels.
fn put_rows(buffer: &mut StepBuffer, rows: &[Row], places: &[usize]) -> Result<(), AllocError>
    requires begun { 0 < length buffer.old.steps }
    requires none { (q : _) → has_slot q (last_slots buffer.old.steps) ≡ false }
    requires places { AreAt buffer.old.labels (names_in rows.now) places.now }
    requires table { IsTable rows.now }
    ensures labels { buffer.new.labels ≡ buffer.old.labels }
    ensures begun { OnOk result (0 < length buffer.new.steps) }
    ensures later { OnOk result ((u : _) → IsLater buffer.old u → IsLater buffer.new u) }
    ensures lent { OnOk result ((front : _) (at : _) → stages buffer.old ≡ front ++ record { at = at; step = step_of [] no_marks } ∷ []
        → stages buffer.new ≡ front ++ record { at = at; step = step_of (map entry_in rows.now) no_marks } ∷ []) }
{
    for i in 0..rows.len() {
        buffer.put(places[i], rows[i].value)?;
    }
    Ok(())
}
