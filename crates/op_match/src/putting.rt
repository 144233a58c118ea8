ghost use Rattle.op_match.specs.Places.{Stays, rows_in, step_with};
ghost use Rattle.step_table.specs.Matching.{paired};
ghost use Rattle.step_table.specs.WellFormed.{IsTable};
ghost use Rattle.std.specs.Prelude.{◌≡◌, ◌<◌, ◌<ℤ◌, ◌++◌, ◌∷◌, [], Some, length, slice_get, IfOk, OnOk};
ghost use Rattle.step_batch.specs.Lent.{IsFreeFrom, IsLater, SlotsRise, entries_of, stages, step_of};
ghost use Rattle.step_table.specs.Unions.{with_fatal};

use label_set::{Items, Labels, Pairing};
use std::alloc::{AllocError, Global};
use step_batch::laws::free_places_are_free;
use step_batch::{Slot, StepBuffer};
use step_put::put_step;
use step_table::{Mark, Marks, Row, Step, as_set, pair, step_of_rows};
use ticks::Ms;
use xfrac::PairOp;

/// Puts a step of values at rising places, with marks and fatal marks more.
pub(crate) fn put_slots(
    alloc: Global,
    rows: &mut StepBuffer,
    at: Ms,
    marks: &Marks,
    fatal: Items<Mark>,
    slots: &[Slot],
) -> Result<(), AllocError>
    requires later { IsLater rows.old at }
    requires rising { SlotsRise 0 (length rows.old.labels) slots.now }
    ensures labels { rows.new.labels ≡ rows.old.labels }
    ensures later { OnOk result ((u : _) → at.0 <ℤ u.0 → IsLater rows.new u) }
    ensures lent { OnOk result (stages rows.new ≡ stages rows.old ++ record { at = at; step = step_of (entries_of rows.old.labels slots.now) (with_fatal marks.now fatal) } ∷ []) }
{
    rows.begin(at)?;
    rows.unite(marks)?;
    put_values(rows, slots)?;
    let more = Marks {
        fatal: as_set(alloc, fatal)?,
        notes: Items::new(alloc),
    };
    rows.unite(&more)?;
    Ok(())
}

fn put_values(rows: &mut StepBuffer, slots: &[Slot]) -> Result<(), AllocError>
    requires begun { IsFreeFrom 0 rows.old }
    requires rising { SlotsRise 0 (length rows.old.labels) slots.now }
    ensures labels { rows.new.labels ≡ rows.old.labels }
    ensures begun { OnOk result (0 < length rows.new.steps) }
    ensures later { OnOk result ((u : _) → IsLater rows.old u → IsLater rows.new u) }
    ensures lent { OnOk result ((front at marks : _) → stages rows.old ≡ front ++ record { at = at; step = step_of [] marks } ∷ []
        → stages rows.new ≡ front ++ record { at = at; step = step_of (entries_of rows.old.labels slots.now) marks } ∷ []) }
{
    free_places_are_free();
    for slot in slots {
        rows.put(slot.place, slot.value)?;
    }
    Ok(())
}

/// Puts what an operator makes of steps that are made whole. The only error is want of memory.
pub(crate) fn put_whole(
    alloc: Global,
    rows: &mut StepBuffer,
    op: PairOp,
    p: &Pairing,
    at: Ms,
    left: &Step,
    right: &Step,
) -> Result<(), AllocError>
    requires later { IsLater rows.old at }
    requires table { IsTable (paired left.now right.now op p.now).table.rows }
    ensures stays { Stays rows.old.labels rows.new.labels }
    ensures later { OnOk result ((u : _) → at.0 <ℤ u.0 → IsLater rows.new u) }
    ensures lent { OnOk result (stages rows.new ≡ stages rows.old ++ record { at = at; step = paired left.now right.now op p.now } ∷ []) }
{
    let step = pair(alloc, left, right, op, p)?;
    put_step(alloc, rows, at, &step)?;
    Ok(())
}

/// A step of slots, its rows in the order of places. The only error is want of memory.
pub(crate) fn whole_step(
    alloc: Global,
    labels: &[Labels],
    slots: &[Slot],
    marks: &Marks,
) -> Result<Step, AllocError>
    requires { SlotsRise 0 (length labels.now) slots.now }
    ensures { IfOk result (λ s. s ≡ step_with (rows_in labels.now slots.now) marks.now) }
{
    let rows = rows_of(alloc, labels, slots)?;
    Ok(step_of_rows(rows, marks.copy()?))
}

fn rows_of(alloc: Global, labels: &[Labels], slots: &[Slot]) -> Result<Items<Row>, AllocError>
    requires { SlotsRise 0 (length labels.now) slots.now }
    ensures { IfOk result (λ rows. rows ≡ rows_in labels.now slots.now) }
{
    let mut rows = Items::new(alloc);
    for slot in slots {
        let labels = copy_at(labels, slot.place)?;
        rows.push(Row {
            labels,
            value: slot.value,
        })?;
    }
    Ok(rows)
}

fn copy_at(labels: &[Labels], place: usize) -> Result<Labels, AllocError>
    requires { place < length labels.now }
    ensures { IfOk result (λ l. slice_get labels.now place ≡ Some l) }
{
    labels[place].copy()
}
