//! Steps in a buffer that lends them, and whether those that are lent are the wanted ones.
ghost use Rattle.std.specs.Prelude.{◌≡◌, length, IsTrue};

use label_set::Labels;
use std::alloc::Global;
use std::test::Fail;
use step_batch::{Batch, Slot, StepBuffer};
use step_table::{Row, Step};
use ticks::Ms;

/// Places the labels of rows in turn.
fn place_all(buffer: &mut StepBuffer, rows: &[Row]) -> Result<(), Fail> {
    for row in rows {
        buffer.place(&row.labels)?;
    }
    Ok(())
}

/// Puts a row in; an error where a row of this step has its labels.
fn put_row(buffer: &mut StepBuffer, row: &Row) -> Result<(), Fail> {
    let place = buffer.place(&row.labels)?;
    if !buffer.is_free(place) {
        return Err("labels that stand twice")?;
    }
    buffer.put(place, row.value)?;
    Ok(())
}

/// Begins a step; an error where its instant isn't later than the last one's.
fn begin(buffer: &mut StepBuffer, at: Ms) -> Result<(), Fail> {
    if !buffer.is_later(at) {
        return Err("instants that do not rise")?;
    }
    buffer.begin(at)?;
    Ok(())
}

/// Puts a step into a buffer, its rows in turn, which have labels of their own each.
fn put(buffer: &mut StepBuffer, at: Ms, step: &Step) -> Result<(), Fail> {
    let rows = step.table.rows.as_slice();
    place_all(buffer, rows)?;
    begin(buffer, at)?;
    for row in rows {
        put_row(buffer, row)?;
    }
    if buffer.lend().len() > 0 {
        buffer.unite(&step.marks)?;
    }
    Ok(())
}

/// A buffer that lends these steps; an error where their instants don't rise, or labels stand twice at one of them.
pub fn buffer_of(alloc: Global, steps: &[(Ms, Step)]) -> Result<StepBuffer, Fail> {
    let mut buffer = StepBuffer::new(alloc);
    for (at, one) in steps {
        put(&mut buffer, *at, one)?;
    }
    Ok(buffer)
}

/// A buffer that lends steps without rows at the instants of these; an error where they don't rise.
pub fn blank_of(alloc: Global, steps: &[(Ms, Step)]) -> Result<StepBuffer, Fail> {
    let mut buffer = StepBuffer::new(alloc);
    for (at, _) in steps {
        begin(&mut buffer, *at)?;
    }
    Ok(buffer)
}

/// Whether two batches have as many steps.
pub fn has_same_steps(a: &Batch<'_>, b: &Batch<'_>) -> bool
    ensures { IsTrue result → length b.now.steps ≡ length a.now.steps }
{
    a.len() == b.len()
}

/// Whether slots have this row.
fn has_row(labels: &[Labels], slots: &[Slot], row: &Row) -> bool {
    for slot in slots {
        if slot.place < labels.len() && labels[slot.place].is_same(&row.labels) {
            return slot.value == row.value;
        }
    }
    false
}

fn has_rows(labels: &[Labels], slots: &[Slot], rows: &[Row]) -> bool {
    for row in rows {
        if !has_row(labels, slots, row) {
            return false;
        }
    }
    slots.len() == rows.len()
}

/// Whether a lent step is this one.
fn is_lent(batch: &Batch<'_>, i: usize, at: Ms, step: &Step) -> bool {
    if i >= batch.len() || batch.at(i).0 != at.0 || !batch.marks(i).is_same(&step.marks) {
        return false;
    }
    has_rows(batch.labels(), batch.slots(i), step.table.rows.as_slice())
}

/// Whether the steps that are lent are these: their instants, rows in any order, marks and notes.
pub fn are_lent(lent: &Batch<'_>, wanted: &[(Ms, Step)]) -> bool {
    for i in 0..wanted.len() {
        if !is_lent(lent, i, wanted[i].0, &wanted[i].1) {
            return false;
        }
    }
    lent.len() == wanted.len()
}
