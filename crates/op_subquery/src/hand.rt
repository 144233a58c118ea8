//! Steps that waited are handed on to the windows.
ghost use Rattle.label_set.specs.LabelEquality.{labels_eq};
ghost use Rattle.op_subquery.specs.Kept.{AreWithin, StepsWithin, due, kept_of, later, samples_under, timed_entries, with_samples};
ghost use Rattle.op_subquery.specs.Rings.{AreHeld, Goes};
ghost use Rattle.std.specs.List.{AllByRecursion, IsDistinct};
ghost use Rattle.std.specs.Map.{keys_of};
ghost use Rattle.std.specs.Prelude.{◌≡◌, ◌<◌, ◌+◌, ◌<ℤ◌, ◌≤ℤ◌, ◌++◌, ◌∷◌, ℤ, List, length, map, slice_get, false, Some, if◌then◌else◌, IsTrue, OnOk};
ghost use Rattle.step_batch.specs.Columns.{column_more};
ghost use Rattle.step_batch.specs.Lent.{entries_of};
ghost use Rattle.step_table.specs.Groups.{items_of};
ghost use Rattle.step_table.specs.Timed.{StepAt};

use crate::raised::RaisedMarks;
use crate::waiting::WaitingStep;
use label_set::Labels;
use std::alloc::AllocError;
use std::collections::VecDeque;
use step_batch::{Slot, WindowBuffer};
use ticks::Ms;
use xfrac::XFrac;

/// Hands the first steps on that aren't later than a moment. The only error is want of memory.
pub(crate) fn hand_each(
    steps: &mut VecDeque<WaitingStep>,
    labels: &[Labels],
    moment: Ms,
    windows: &mut WindowBuffer,
    raised: &mut RaisedMarks,
) -> Result<(), AllocError>
    requires within { StepsWithin (length labels.now) steps.old.items }
    requires held { (held : List StepAt) × (coming : List StepAt) × AreHeld windows.old.rows raised.old (map (kept_of labels.now) steps.old.items) held coming }
    ensures within { StepsWithin (length labels.now) steps.new.items }
    ensures held { OnOk result ((held coming : _) → AreHeld windows.old.rows raised.old (map (kept_of labels.now) steps.old.items) held coming
        → AreHeld windows.new.rows raised.new (map (kept_of labels.now) steps.new.items) (held ++ due moment.0 coming) (later moment.0 coming)) }
{
    while is_due(steps, moment) {
        hand_first(steps, labels, windows, raised)?;
    }
    Ok(())
}

/// Whether there is a step and the first one isn't later than a moment.
fn is_due(steps: &VecDeque<WaitingStep>, moment: Ms) -> bool
    ensures some { IsTrue result → 0 < length steps.now.items }
    ensures due { IsTrue result → (step : _) (rest : _) → steps.now.items ≡ step ∷ rest → step.at.0 ≤ℤ moment.0 }
    ensures later { result ≡ false → (step : _) (rest : _) → steps.now.items ≡ step ∷ rest → moment.0 <ℤ step.at.0 }
{
    match steps.front() {
        None => false,
        Some(step) => step.at.0 <= moment.0,
    }
}

/// Hands the first step on. The only error is want of memory.
fn hand_first(
    steps: &mut VecDeque<WaitingStep>,
    labels: &[Labels],
    windows: &mut WindowBuffer,
    raised: &mut RaisedMarks,
) -> Result<(), AllocError>
    requires some { 0 < length steps.old.items }
    requires within { StepsWithin (length labels.now) steps.old.items }
    requires held { (held : List StepAt) × (coming : List StepAt) × AreHeld windows.old.rows raised.old (map (kept_of labels.now) steps.old.items) held coming }
    ensures within { StepsWithin (length labels.now) steps.new.items }
    ensures fewer { length steps.new.items + 1 ≡ length steps.old.items }
    ensures handed { OnOk result ((m : ℤ) (held coming : _) → ((step : _) (rest : _) → steps.old.items ≡ step ∷ rest → step.at.0 ≤ℤ m)
        → Goes m windows.old.rows raised.old (map (kept_of labels.now) steps.old.items) held coming
        → Goes m windows.new.rows raised.new (map (kept_of labels.now) steps.new.items) held coming) }
{
    match steps.pop_front() {
        None => Ok(()),
        Some(step) => {
            add_rows(windows, labels, step.at, step.slots.as_slice())?;
            raised.add(step.at, &step.marks)?;
            Ok(())
        }
    }
}

/// Adds values at an instant to the windows with their labels.
fn add_rows(
    windows: &mut WindowBuffer,
    labels: &[Labels],
    at: Ms,
    slots: &[Slot],
) -> Result<(), AllocError>
    requires within { AreWithin (length labels.now) slots.now }
    requires distinct { IsDistinct labels_eq (keys_of (entries_of labels.now slots.now)) }
    requires before { (names : _) → AllByRecursion (λ t. t.0 <ℤ at.0) (samples_under names windows.old.rows).times }
    ensures { OnOk result ((names : _) → samples_under names windows.new.rows ≡ with_samples (samples_under names windows.old.rows) (items_of (timed_entries at (entries_of labels.now slots.now)) names)) }
{
    for slot in slots {
        add_one(windows, labels_at(labels, slot.place), at, slot.value)?;
    }
    Ok(())
}

fn labels_at(labels: &[Labels], place: usize) -> &Labels
    requires { place < length labels.now }
    ensures { slice_get labels.now place ≡ Some result.now }
{
    &labels[place]
}

/// Adds a value at an instant to the window with its labels.
fn add_one(
    windows: &mut WindowBuffer,
    labels: &Labels,
    at: Ms,
    value: XFrac,
) -> Result<(), AllocError>
    requires { AllByRecursion (λ t. t.0 <ℤ at.0) (samples_under labels.now windows.old.rows).times }
    ensures { OnOk result ((names : _) → samples_under names windows.new.rows ≡ (if labels_eq names labels.now then column_more (samples_under names windows.old.rows) at value else samples_under names windows.old.rows)) }
{
    let _ = windows.lend().len();
    windows.add(labels, at, value)?;
    Ok(())
}
