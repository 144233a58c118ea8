//! Steps that were fed and wait for the window that they come into.
ghost use Rattle.op_subquery.specs.Kept.{AllPlaced, AreWithin, StepsWithin, due, kept_in, kept_of, later, moved};
ghost use Rattle.op_subquery.specs.Rings.{AreHeld};
ghost use Rattle.std.specs.List.{AllByRecursion};
ghost use Rattle.std.specs.Option.{option_map};
ghost use Rattle.std.specs.Prelude.{◌≡◌, ◌<◌, ◌++◌, ◌∷◌, [], false, true, List, length, map, slice_get, slice_index_or, IfOk, OnErr, OnOk, Some};
ghost use Rattle.step_batch.specs.Lent.{SlotsRise};
ghost use Rattle.step_put.specs.Puts.{AreAt};
ghost use Rattle.step_table.specs.Timed.{StepAt};

use crate::hand::hand_each;
use crate::raised::RaisedMarks;
use label_set::Labels;
use std::alloc::{AllocError, Global};
use std::collections::VecDeque;
use std::marker::Model;
use step_batch::{Batch, Slot, StepBuffer, WindowBuffer};
use step_put::{Left, Placing};
use step_table::Marks;
use ticks::Ms;

/// A step that was fed: its values at the places of their labels, in the order in which they were fed.
#[derive(Drop)]
pub(crate) struct WaitingStep {
    pub at: Ms,
    pub slots: Vec<Slot>,
    pub marks: Marks,
}

/// Steps in the order in which they were fed. Labels are made and placed once, and kept over feeds as long as the labels at that
/// place of the feed stay equal; the buffer that they stand in has no steps.
#[derive(Drop)]
pub(crate) struct Waiting {
    alloc: Global,
    placing: Placing,
    labels: StepBuffer,
    steps: VecDeque<WaitingStep>,
}

impl Model for Waiting {
    ghost use Rattle.op_subquery.specs.Kept.{AllPlaced, KeptStep, StepsWithin, kept_of};
    ghost use Rattle.std.specs.Prelude.{List, length, map};

    ghost Value = { List KeptStep };

    ghost view = { λ w. map (kept_of w.labels.labels) w.steps.items };

    ghost invariant = { λ w. AllPlaced w.labels w.placing × StepsWithin (length w.labels.labels) w.steps.items };
}

impl Waiting {
    /// No steps. It takes no memory.
    pub(crate) fn new(alloc: Global) -> Waiting
        ensures { result ≡ [] }
    {
        Waiting {
            alloc,
            placing: Placing::new(alloc, Left::All),
            labels: StepBuffer::new(alloc),
            steps: VecDeque::new(alloc),
        }
    }

    /// Takes what is fed behind the steps that wait. The only error is want of memory.
    pub(crate) fn take(&mut self, rows: &Batch<'_>) -> Result<(), AllocError>
        ensures { OnOk result (self.new ≡ self.old ++ map (kept_in rows.now.labels) rows.now.steps) }
    {
        let fresh = has_none(&self.steps);
        place(&mut self.placing, &mut self.labels, fresh, rows.labels())?;
        take_each(self.alloc, &mut self.steps, self.placing.places(), rows)?;
        Ok(())
    }

    /// Hands the steps on that aren't later than a moment. The only error is want of memory.
    pub(crate) fn hand_on(
        &mut self,
        moment: Ms,
        windows: &mut WindowBuffer,
        raised: &mut RaisedMarks,
    ) -> Result<(), AllocError>
        requires { (held : List StepAt) × (coming : List StepAt) × AreHeld windows.old.rows raised.old self.old held coming }
        ensures { OnOk result ((held coming : _) → AreHeld windows.old.rows raised.old self.old held coming
            → AreHeld windows.new.rows raised.new self.new (held ++ due moment.0 coming) (later moment.0 coming)) }
    {
        let labels = self.labels.lend();
        hand_each(&mut self.steps, labels.labels(), moment, windows, raised)?;
        Ok(())
    }
}

fn has_none(steps: &VecDeque<WaitingStep>) -> bool
    ensures { result ≡ true → steps.now.items ≡ [] }
{
    steps.is_empty()
}

/// Places the labels that are fed. Where no step waits, labels that are no longer fed may go.
fn place(
    placing: &mut Placing,
    buffer: &mut StepBuffer,
    fresh: bool,
    labels: &[Labels],
) -> Result<(), AllocError>
    requires { AllPlaced buffer.old placing.old }
    ensures placed { AllPlaced buffer.new placing.new }
    ensures fed { OnOk result (placing.new.fed ≡ labels.now) }
    ensures kept { fresh ≡ false → (j : _) (names : _) → slice_get buffer.old.labels j ≡ Some names → slice_get buffer.new.labels j ≡ Some names }
{
    if fresh {
        return placing.renew(buffer, labels);
    }
    placing.take(buffer, labels)
}

/// Puts what is fed behind other steps, at the places of its labels.
fn take_each(
    alloc: Global,
    steps: &mut VecDeque<WaitingStep>,
    places: &[usize],
    rows: &Batch<'_>,
) -> Result<(), AllocError>
    requires { length places.now ≡ length rows.now.labels }
    ensures within { (high : _) → StepsWithin high steps.old.items → AllByRecursion (λ p. p < high) places.now → StepsWithin high steps.new.items }
    ensures kept { OnOk result ((labels : _) → AreAt labels rows.now.labels places.now
        → map (kept_of labels) steps.new.items ≡ map (kept_of labels) steps.old.items ++ map (kept_in rows.now.labels) rows.now.steps) }
{
    for i in 0..rows.len() {
        let step = waiting_step(alloc, rows, i, places)?;
        push(steps, step)?;
    }
    Ok(())
}

/// Puts a step behind others. The only error is want of memory; then nothing is changed.
fn push(steps: &mut VecDeque<WaitingStep>, step: WaitingStep) -> Result<(), AllocError>
    ensures ok { OnOk result (steps.new.items ≡ steps.old.items ++ step ∷ []) }
    ensures err { OnErr result (steps.new.items ≡ steps.old.items) }
{
    steps.push_back(step)?;
    Ok(())
}

/// The step at an index of what is fed, at the places of its labels.
fn waiting_step(
    alloc: Global,
    rows: &Batch<'_>,
    i: usize,
    places: &[usize],
) -> Result<WaitingStep, AllocError>
    requires here { i < length rows.now.steps }
    requires places { length places.now ≡ length rows.now.labels }
    ensures within { IfOk result (λ step. (high : _) → AllByRecursion (λ p. p < high) places.now → AreWithin high step.slots.items) }
    ensures kept { IfOk result (λ step. (labels : _) → AreAt labels rows.now.labels places.now
        → option_map (kept_in rows.now.labels) (slice_get rows.now.steps i) ≡ Some (kept_of labels step)) }
{
    Ok(WaitingStep {
        at: rows.at(i),
        slots: moved(alloc, rows.slots(i), places)?,
        marks: rows.marks(i).copy()?,
    })
}

/// Values at the places of their labels.
fn moved(alloc: Global, slots: &[Slot], places: &[usize]) -> Result<Vec<Slot>, AllocError>
    requires { SlotsRise 0 (length places.now) slots.now }
    ensures { IfOk result (λ own. own.items ≡ map (moved places.now) slots.now) }
{
    let mut own = Vec::with_capacity(alloc, slots.len())?;
    for slot in slots {
        own.push(Slot {
            place: place_at(places, slot.place),
            value: slot.value,
        })?;
    }
    Ok(own)
}

fn place_at(places: &[usize], place: usize) -> usize
    requires { place < length places.now }
    ensures { result ≡ slice_index_or places.now place 0 }
{
    places[place]
}
