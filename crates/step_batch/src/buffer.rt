ghost use Rattle.indexmap.specs.IndexSet.{insert_key};
ghost use Rattle.label_set.specs.LabelEquality.{labels_eq};
ghost use Rattle.std.specs.List.{IsDistinct};
ghost use Rattle.std.specs.Prelude.{◌≡◌, ◌↔◌, ◌+◌, ◌<◌, ◌<ℤ◌, ◌≤◌, ◌++◌, true, false, [], ◌∷◌, Some, length, slice_get, if◌then◌else◌, IfOk, IsTrue, OnOk, OnErr};
ghost use Rattle.step_batch.specs.Lent.{IsFreeFrom, IsLater, begun, has_few_rows, has_slot, last_slots, no_marks, on_last, put, stage_with_marks, stage_with_row, stages, step_of, united_last};

use crate::batch::Batch;
use crate::steps::{Steps, has_fewer_slots, has_last_slot, is_after_last};
use indexmap::IndexSet;
use label_set::Labels;
use std::alloc::{AllocError, Global};
use std::marker::Model;
use step_table::Marks;
use ticks::Ms;
use xfrac::XFrac;

/// Steps that are made one by one and lent. Contracts see what it lends.
#[derive(Drop)]
pub struct StepBuffer {
    alloc: Global,
    labels: IndexSet<Labels>,
    steps: Steps,
}

impl Model for StepBuffer {
    ghost use Rattle.step_batch.specs.Lent.{IsLent, Lent};

    ghost Value = { Lent };

    ghost view = { λ b. record { labels = b.labels.keys; steps = b.steps } };

    ghost invariant = { λ b. IsLent (record { labels = b.labels.keys; steps = b.steps }) };
}

impl StepBuffer {
    /// No steps and no labels. It takes no memory.
    pub fn new(alloc: Global) -> StepBuffer
        ensures { result ≡ record { labels = []; steps = [] } }
    {
        StepBuffer {
            alloc,
            labels: IndexSet::new(alloc),
            steps: Steps::new(alloc),
        }
    }

    /// Takes all steps and labels out, and keeps their memory. It takes none.
    pub fn clear(&mut self)
        ensures { self.new ≡ record { labels = []; steps = [] } }
    {
        self.steps.clear();
        self.labels.clear();
    }

    /// Takes all steps out, and keeps their memory; the labels stay at their places. It takes no memory.
    pub fn renew(&mut self)
        ensures ok { self.new ≡ record { labels = self.old.labels; steps = [] } }
        ensures distinct { IsDistinct labels_eq self.new.labels }
    {
        let _ = self.labels.len();
        self.steps.clear();
    }

    /// Takes all steps out as `renew` does, and the labels too as `clear` does where fewer than half as many rows were put as
    /// there are labels: then most labels had none. So the labels that are kept never grow with the number of feeds. It
    /// takes no memory.
    pub fn begin_feed(&mut self)
        ensures steps { self.new.steps ≡ [] }
        ensures labels { self.new.labels ≡ (if has_few_rows self.old then [] else self.old.labels) }
    {
        if has_fewer_slots(self.steps.as_slice(), self.labels.len() / 2) {
            self.clear();
            return;
        }
        self.renew();
    }

    /// The place of equal labels; new ones go last. The only error is want of memory; then nothing is changed.
    pub fn place(&mut self, labels: &Labels) -> Result<usize, AllocError>
        ensures labels { OnOk result (self.new.labels ≡ insert_key labels_eq self.old.labels labels.now) }
        ensures place { IfOk result (λ i. slice_get self.new.labels i ≡ Some labels.now) }
        ensures within { IfOk result (λ i. i < length self.new.labels) }
        ensures more { length self.old.labels ≤ length self.new.labels }
        ensures kept { (j : _) (names : _) → slice_get self.old.labels j ≡ Some names → slice_get self.new.labels j ≡ Some names }
        ensures steps { self.new.steps ≡ self.old.steps }
        ensures stages { OnOk result (stages self.new ≡ stages self.old) }
        ensures err { OnErr result (self.new ≡ self.old) }
    {
        let place = place_in(&mut self.labels, labels)?;
        Ok(place)
    }

    /// The place of labels that are given, as `place` says: where equal ones stand already, these are dropped; else they go last
    /// as they are, and none is copied. The only error is want of memory; then nothing is changed.
    pub fn place_own(&mut self, labels: Labels) -> Result<usize, AllocError>
        ensures labels { OnOk result (self.new.labels ≡ insert_key labels_eq self.old.labels labels) }
        ensures place { IfOk result (λ i. slice_get self.new.labels i ≡ Some labels) }
        ensures within { IfOk result (λ i. i < length self.new.labels) }
        ensures more { length self.old.labels ≤ length self.new.labels }
        ensures kept { (j : _) (names : _) → slice_get self.old.labels j ≡ Some names → slice_get self.new.labels j ≡ Some names }
        ensures steps { self.new.steps ≡ self.old.steps }
        ensures stages { OnOk result (stages self.new ≡ stages self.old) }
        ensures err { OnErr result (self.new ≡ self.old) }
    {
        let place = place_own_in(&mut self.labels, labels)?;
        Ok(place)
    }

    /// Whether an instant is later than the last step's, as `begin` asks. It takes no memory.
    pub fn is_later(&self, at: Ms) -> bool
        ensures { IsTrue result ↔ IsLater self.now at }
    {
        is_after_last(self.steps.as_slice(), at)
    }

    /// Whether a step was begun and has no row yet at this place, which has labels, as `put` asks. It takes no memory.
    pub fn is_free(&self, place: usize) -> bool
        ensures begun { IsTrue result → 0 < length self.now.steps }
        ensures there { IsTrue result → place < length self.now.labels }
        ensures free { IsTrue result → has_slot place (last_slots self.now.steps) ≡ false }
        ensures taken { result ≡ false → 0 < length self.now.steps → place < length self.now.labels → has_slot place (last_slots self.now.steps) ≡ true }
    {
        if self.steps.as_slice().is_empty() || place >= self.labels.len() {
            return false;
        }
        !has_last_slot(self.steps.as_slice(), place)
    }

    /// Begins an empty step. The only error is want of memory; then nothing is changed.
    pub fn begin(&mut self, at: Ms) -> Result<(), AllocError>
        requires { IsLater self.old at }
        ensures ok { OnOk result (self.new ≡ begun self.old at) }
        ensures stages { OnOk result (stages self.new ≡ stages self.old ++ record { at = at; step = step_of [] no_marks } ∷ []) }
        ensures free { OnOk result (IsFreeFrom 0 self.new) }
        ensures none { OnOk result ((q : _) → has_slot q (last_slots self.new.steps) ≡ false) }
        ensures later { OnOk result ((u : _) → at.0 <ℤ u.0 → IsLater self.new u) }
        ensures err { OnErr result (self.new ≡ self.old) }
    {
        self.steps.begin(self.alloc, at)?;
        Ok(())
    }

    /// Puts a value at the place of labels into the last step. The only error is want of memory; then nothing is
    /// changed.
    pub fn put(&mut self, place: usize, value: XFrac) -> Result<(), AllocError>
        requires begun { 0 < length self.old.steps }
        requires there { place < length self.old.labels }
        requires free { has_slot place (last_slots self.old.steps) ≡ false }
        ensures ok { OnOk result (self.new ≡ put self.old place value) }
        ensures labels { self.new.labels ≡ self.old.labels }
        ensures free { OnOk result ((low : _) → low ≤ place → IsFreeFrom low self.old → IsFreeFrom (place + 1) self.new) }
        ensures others { OnOk result ((q : _) → (q ≡ place → ⊥) → has_slot q (last_slots self.old.steps) ≡ false → has_slot q (last_slots self.new.steps) ≡ false) }
        ensures later { OnOk result ((u : _) → IsLater self.old u → IsLater self.new u) }
        ensures stages { OnOk result ((names : _) → slice_get self.old.labels place ≡ Some names → stages self.new ≡ on_last (stage_with_row names value) (stages self.old)) }
        ensures err { OnErr result (self.new ≡ self.old) }
    {
        self.steps.put(place, value)?;
        Ok(())
    }

    /// Adds marks and notes to the last step; none cost nothing. The only error is want of memory; then nothing is
    /// changed.
    pub fn unite(&mut self, marks: &Marks) -> Result<(), AllocError>
        requires { 0 < length self.old.steps }
        ensures ok { OnOk result (self.new ≡ united_last self.old marks.now) }
        ensures labels { self.new.labels ≡ self.old.labels }
        ensures free { OnOk result ((low : _) → IsFreeFrom low self.old → IsFreeFrom low self.new) }
        ensures others { OnOk result (last_slots self.new.steps ≡ last_slots self.old.steps) }
        ensures later { OnOk result ((u : _) → IsLater self.old u → IsLater self.new u) }
        ensures stages { OnOk result (stages self.new ≡ on_last (stage_with_marks marks.now) (stages self.old)) }
        ensures err { OnErr result (self.new ≡ self.old) }
    {
        self.steps.unite(marks)?;
        Ok(())
    }

    /// Lends the steps. It takes no memory.
    pub fn lend(&self) -> Batch<'_>
        ensures { result ≡ self.now }
    {
        Batch::of(self.steps.as_slice(), self.labels.as_slice())
    }
}

/// The place of labels among others; new ones go last.
pub(crate) fn place_in(set: &mut IndexSet<Labels>, labels: &Labels) -> Result<usize, AllocError>
    ensures keys { OnOk result (set.new.keys ≡ insert_key labels_eq set.old.keys labels.now) }
    ensures place { IfOk result (λ i. slice_get set.new.keys i ≡ Some labels.now) }
    ensures err { OnErr result (set.new.keys ≡ set.old.keys) }
    ensures distinct { IsDistinct labels_eq set.new.keys }
    ensures was { IsDistinct labels_eq set.old.keys }
{
    let _ = set.len();
    if let Some(i) = set.get_index_of(labels) {
        return Ok(i);
    }
    let (place, _) = set.insert_full(labels.copy()?)?;
    Ok(place)
}

/// The place of labels that are given among others; new ones go last as they are.
fn place_own_in(set: &mut IndexSet<Labels>, labels: Labels) -> Result<usize, AllocError>
    ensures keys { OnOk result (set.new.keys ≡ insert_key labels_eq set.old.keys labels) }
    ensures place { IfOk result (λ i. slice_get set.new.keys i ≡ Some labels) }
    ensures err { OnErr result (set.new.keys ≡ set.old.keys) }
    ensures distinct { IsDistinct labels_eq set.new.keys }
{
    let (place, _) = set.insert_full(labels)?;
    Ok(place)
}
