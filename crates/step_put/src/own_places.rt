ghost use Rattle.label_set.specs.Labels.{metric_name};
ghost use Rattle.std.specs.Prelude.{◌≡◌, ◌↔◌, ◌<◌, ◌≤◌, ◌+◌, ◌++◌, ◌∷◌, ℕ, List, [], Some, drop, false, length, map, slice_get, take, IfOk, IsTrue, OnErr, OnOk};
ghost use Rattle.step_put.specs.Placed.{IsPlaced, left_of};
ghost use Rattle.step_put.specs.Puts.{AreAt};

use crate::labels_left::Left;
use label_set::Labels;
use std::alloc::{AllocError, Global};
use std::marker::Model;
use std::mem;
use step_batch::StepBuffer;

/// Labels that were fed, and beside each the place of what is left of them.
#[derive(Drop)]
pub(crate) struct Kept {
    fed: Vec<Labels>,
    places: Vec<usize>,
}

/// What is left of labels that are fed, and where it stands in a buffer of steps. It is made and placed once for each
/// labels, and kept over feeds while the labels at that place of the feed stay equal. A buffer whose steps are never begun
/// serves as a set of what is left.
#[derive(Drop)]
pub struct Placing {
    alloc: Global,
    left: Left,
    kept: Kept,
}

impl Model for Placing {
    ghost use Rattle.step_put.specs.Placed.{Naming};

    ghost Value = { Naming };

    ghost view = { λ p. record { left = p.left; fed = p.kept.fed.items; places = p.kept.places.items } };
}

impl Placing {
    /// Nothing is fed yet. It takes no memory.
    pub fn new(alloc: Global, left: Left) -> Placing
        ensures { result ≡ record { left = left; fed = []; places = [] } }
    {
        Placing {
            alloc,
            left,
            kept: nothing(alloc),
        }
    }

    /// Forgets what was fed. It takes no memory.
    pub fn forget(&mut self)
        ensures { self.new ≡ record { left = self.old.left; fed = []; places = [] } }
    {
        self.kept = nothing(self.alloc);
    }

    /// Takes the labels that are fed. What is left of new ones goes last in the buffer that those fed before stand in, from
    /// which nothing is taken out; so several lists of labels may stand in one buffer. The only error is want of memory; then
    /// no labels are kept, and the next feed may begin all the same.
    pub fn take(&mut self, buffer: &mut StepBuffer, labels: &[Labels]) -> Result<(), AllocError>
        requires named { IsPlaced buffer.old self.old }
        ensures named { IsPlaced buffer.new self.new }
        ensures left { self.new.left ≡ self.old.left }
        ensures fed { OnOk result (self.new.fed ≡ labels.now) }
        ensures kept { (j : _) (names : _) → slice_get buffer.old.labels j ≡ Some names → slice_get buffer.new.labels j ≡ Some names }
        ensures steps { buffer.new.steps ≡ buffer.old.steps }
    {
        self.take_telling(buffer, labels)?;
        Ok(())
    }

    /// Does what `take` does, and tells whether the places may be others than before.
    fn take_telling(
        &mut self,
        buffer: &mut StepBuffer,
        labels: &[Labels],
    ) -> Result<bool, AllocError>
        requires named { IsPlaced buffer.old self.old }
        ensures named { IsPlaced buffer.new self.new }
        ensures left { self.new.left ≡ self.old.left }
        ensures fed { OnOk result (self.new.fed ≡ labels.now) }
        ensures kept { (j : _) (names : _) → slice_get buffer.old.labels j ≡ Some names → slice_get buffer.new.labels j ≡ Some names }
        ensures steps { buffer.new.steps ≡ buffer.old.steps }
        ensures stay { IfOk result (λ changed. changed ≡ false → self.new.places ≡ self.old.places) }
        ensures err { OnErr result (self.new.places ≡ []) }
    {
        let before = mem::replace(&mut self.kept, nothing(self.alloc));
        let fewer = labels.len() < before.places.len();
        let kept = cut(before, labels.len());
        let (kept, changed) = placed(self.alloc, &self.left, buffer, kept, labels)?;
        self.kept = kept;
        Ok(fewer || changed)
    }

    /// Takes all steps out of the buffer that the labels fed before stand in, and takes the labels that are fed. Where half of
    /// the buffer's labels, rounded down, are more than are fed, its labels are taken out first and all are made anew, so that
    /// it doesn't grow with the number of feeds. The only error is want of memory; then no labels are kept, and the next feed
    /// may begin all the same.
    pub fn renew(&mut self, buffer: &mut StepBuffer, labels: &[Labels]) -> Result<(), AllocError>
        requires named { IsPlaced buffer.old self.old }
        ensures named { IsPlaced buffer.new self.new }
        ensures left { self.new.left ≡ self.old.left }
        ensures fed { OnOk result (self.new.fed ≡ labels.now) }
        ensures steps { buffer.new.steps ≡ [] }
    {
        self.renew_telling(buffer, labels)?;
        Ok(())
    }

    /// Does what `renew` does, and tells whether the places may be others than before.
    pub(crate) fn renew_telling(
        &mut self,
        buffer: &mut StepBuffer,
        labels: &[Labels],
    ) -> Result<bool, AllocError>
        requires named { IsPlaced buffer.old self.old }
        ensures named { IsPlaced buffer.new self.new }
        ensures left { self.new.left ≡ self.old.left }
        ensures fed { OnOk result (self.new.fed ≡ labels.now) }
        ensures steps { buffer.new.steps ≡ [] }
        ensures stay { IfOk result (λ changed. changed ≡ false → self.new.places ≡ self.old.places) }
        ensures err { OnErr result (self.new.places ≡ []) }
    {
        if buffer.lend().labels().len() / 2 > labels.len() {
            buffer.clear();
            self.forget();
            self.take_telling(buffer, labels)?;
            return Ok(true);
        }
        buffer.renew();
        self.take_telling(buffer, labels)
    }

    /// Does what `renew` does with labels that are given, which are kept as they are: none is copied. What is left of each is made
    /// anew, whatever was fed before.
    pub(crate) fn renew_own(
        &mut self,
        buffer: &mut StepBuffer,
        labels: Vec<Labels>,
    ) -> Result<(), AllocError>
        ensures named { IsPlaced buffer.new self.new }
        ensures left { self.new.left ≡ self.old.left }
        ensures fed { OnOk result (self.new.fed ≡ labels.items) }
        ensures steps { buffer.new.steps ≡ [] }
        ensures err { OnErr result (self.new.places ≡ []) }
    {
        self.forget();
        if buffer.lend().labels().len() / 2 > labels.len() {
            buffer.clear();
        } else {
            buffer.renew();
        }
        let places = places_of(self.alloc, &self.left, buffer, labels.as_slice())?;
        self.kept = Kept {
            fed: labels,
            places,
        };
        Ok(())
    }

    /// Beside each of the labels that were fed the place of what is left of them. It takes no memory.
    pub fn places(&self) -> &[usize]
        ensures { result.now ≡ self.now.places }
    {
        self.kept.places.as_slice()
    }
}

fn nothing(alloc: Global) -> Kept
    ensures fed { result.fed.items ≡ [] }
    ensures places { result.places.items ≡ [] }
{
    Kept {
        fed: Vec::new(alloc),
        places: Vec::new(alloc),
    }
}

/// At most the first so many.
fn cut(kept: Kept, count: usize) -> Kept
    ensures fed { result.fed.items ≡ take count kept.fed.items }
    ensures places { result.places.items ≡ take count kept.places.items }
{
    let Kept {
        mut fed,
        mut places,
    } = kept;
    fed.truncate(count);
    places.truncate(count);
    Kept { fed, places }
}

/// Takes the labels that are fed in the place of those that are kept, where they differ, and tells whether some do.
fn placed(
    alloc: Global,
    left: &Left,
    buffer: &mut StepBuffer,
    before: Kept,
    labels: &[Labels],
) -> Result<(Kept, bool), AllocError>
    requires named { AreAt buffer.old.labels (map (left_of left.now) before.fed.items) before.places.items }
    requires within { length before.fed.items ≤ length labels.now }
    ensures fed { IfOk result (λ k. k.0.fed.items ≡ labels.now) }
    ensures named { IfOk result (λ k. AreAt buffer.new.labels (map (left_of left.now) k.0.fed.items) k.0.places.items) }
    ensures stay { IfOk result (λ k. k.1 ≡ false → k.0.places.items ≡ before.places.items) }
    ensures kept { (j : _) (names : _) → slice_get buffer.old.labels j ≡ Some names → slice_get buffer.new.labels j ≡ Some names }
    ensures steps { buffer.new.steps ≡ buffer.old.steps }
{
    let mut kept = before;
    let mut changed = false;
    for i in 0..labels.len() {
        let names = &labels[i];
        if has(&kept, i, names) {
            continue;
        }
        let place = place_of(alloc, left, buffer, names)?;
        kept = kept_at(kept, i, names.copy()?, place)?;
        changed = true;
    }
    Ok((kept, changed))
}

/// Whether these labels are kept at a place.
fn has(kept: &Kept, i: usize, labels: &Labels) -> bool
    ensures { IsTrue result → slice_get kept.now.fed.items i ≡ Some labels.now }
{
    let fed = kept.fed.as_slice();
    i < fed.len() && fed[i].is_same(labels)
}

/// Beside each of the labels the place of what is left of them.
fn places_of(
    alloc: Global,
    left: &Left,
    buffer: &mut StepBuffer,
    labels: &[Labels],
) -> Result<Vec<usize>, AllocError>
    ensures named { IfOk result (λ places. AreAt buffer.new.labels (map (left_of left.now) labels.now) places.items) }
    ensures steps { buffer.new.steps ≡ buffer.old.steps }
{
    let mut places = Vec::with_capacity(alloc, labels.len())?;
    for i in 0..labels.len() {
        let place = place_of(alloc, left, buffer, &labels[i])?;
        places.push(place)?;
    }
    Ok(places)
}

/// The place of what is left of labels.
fn place_of(
    alloc: Global,
    left: &Left,
    buffer: &mut StepBuffer,
    labels: &Labels,
) -> Result<usize, AllocError>
    ensures place { IfOk result (λ i. slice_get buffer.new.labels i ≡ Some (left_of left.now labels.now)) }
    ensures kept { (j : _) (names : _) → slice_get buffer.old.labels j ≡ Some names → slice_get buffer.new.labels j ≡ Some names }
    ensures steps { buffer.new.steps ≡ buffer.old.steps }
{
    buffer.place_own(left.of(alloc, labels)?)
}

/// Keeps labels at a place of the feed, in the place of those that are kept there.
fn kept_at(kept: Kept, i: usize, labels: Labels, place: usize) -> Result<Kept, AllocError>
    requires same { length kept.places.items ≡ length kept.fed.items }
    requires next { i ≤ length kept.fed.items }
    ensures fed { IfOk result (λ k. k.fed.items ≡ take i kept.fed.items ++ labels ∷ drop (i + 1) kept.fed.items) }
    ensures places { IfOk result (λ k. k.places.items ≡ take i kept.places.items ++ place ∷ drop (i + 1) kept.places.items) }
{
    let Kept {
        mut fed,
        mut places,
    } = kept;
    if i < fed.len() {
        fed[i] = labels;
        places[i] = place;
        return Ok(Kept { fed, places });
    }
    fed.push(labels)?;
    places.push(place)?;
    Ok(Kept { fed, places })
}
