ghost use Rattle.std.specs.List.{AllByRecursion};
ghost use Rattle.std.specs.List.Sorted.{IsStrictlyIncreasing};
ghost use Rattle.std.specs.Prelude.{◌≡◌, ◌<◌, ◌<ℤ◌, ◌++◌, ◌∷◌, [], length, IsTrue, IfOk, OnErr, OnOk};
ghost use Rattle.step_batch.specs.Lent.{IsLater, stages};
ghost use Rattle.step_put.specs.Clashes.{AreApart};
ghost use Rattle.step_put.specs.Placed.{PlacesRise, made_step};

use crate::cells::Cell;
use crate::clashing::put_clashing;
use crate::labels_left::Left;
use crate::own_places::Placing;
use crate::owners::{Owners, note};
use crate::placed::PlacedOutcome;
use crate::rising::{is_apart, put_rising};
use label_set::Labels;
use std::alloc::{AllocError, Global};
use std::marker::Model;
use step_batch::{Batch, StepBuffer};
use step_table::Marks;
use ticks::Ms;

/// Steps that are made row by row of steps that are fed, and lent. `rises` says that the own places of what is fed rise, so
/// that no two rows come to share labels; where they don't, `owners` notes which of them one labels alone have, and `cells`
/// keeps the memory for steps.
#[derive(Drop)]
pub struct OutcomeBuffer {
    alloc: Global,
    placing: Placing,
    rises: bool,
    owners: Vec<Owners>,
    cells: Vec<Cell>,
    buffer: StepBuffer,
}

impl Model for OutcomeBuffer {
    ghost use Rattle.std.specs.List.Sorted.{IsStrictlyIncreasing};
    ghost use Rattle.std.specs.Prelude.{IsTrue};
    ghost use Rattle.step_put.specs.Clashes.{AreApart};
    ghost use Rattle.step_put.specs.Placed.{IsPlaced, Made};

    ghost Value = { Made };

    ghost view = { λ b. record { left = b.placing.left; fed = b.placing.fed; lent = b.buffer } };

    ghost invariant = { λ b. IsPlaced b.buffer b.placing × (IsTrue b.rises → IsStrictlyIncreasing b.placing.places) × AreApart b.owners.items b.placing.places };
}

impl OutcomeBuffer {
    /// No steps and no labels; of the labels of rows those stay that `left` says. It takes no memory.
    pub fn new(alloc: Global, left: Left) -> OutcomeBuffer
        ensures { result ≡ record { left = left; fed = []; lent = record { labels = []; steps = [] } } }
    {
        OutcomeBuffer {
            alloc,
            placing: Placing::new(alloc, left),
            rises: false,
            owners: Vec::new(alloc),
            cells: Vec::new(alloc),
            buffer: StepBuffer::new(alloc),
        }
    }

    /// Takes all steps out, and takes the labels that are fed. The only error is want of memory; then the next feed may
    /// begin all the same.
    pub fn begin_feed(&mut self, labels: &[Labels]) -> Result<(), AllocError>
        ensures left { self.new.left ≡ self.old.left }
        ensures fed { OnOk result (self.new.fed ≡ labels.now) }
        ensures steps { self.new.lent.steps ≡ [] }
    {
        let changed = self.placing.renew_telling(&mut self.buffer, labels)?;
        if changed {
            self.rises = false;
            let count = self.buffer.lend().labels().len();
            self.rises = look_over(&mut self.owners, count, self.placing.places())?;
        }
        Ok(())
    }

    /// Does what `begin_feed` does with labels that are given, which are kept as they are: none is copied. It serves a first feed;
    /// where most labels are fed again, `begin_feed` keeps their places, and this makes them anew.
    pub fn begin_feed_own(&mut self, labels: Vec<Labels>) -> Result<(), AllocError>
        ensures left { self.new.left ≡ self.old.left }
        ensures fed { OnOk result (self.new.fed ≡ labels.items) }
        ensures steps { self.new.lent.steps ≡ [] }
    {
        self.placing.renew_own(&mut self.buffer, labels)?;
        self.rises = false;
        let count = self.buffer.lend().labels().len();
        self.rises = look_over(&mut self.owners, count, self.placing.places())?;
        Ok(())
    }

    /// Takes all steps out for a feed of the labels that were fed last. It looks at no labels, and takes no memory.
    pub fn begin_same_feed(&mut self)
        ensures left { self.new.left ≡ self.old.left }
        ensures fed { self.new.fed ≡ self.old.fed }
        ensures labels { self.new.lent.labels ≡ self.old.lent.labels }
        ensures steps { self.new.lent.steps ≡ [] }
    {
        self.buffer.renew();
    }

    /// Puts the step of what is made of the rows of a step, with its marks and notes. The only error is want of memory;
    /// then the next feed may begin all the same.
    pub fn put(&mut self, at: Ms, marks: &Marks, placed: &[PlacedOutcome]) -> Result<(), AllocError>
        requires later { IsLater self.old.lent at }
        requires rising { PlacesRise 0 (length self.old.fed) placed.now }
        ensures left { self.new.left ≡ self.old.left }
        ensures fed { self.new.fed ≡ self.old.fed }
        ensures later { OnOk result ((u : _) → at.0 <ℤ u.0 → IsLater self.new.lent u) }
        ensures lent { OnOk result (stages self.new.lent ≡ stages self.old.lent ++ record { at = at; step = made_step self.old.left self.old.fed marks.now placed.now } ∷ []) }
    {
        if is_apart(self.rises, self.placing.places(), placed) {
            put_rising(
                self.alloc,
                &mut self.buffer,
                &self.placing,
                at,
                marks,
                placed,
            )
        } else {
            put_clashing(
                self.alloc,
                &mut self.buffer,
                &mut self.cells,
                self.owners.as_slice(),
                &self.placing,
                at,
                marks,
                placed,
            )
        }
    }

    /// Lends the steps. It takes no memory.
    pub fn lend(&self) -> Batch<'_>
        ensures { result ≡ self.now.lent }
    {
        self.buffer.lend()
    }
}

/// Whether own places rise; where they don't, it is noted which of so many one labels alone have. The only error is want of
/// memory; then nothing is noted.
fn look_over(owners: &mut Vec<Owners>, count: usize, places: &[usize]) -> Result<bool, AllocError>
    requires { AllByRecursion (λ place. place < count) places.now }
    ensures rising { IfOk result (λ rises. IsTrue rises → IsStrictlyIncreasing places.now) }
    ensures apart { OnOk result (AreApart owners.new.items places.now) }
    ensures err { OnErr result (owners.new.items ≡ []) }
{
    owners.clear();
    if are_rising(places) {
        return Ok(true);
    }
    note(owners, count, places)?;
    Ok(false)
}

/// Whether own places rise.
fn are_rising(places: &[usize]) -> bool
    ensures { IsTrue result → IsStrictlyIncreasing places.now }
{
    for i in 1..places.len() {
        if places[i] <= places[i - 1] {
            return false;
        }
    }
    true
}
