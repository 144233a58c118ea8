ghost use Rattle.op_ratio.specs.Counts.{IsNumbered};
ghost use Rattle.op_ratio.specs.Ratios.{all_ratios, ratio_at};
ghost use Rattle.std.specs.Option.{option_map};
ghost use Rattle.std.specs.Prelude.{◌≡◌, ◌<◌, ◌<ℤ◌, ◌++◌, ◌∷◌, [], Some, length, slice_get, IfOk, OnOk};
ghost use Rattle.step_batch.specs.Lent.{IsLater, stages};
ghost use Rattle.step_put.specs.declared.labels_left.Left.TheVariants.{All as AllLabels};

use crate::dividing::{divide, note};
use crate::numbering::Numbering;
use std::alloc::{AllocError, Global};
use std::marker::Model;
use step_batch::Batch;
use step_batch::laws::lent_steps_are_tables;
use step_put::{Left, OutcomeBuffer, PlacedOutcome};
use step_table::laws::steps_are_well_formed;
use step_table::order_laws::rows_ignore_order;

/// A kernel of a ratio: each row of a sum, divided by the row of a count that has its labels. Labels are numbered once for
/// each labels that are fed, and keep their numbers over feeds as long as the labels at that place of the side stay equal.
/// `noted` says where the count of a number stands in the last step, and `placed` is what was made of that step's rows.
#[derive(Drop)]
pub struct Ratios {
    numbering: Numbering,
    noted: Vec<usize>,
    placed: Vec<PlacedOutcome>,
    made: OutcomeBuffer,
}

impl Model for Ratios {
    ghost use Rattle.op_ratio.specs.Counts.{IsNumbered};
    ghost use Rattle.std.specs.Prelude.{◌≡◌};
    ghost use Rattle.step_batch.specs.Lent.{Lent};
    ghost use Rattle.step_put.specs.declared.labels_left.Left.TheVariants.{All as AllLabels};

    ghost Value = { Lent };

    ghost view = { λ k. k.made.lent };

    ghost invariant = { λ k. IsNumbered k.numbering × (k.made.left ≡ AllLabels) };
}

impl Ratios {
    /// A kernel that was fed nothing. Like the other kernels it may answer want of memory.
    pub fn new(alloc: Global) -> Result<Ratios, AllocError>
        ensures { IfOk result (λ k. stages k ≡ []) }
    {
        Ok(Ratios {
            numbering: Numbering::new(alloc),
            noted: Vec::new(alloc),
            placed: Vec::new(alloc),
            made: OutcomeBuffer::new(alloc, Left::All),
        })
    }

    /// Takes what is fed in the place of what was fed before: as many steps of the sum and of the count, which are of the same
    /// instants. The only error is want of memory; then a next feed may follow all the same.
    pub fn feed(&mut self, sum: &Batch<'_>, count: &Batch<'_>) -> Result<(), AllocError>
        requires { length count.now.steps ≡ length sum.now.steps }
        ensures { OnOk result (stages self.new ≡ all_ratios (stages sum.now) (stages count.now)) }
    {
        self.numbering.renew(sum.labels(), count.labels())?;
        self.noted.resize(self.numbering.count(), 0)?;
        self.made.begin_feed(sum.labels())?;
        put_all(
            &self.numbering,
            self.noted.as_mut_slice(),
            &mut self.placed,
            &mut self.made,
            sum,
            count,
        )
    }

    /// Lends the steps that were made of what was fed last. It takes no memory.
    pub fn lend(&self) -> Batch<'_>
        ensures { result ≡ self.now }
    {
        self.made.lend()
    }
}

/// Puts the quotients of steps.
fn put_all(
    numbering: &Numbering,
    noted: &mut [usize],
    placed: &mut Vec<PlacedOutcome>,
    made: &mut OutcomeBuffer,
    sum: &Batch<'_>,
    count: &Batch<'_>,
) -> Result<(), AllocError>
    requires steps { length count.now.steps ≡ length sum.now.steps }
    requires numbered { IsNumbered numbering.now }
    requires sums { numbering.now.sums.fed ≡ sum.now.labels }
    requires counts { numbering.now.counts.fed ≡ count.now.labels }
    requires room { length noted.old ≡ length numbering.now.names.labels }
    requires left { made.old.left ≡ AllLabels }
    requires fed { made.old.fed ≡ sum.now.labels }
    requires empty { made.old.lent.steps ≡ [] }
    ensures left { made.new.left ≡ made.old.left }
    ensures lent { OnOk result (stages made.new.lent ≡ all_ratios (stages sum.now) (stages count.now)) }
{
    for i in 0..sum.len() {
        put_one(numbering, noted, placed, made, sum, count, i)?;
    }
    Ok(())
}

/// Puts the quotients of the steps at a place.
fn put_one(
    numbering: &Numbering,
    noted: &mut [usize],
    placed: &mut Vec<PlacedOutcome>,
    made: &mut OutcomeBuffer,
    sum: &Batch<'_>,
    count: &Batch<'_>,
    i: usize,
) -> Result<(), AllocError>
    requires here { i < length sum.now.steps }
    requires there { i < length count.now.steps }
    requires numbered { IsNumbered numbering.now }
    requires sums { numbering.now.sums.fed ≡ sum.now.labels }
    requires counts { numbering.now.counts.fed ≡ count.now.labels }
    requires room { length noted.old ≡ length numbering.now.names.labels }
    requires left { made.old.left ≡ AllLabels }
    requires fed { made.old.fed ≡ sum.now.labels }
    requires later { (t : _) → option_map (λ s. s.at) (slice_get sum.now.steps i) ≡ Some t → IsLater made.old.lent t }
    ensures room { length noted.new ≡ length noted.old }
    ensures left { made.new.left ≡ made.old.left }
    ensures fed { made.new.fed ≡ made.old.fed }
    ensures later { OnOk result ((t u : _) → option_map (λ s. s.at) (slice_get sum.now.steps i) ≡ Some t → t.0 <ℤ u.0 → IsLater made.new.lent u) }
    ensures lent { OnOk result ((s c : _) → slice_get (stages sum.now) i ≡ Some s → slice_get (stages count.now) i ≡ Some c
        → stages made.new.lent ≡ stages made.old.lent ++ ratio_at s c ∷ []) }
{
    lent_steps_are_tables();
    rows_ignore_order();
    steps_are_well_formed();
    let _ = numbering.names.lend().labels();
    let _ = sum.labels();
    let _ = count.labels();
    let t = sum.at(i);
    let sums = sum.slots(i);
    let counts = count.slots(i);
    let sum_marks = sum.marks(i);
    let count_marks = count.marks(i);
    let mut marks = sum_marks.copy()?;
    marks.unite(count_marks)?;
    let sum_numbers = numbering.sums.places();
    let count_numbers = numbering.counts.places();
    note(noted, count_numbers, counts);
    divide(placed, &*noted, sum_numbers, sums, count_numbers, counts)?;
    made.put(t, &marks, placed.as_slice())?;
    Ok(())
}
