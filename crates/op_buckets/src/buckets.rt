ghost use Rattle.label_set.specs.LabelEquality.{labels_eq};
ghost use Rattle.op_buckets.specs.Histograms.{AreRead, histogram_of};
ghost use Rattle.op_buckets.specs.Rules.{IsScalar, all_quantiles, quantiles_at};
ghost use Rattle.op_buckets.specs.Splits.{value_asked as value_of_slots};
ghost use Rattle.std.specs.List.{IsDistinct};
ghost use Rattle.std.specs.Option.{option_map};
ghost use Rattle.std.specs.Prelude.{◌≡◌, ◌++◌, ◌∷◌, ◌<◌, ◌<ℤ◌, [], Some, length, map, slice_get, IfOk, OnOk};
ghost use Rattle.step_batch.specs.Lent.{IsLater, stages};
ghost use Rattle.step_put.specs.Puts.{AreAt};
ghost use Rattle.step_put.specs.declared.labels_left.Left.TheVariants as kind;

use crate::groups::Groups;
use crate::kept_labels::KeptLabels;
use crate::split::Split;
use std::alloc::{AllocError, Global};
use std::marker::Model;
use step_batch::laws::lent_steps_are_tables;
use step_batch::{Batch, Slot};
use step_put::{Left, OutcomeBuffer};
use step_table::order_laws::{rows_ignore_order, sets_ignore_order};
use window_fn::laws::order_doesnt_matter;
use xfrac::XFrac;
use xfrac::laws::order_is_total;

/// A kernel of histogram_quantile. Bounds are read and histograms found once for each labels that are fed, and kept over feeds
/// while the labels at that place stay equal. The buckets of a feed are sorted once while the places of rows stay.
#[derive(Drop)]
pub struct Buckets {
    alloc: Global,
    kept: KeptLabels,
    groups: Groups,
    split: Split,
    rows: OutcomeBuffer,
}

impl Model for Buckets {
    ghost use Rattle.op_buckets.specs.Histograms.{AreRead};
    ghost use Rattle.std.specs.Prelude.{◌≡◌};
    ghost use Rattle.step_batch.specs.Lent.{Lent};
    ghost use Rattle.step_put.specs.declared.labels_left.Left.TheVariants as kind;

    ghost Value = { Lent };

    ghost view = { λ k. k.rows.lent };

    ghost invariant = { λ k. AreRead k.kept.fed.items k.kept.histograms.items k.kept.bounds.items × (k.rows.left ≡ kind.Nameless) };
}

impl Buckets {
    /// A kernel that was fed nothing. Like the other kernels it may answer want of memory.
    pub fn new(alloc: Global) -> Result<Buckets, AllocError>
        ensures { IfOk result (λ k. stages k ≡ []) }
    {
        Ok(Buckets {
            alloc,
            kept: KeptLabels::new(alloc),
            groups: Groups::new(alloc),
            split: Split::new(alloc),
            rows: OutcomeBuffer::new(alloc, Left::Nameless),
        })
    }

    /// Takes steps, each beside its quantile, in the place of what was fed before. The only error is want of memory; then a
    /// next feed may follow all the same.
    pub fn feed(&mut self, rows: &Batch<'_>, quantile: &Batch<'_>) -> Result<(), AllocError>
        requires quantiles { length quantile.now.steps ≡ length rows.now.steps }
        requires scalar { IsScalar quantile.now }
        ensures { OnOk result (stages self.new ≡ all_quantiles (stages quantile.now) (stages rows.now)) }
    {
        self.kept.renew(self.alloc, rows.labels())?;
        self.groups.renew(self.kept.histograms.as_slice())?;
        self.rows.begin_feed(self.groups.lend().labels())?;
        self.split.begin_feed();
        put_all(
            self.alloc,
            &self.kept,
            self.groups.places(),
            &mut self.split,
            &mut self.rows,
            rows,
            quantile,
        )
    }

    /// Lends the steps that were made of what was fed last. It takes no memory.
    pub fn lend(&self) -> Batch<'_>
        ensures { result ≡ self.now }
    {
        self.rows.lend()
    }
}

/// Puts the quantiles of the histograms of steps.
fn put_all(
    alloc: Global,
    kept: &KeptLabels,
    groups: &[usize],
    split: &mut Split,
    made: &mut OutcomeBuffer,
    rows: &Batch<'_>,
    quantile: &Batch<'_>,
) -> Result<(), AllocError>
    requires quantiles { length quantile.now.steps ≡ length rows.now.steps }
    requires scalar { IsScalar quantile.now }
    requires fed { kept.now.fed.items ≡ rows.now.labels }
    requires read { AreRead kept.now.fed.items kept.now.histograms.items kept.now.bounds.items }
    requires there { AreAt made.old.fed (map histogram_of rows.now.labels) groups.now }
    requires distinct { IsDistinct labels_eq made.old.fed }
    requires left { made.old.left ≡ kind.Nameless }
    requires empty { made.old.lent.steps ≡ [] }
    ensures left { made.new.left ≡ made.old.left }
    ensures lent { OnOk result (stages made.new.lent ≡ all_quantiles (stages quantile.now) (stages rows.now)) }
{
    for i in 0..rows.len() {
        put_one(alloc, kept, groups, split, made, rows, quantile, i)?;
    }
    Ok(())
}

/// Puts the quantiles of the histograms of the step at a place.
fn put_one(
    alloc: Global,
    kept: &KeptLabels,
    groups: &[usize],
    split: &mut Split,
    made: &mut OutcomeBuffer,
    rows: &Batch<'_>,
    quantile: &Batch<'_>,
    i: usize,
) -> Result<(), AllocError>
    requires here { i < length rows.now.steps }
    requires quantiles { i < length quantile.now.steps }
    requires scalar { IsScalar quantile.now }
    requires fed { kept.now.fed.items ≡ rows.now.labels }
    requires read { AreRead kept.now.fed.items kept.now.histograms.items kept.now.bounds.items }
    requires there { AreAt made.old.fed (map histogram_of rows.now.labels) groups.now }
    requires distinct { IsDistinct labels_eq made.old.fed }
    requires left { made.old.left ≡ kind.Nameless }
    requires later { (t : _) → option_map (λ s. s.at) (slice_get rows.now.steps i) ≡ Some t → IsLater made.old.lent t }
    ensures left { made.new.left ≡ made.old.left }
    ensures fed { made.new.fed ≡ made.old.fed }
    ensures later { OnOk result ((t u : _) → option_map (λ s. s.at) (slice_get rows.now.steps i) ≡ Some t → t.0 <ℤ u.0 → IsLater made.new.lent u) }
    ensures lent { OnOk result ((p s : _) → slice_get (stages quantile.now) i ≡ Some p → slice_get (stages rows.now) i ≡ Some s
        → stages made.new.lent ≡ stages made.old.lent ++ quantiles_at p s ∷ []) }
{
    lent_steps_are_tables();
    rows_ignore_order();
    sets_ignore_order();
    order_doesnt_matter();
    order_is_total();
    let at = rows.at(i);
    let slots = rows.slots(i);
    let asked = quantile.slots(i);
    let _ = rows.labels();
    let q = value_asked(asked);
    let mut both = rows.marks(i).copy()?;
    both.unite(quantile.marks(i))?;
    let marks = split.fill(alloc, &q, groups, kept, slots, both)?;
    made.put(at, &marks, split.placed.as_slice())?;
    Ok(())
}

/// The quantile that is asked for, unless its row is lost.
fn value_asked(slots: &[Slot]) -> Option<XFrac>
    ensures { result ≡ value_of_slots slots.now }
{
    match slots {
        [] => None,
        [slot, ..] => Some(slot.value),
    }
}
