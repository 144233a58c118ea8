//! Labels that were fed, and what they say of a bucket.
ghost use Rattle.op_buckets.specs.Histograms.{AreRead, bound_in, histogram_of as histogram_of_labels};
ghost use Rattle.std.specs.Prelude.{◌≡◌, ◌≤◌, ◌+◌, ◌++◌, ◌∷◌, [], Some, drop, length, slice_get, take, IfOk, IsTrue, OnOk};

use label_set::Labels;
use promql_meaning::without_label;
use std::alloc::{AllocError, Global};
use std::mem;
use step_rules::bound_of;
use xfrac::XFrac;

/// The label that has a bucket's upper bound.
pub(crate) const BUCKET_LABEL: &str = "le";

/// Labels that were fed, beside each the labels of its histogram, and its bound, where that is a number.
#[derive(Drop)]
pub(crate) struct KeptLabels {
    pub fed: Vec<Labels>,
    pub histograms: Vec<Labels>,
    pub bounds: Vec<Option<XFrac>>,
}

impl KeptLabels {
    /// Nothing is fed yet. It takes no memory.
    pub(crate) fn new(alloc: Global) -> KeptLabels
        ensures fed { result.fed.items ≡ [] }
        ensures histograms { result.histograms.items ≡ [] }
        ensures bounds { result.bounds.items ≡ [] }
    {
        KeptLabels {
            fed: Vec::new(alloc),
            histograms: Vec::new(alloc),
            bounds: Vec::new(alloc),
        }
    }

    /// Takes the labels that are fed, and reads those that differ from the labels fed before at their place. The only error
    /// is want of memory; then nothing is kept.
    pub(crate) fn renew(&mut self, alloc: Global, labels: &[Labels]) -> Result<(), AllocError>
        requires read { AreRead self.old.fed.items self.old.histograms.items self.old.bounds.items }
        ensures fed { OnOk result (self.new.fed.items ≡ labels.now) }
        ensures read { AreRead self.new.fed.items self.new.histograms.items self.new.bounds.items }
    {
        let before = mem::replace(self, KeptLabels::new(alloc));
        let kept = cut(before, labels.len());
        *self = renewed(alloc, kept, labels)?;
        Ok(())
    }
}

/// At most the first so many.
fn cut(kept: KeptLabels, count: usize) -> KeptLabels
    ensures fed { result.fed.items ≡ take count kept.fed.items }
    ensures histograms { result.histograms.items ≡ take count kept.histograms.items }
    ensures bounds { result.bounds.items ≡ take count kept.bounds.items }
{
    let KeptLabels {
        mut fed,
        mut histograms,
        mut bounds,
    } = kept;
    fed.truncate(count);
    histograms.truncate(count);
    bounds.truncate(count);
    KeptLabels {
        fed,
        histograms,
        bounds,
    }
}

/// Takes the labels that are fed in the place of those that are kept, where they differ.
fn renewed(alloc: Global, before: KeptLabels, labels: &[Labels]) -> Result<KeptLabels, AllocError>
    requires read { AreRead before.fed.items before.histograms.items before.bounds.items }
    requires within { length before.fed.items ≤ length labels.now }
    ensures fed { IfOk result (λ k. k.fed.items ≡ labels.now) }
    ensures read { IfOk result (λ k. AreRead k.fed.items k.histograms.items k.bounds.items) }
{
    let mut kept = before;
    for i in 0..labels.len() {
        let names = &labels[i];
        if has(&kept, i, names) {
            continue;
        }
        let histogram = histogram_of(alloc, names)?;
        let bound = bound_in_labels(names);
        kept = kept_at(kept, i, names.copy()?, histogram, bound)?;
    }
    Ok(kept)
}

fn histogram_of(alloc: Global, labels: &Labels) -> Result<Labels, AllocError>
    ensures { IfOk result (λ l. l ≡ histogram_of_labels labels.now) }
{
    without_label(alloc, labels, BUCKET_LABEL)
}

fn bound_in_labels(labels: &Labels) -> Option<XFrac>
    ensures { result ≡ bound_in labels.now }
{
    bound_of(labels.get(BUCKET_LABEL))
}

/// Whether these labels are kept at a place.
fn has(kept: &KeptLabels, i: usize, labels: &Labels) -> bool
    ensures { IsTrue result → slice_get kept.now.fed.items i ≡ Some labels.now }
{
    let fed = kept.fed.as_slice();
    i < fed.len() && fed[i].is_same(labels)
}

/// Keeps labels at a place of the feed, with what they say of a bucket, in the place of those that are kept there.
fn kept_at(
    kept: KeptLabels,
    i: usize,
    labels: Labels,
    histogram: Labels,
    bound: Option<XFrac>,
) -> Result<KeptLabels, AllocError>
    requires histograms { length kept.histograms.items ≡ length kept.fed.items }
    requires bounds { length kept.bounds.items ≡ length kept.fed.items }
    requires next { i ≤ length kept.fed.items }
    ensures fed { IfOk result (λ k. k.fed.items ≡ take i kept.fed.items ++ labels ∷ drop (i + 1) kept.fed.items) }
    ensures histograms { IfOk result (λ k. k.histograms.items ≡ take i kept.histograms.items ++ histogram ∷ drop (i + 1) kept.histograms.items) }
    ensures bounds { IfOk result (λ k. k.bounds.items ≡ take i kept.bounds.items ++ bound ∷ drop (i + 1) kept.bounds.items) }
{
    let KeptLabels {
        mut fed,
        mut histograms,
        mut bounds,
    } = kept;
    if i < fed.len() {
        fed[i] = labels;
        histograms[i] = histogram;
        bounds[i] = bound;
        return Ok(KeptLabels {
            fed,
            histograms,
            bounds,
        });
    }
    fed.push(labels)?;
    histograms.push(histogram)?;
    bounds.push(bound)?;
    Ok(KeptLabels {
        fed,
        histograms,
        bounds,
    })
}
