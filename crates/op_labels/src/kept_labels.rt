//! Labels that were fed, and what was made of them.
ghost use Rattle.op_labels.specs.Rules.{AreMade, HasPatterns, relabel_of};
ghost use Rattle.std.specs.Prelude.{◌≡◌, ◌≤◌, ◌+◌, ◌++◌, ◌∷◌, [], Some, drop, length, slice_get, take, IfOk, IsTrue, OnOk};
ghost use Rattle.step_batch.specs.LentWindows.{names_of};

use crate::change::{Change, Fate, made_of};
use label_set::Labels;
use match_rule::Patterns;
use std::alloc::{AllocError, Global};
use std::mem;
use step_batch::Windows;

/// Labels that were fed, beside each the labels that were made of them, and what becomes of their rows.
#[derive(Drop)]
pub(crate) struct KeptLabels {
    pub fed: Vec<Labels>,
    pub made: Vec<Labels>,
    pub fates: Vec<Fate>,
}

impl KeptLabels {
    /// Nothing is fed yet. It takes no memory.
    pub(crate) fn new(alloc: Global) -> KeptLabels
        ensures fed { result.fed.items ≡ [] }
        ensures made { result.made.items ≡ [] }
        ensures fates { result.fates.items ≡ [] }
    {
        KeptLabels {
            fed: Vec::new(alloc),
            made: Vec::new(alloc),
            fates: Vec::new(alloc),
        }
    }

    /// Takes the labels that are fed. The change makes those anew that differ from the labels fed before at their place. The
    /// only error is want of memory; then nothing is kept.
    pub(crate) fn renew(
        &mut self,
        alloc: Global,
        change: &Change,
        patterns: &mut Patterns<'_>,
        labels: &[Labels],
    ) -> Result<(), AllocError>
        requires patterns { HasPatterns patterns.old (relabel_of change.now) }
        requires made { AreMade patterns.old (relabel_of change.now) self.old.fed.items self.old.made.items self.old.fates.items }
        ensures fed { OnOk result (self.new.fed.items ≡ labels.now) }
        ensures made { AreMade patterns.old (relabel_of change.now) self.new.fed.items self.new.made.items self.new.fates.items }
        ensures same { patterns.new ≡ patterns.old }
    {
        let before = mem::replace(self, KeptLabels::new(alloc));
        let kept = cut(before, labels.len());
        *self = renewed(alloc, change, patterns, kept, labels)?;
        Ok(())
    }

    /// Takes the labels of windows that are fed, as `renew` does.
    pub(crate) fn renew_by_windows(
        &mut self,
        alloc: Global,
        change: &Change,
        patterns: &mut Patterns<'_>,
        windows: &Windows<'_>,
    ) -> Result<(), AllocError>
        requires patterns { HasPatterns patterns.old (relabel_of change.now) }
        requires made { AreMade patterns.old (relabel_of change.now) self.old.fed.items self.old.made.items self.old.fates.items }
        ensures fed { OnOk result (self.new.fed.items ≡ names_of windows.now.rows) }
        ensures made { AreMade patterns.old (relabel_of change.now) self.new.fed.items self.new.made.items self.new.fates.items }
        ensures same { patterns.new ≡ patterns.old }
    {
        let before = mem::replace(self, KeptLabels::new(alloc));
        let kept = cut(before, windows.len());
        *self = renewed_by_windows(alloc, change, patterns, kept, windows)?;
        Ok(())
    }
}

/// At most the first so many.
fn cut(kept: KeptLabels, count: usize) -> KeptLabels
    ensures fed { result.fed.items ≡ take count kept.fed.items }
    ensures made { result.made.items ≡ take count kept.made.items }
    ensures fates { result.fates.items ≡ take count kept.fates.items }
{
    let KeptLabels {
        mut fed,
        mut made,
        mut fates,
    } = kept;
    fed.truncate(count);
    made.truncate(count);
    fates.truncate(count);
    KeptLabels { fed, made, fates }
}

/// Takes the labels that are fed in the place of those that are kept, where they differ.
fn renewed(
    alloc: Global,
    change: &Change,
    patterns: &mut Patterns<'_>,
    before: KeptLabels,
    labels: &[Labels],
) -> Result<KeptLabels, AllocError>
    requires patterns { HasPatterns patterns.old (relabel_of change.now) }
    requires made { AreMade patterns.old (relabel_of change.now) before.fed.items before.made.items before.fates.items }
    requires within { length before.fed.items ≤ length labels.now }
    ensures fed { IfOk result (λ k. k.fed.items ≡ labels.now) }
    ensures made { IfOk result (λ k. AreMade patterns.old (relabel_of change.now) k.fed.items k.made.items k.fates.items) }
    ensures same { patterns.new ≡ patterns.old }
{
    let mut kept = before;
    for i in 0..labels.len() {
        kept = renewed_at(alloc, change, patterns, kept, i, &labels[i])?;
    }
    Ok(kept)
}

/// Takes the labels of windows that are fed in the place of those that are kept, where they differ.
fn renewed_by_windows(
    alloc: Global,
    change: &Change,
    patterns: &mut Patterns<'_>,
    before: KeptLabels,
    windows: &Windows<'_>,
) -> Result<KeptLabels, AllocError>
    requires patterns { HasPatterns patterns.old (relabel_of change.now) }
    requires made { AreMade patterns.old (relabel_of change.now) before.fed.items before.made.items before.fates.items }
    requires within { length before.fed.items ≤ length (names_of windows.now.rows) }
    ensures fed { IfOk result (λ k. k.fed.items ≡ names_of windows.now.rows) }
    ensures made { IfOk result (λ k. AreMade patterns.old (relabel_of change.now) k.fed.items k.made.items k.fates.items) }
    ensures same { patterns.new ≡ patterns.old }
{
    let mut kept = before;
    for i in 0..windows.len() {
        kept = renewed_at(alloc, change, patterns, kept, i, windows.labels(i))?;
    }
    Ok(kept)
}

/// Takes labels at a place of the feed. The change makes those anew that differ from the labels kept there.
fn renewed_at(
    alloc: Global,
    change: &Change,
    patterns: &mut Patterns<'_>,
    kept: KeptLabels,
    i: usize,
    labels: &Labels,
) -> Result<KeptLabels, AllocError>
    requires patterns { HasPatterns patterns.old (relabel_of change.now) }
    requires made { AreMade patterns.old (relabel_of change.now) kept.fed.items kept.made.items kept.fates.items }
    requires next { i ≤ length kept.fed.items }
    ensures fed { IfOk result (λ k. k.fed.items ≡ take i kept.fed.items ++ labels.now ∷ drop (i + 1) kept.fed.items) }
    ensures made { IfOk result (λ k. AreMade patterns.old (relabel_of change.now) k.fed.items k.made.items k.fates.items) }
    ensures same { patterns.new ≡ patterns.old }
{
    if has(&kept, i, labels) {
        return Ok(kept);
    }
    let made = made_of(alloc, change, patterns, labels)?;
    let next = kept_at(kept, i, labels.copy()?, made)?;
    Ok(next)
}

/// Whether these labels are kept at a place.
fn has(kept: &KeptLabels, i: usize, labels: &Labels) -> bool
    ensures { IsTrue result → slice_get kept.now.fed.items i ≡ Some labels.now }
{
    let fed = kept.fed.as_slice();
    i < fed.len() && fed[i].is_same(labels)
}

/// Keeps labels at a place of the feed, with what was made of them, in the place of those that are kept there.
fn kept_at(
    kept: KeptLabels,
    i: usize,
    labels: Labels,
    new: (Labels, Fate),
) -> Result<KeptLabels, AllocError>
    requires made { length kept.made.items ≡ length kept.fed.items }
    requires fates { length kept.fates.items ≡ length kept.fed.items }
    requires next { i ≤ length kept.fed.items }
    ensures fed { IfOk result (λ k. k.fed.items ≡ take i kept.fed.items ++ labels ∷ drop (i + 1) kept.fed.items) }
    ensures made { IfOk result (λ k. k.made.items ≡ take i kept.made.items ++ new.0 ∷ drop (i + 1) kept.made.items) }
    ensures fates { IfOk result (λ k. k.fates.items ≡ take i kept.fates.items ++ new.1 ∷ drop (i + 1) kept.fates.items) }
{
    let KeptLabels {
        mut fed,
        mut made,
        mut fates,
    } = kept;
    let (renewed, fate) = new;
    if i < fed.len() {
        fed[i] = labels;
        made[i] = renewed;
        fates[i] = fate;
        return Ok(KeptLabels { fed, made, fates });
    }
    fed.push(labels)?;
    made.push(renewed)?;
    fates.push(fate)?;
    Ok(KeptLabels { fed, made, fates })
}
