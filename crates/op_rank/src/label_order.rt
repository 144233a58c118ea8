//! The order of the labels that are fed, as numbers.
ghost use Rattle.label_set.specs.LabelEquality.{labels_eq};
ghost use Rattle.label_set.specs.Labels.{labels_cmp};
ghost use Rattle.op_rank.specs.Contenders.{AreRanks};
ghost use Rattle.op_rank.specs.LabelOrders.{AreInverse, AreListed, ArePlaces, LabelsRise, names_at};
ghost use Rattle.std.specs.List.{All, IsDistinct};
ghost use Rattle.std.specs.List.Sorted.{IsPermutation, IsSortedBy};
ghost use Rattle.std.specs.declared.cmp.Ordering.TheVariants.{Less};
ghost use Rattle.std.specs.Prelude.{◌≡◌, ◌<◌, ℕ, length, map, replicate, slice_index_or, IfOk, IsTrue, OnOk};

use label_set::{Labels, order_is_total};
use std::alloc::{AllocError, Global};
use std::cmp::Ordering;

/// Labels beside their place.
#[derive(Clone, Copy)]
struct LabelAt<'a> {
    labels: &'a Labels,
    place: usize,
}

/// The places of labels in the order of labels, and the rank of each place in that order.
#[derive(Drop)]
pub(crate) struct LabelOrder {
    places: Vec<usize>,
    pub ranks: Vec<usize>,
    ghost inverse: { AreInverse places.items ranks.items },
}

impl LabelOrder {
    /// The order of no labels. It takes no memory.
    pub(crate) fn new(alloc: Global) -> LabelOrder {
        LabelOrder {
            places: Vec::new(alloc),
            ranks: Vec::new(alloc),
        }
    }

    /// Takes the labels that are fed, no two equal. They are sorted unless they stand in the order that is kept. The only
    /// error is want of memory; then the next ones may be taken all the same.
    pub(crate) fn renew(&mut self, alloc: Global, labels: &[Labels]) -> Result<(), AllocError>
        requires { IsDistinct labels_eq labels.now }
        ensures { OnOk result (AreRanks labels.now self.new.ranks.items) }
    {
        if !are_rising(labels, self.places.as_slice()) {
            *self = order_of(alloc, labels)?;
        }
        Ok(())
    }
}

/// Whether these are as many places as labels, and labels rise in their order.
fn are_rising(labels: &[Labels], places: &[usize]) -> bool
    requires { All (λ place. place < length places.now) places.now }
    ensures count { IsTrue result → length places.now ≡ length labels.now }
    ensures rise { IsTrue result → LabelsRise labels.now places.now }
{
    order_is_total();
    if places.len() != labels.len() {
        return false;
    }
    for i in 1..places.len() {
        if !is_before(labels, places[i - 1], places[i]) {
            return false;
        }
    }
    true
}

fn is_before(labels: &[Labels], a: usize, b: usize) -> bool
    requires a_in { a < length labels.now }
    requires b_in { b < length labels.now }
    ensures { IsTrue result → labels_cmp (names_at labels.now a) (names_at labels.now b) ≡ Less }
{
    let one = &labels[a];
    let other = &labels[b];
    matches!(one.cmp(other), Ordering::Less)
}

fn order_of(alloc: Global, labels: &[Labels]) -> Result<LabelOrder, AllocError>
    requires { IsDistinct labels_eq labels.now }
    ensures { IfOk result (λ order. ArePlaces labels.now order.places.items) }
{
    let all = sorted(alloc, labels)?;
    let places = places_of(alloc, all.as_slice())?;
    let ranks = ranks_of(alloc, places.as_slice())?;
    Ok(LabelOrder { places, ranks })
}

/// Labels beside their places, in the order of labels.
fn sorted<'a>(alloc: Global, labels: &'a [Labels]) -> Result<Vec<LabelAt<'a>>, AllocError>
    requires { IsDistinct labels_eq labels.now }
    ensures { IfOk result (λ all. ArePlaces labels.now (map (λ one. one.place) all.items)) }
{
    let mut all = listed(alloc, labels)?;
    order_is_total();
    all.sort_unstable_by(|a, b| a.labels.cmp(b.labels));
    Ok(all)
}

/// Labels beside their places.
fn listed<'a>(alloc: Global, labels: &'a [Labels]) -> Result<Vec<LabelAt<'a>>, AllocError>
    ensures { IfOk result (λ all. AreListed 0 labels.now all.items) }
{
    let mut all = Vec::with_capacity(alloc, labels.len())?;
    for i in 0..labels.len() {
        all.push(LabelAt {
            labels: &labels[i],
            place: i,
        })?;
    }
    Ok(all)
}

fn places_of(alloc: Global, all: &[LabelAt<'_>]) -> Result<Vec<usize>, AllocError>
    ensures { IfOk result (λ places. places.items ≡ map (λ one. one.place) all.now) }
{
    let mut places = Vec::with_capacity(alloc, all.len())?;
    for one in all {
        places.push(one.place)?;
    }
    Ok(places)
}

/// The rank of each place among places, none of which stands twice.
fn ranks_of(alloc: Global, places: &[usize]) -> Result<Vec<usize>, AllocError>
    requires within { All (λ place. place < length places.now) places.now }
    requires apart { (i j : ℕ) → i < length places.now → j < length places.now → slice_index_or places.now i 0 ≡ slice_index_or places.now j 0 → i ≡ j }
    ensures count { IfOk result (λ ranks. length ranks.items ≡ length places.now) }
    ensures ranks { IfOk result (λ ranks. (i : ℕ) → i < length places.now → slice_index_or ranks.items (slice_index_or places.now i 0) 0 ≡ i) }
{
    let mut ranks = Vec::new(alloc);
    ranks.resize(places.len(), 0)?;
    for i in 0..places.len() {
        let place = places[i];
        ranks[place] = i;
    }
    Ok(ranks)
}
