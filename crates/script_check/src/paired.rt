//! Series that stand in another order than the expected ones. Where one side rises by its labels, each series of the other side
//! is looked up there by halves. Comparing them takes no memory.
ghost use Rattle.script_check.specs.Beside.{rising};
ghost use Rattle.script_check.specs.Paired.{AreMarked, HasLabels, IsBeside, IsThere};
ghost use Rattle.script_check.specs.Series.{Agrees};
ghost use Rattle.std.specs.List.{AllByRecursion};
ghost use Rattle.std.specs.Prelude.{◌≡◌, ◌<◌, ◌≤◌, ℕ, None, true, false, length, slice_get, slice_index_or, IfSome, IsTrue};

use crate::beside::{points_beside, rises_behind};
use label_set::Labels;
use promql_meaning::ResultSeries;
use std::cmp::{Ordering, min};
use xfrac::laws::near_is_symmetric;

/// So many series are marked in one round, on the stack.
const ROUND: usize = 65_536;

/// Whether labels rise.
fn rises(all: &[ResultSeries]) -> bool
    ensures { result ≡ rising None all.now }
{
    let mut before = None;
    for series in all {
        if !rises_behind(before, &series.labels) {
            return false;
        }
        before = Some(&series.labels);
    }
    true
}

/// The place of the series with some labels. It is found where labels rise.
fn place_of(all: &[ResultSeries], labels: &Labels) -> Option<usize>
    ensures within { IfSome result (λ place. place < length all.now) }
    ensures has { IfSome result (λ place. HasLabels labels.now (slice_get all.now place)) }
{
    let mut low = 0;
    let mut high = all.len();
    while low < high {
        let middle = low + (high - low) / 2;
        match all[middle].labels.cmp(labels) {
            Ordering::Less => low = middle + 1,
            Ordering::Equal => return Some(middle),
            Ordering::Greater => high = middle,
        }
    }
    None
}

/// Whether one of the series has the labels of this one, and near values.
fn is_beside(all: &[ResultSeries], one: &ResultSeries) -> bool
    ensures { IsTrue result → IsBeside all.now one.now }
{
    match place_of(all, &one.labels) {
        Some(place) => points_beside(one.points.as_slice(), all[place].points.as_slice()),
        None => false,
    }
}

/// Whether each of the others stands beside one of the series.
fn are_beside(all: &[ResultSeries], others: &[ResultSeries]) -> bool
    ensures { IsTrue result → AllByRecursion (IsBeside all.now) others.now }
{
    for one in others {
        if !is_beside(all, one) {
            return false;
        }
    }
    true
}

/// Marks those of the series whose labels one of the others has.
fn mark(part: &[ResultSeries], others: &[ResultSeries], marks: &mut [bool; ROUND])
    requires { length part.now ≤ 65536 }
    ensures { AreMarked part.now others.now marks.old → AreMarked part.now others.now marks.new }
{
    for one in others {
        if let Some(place) = place_of(part, &one.labels) {
            marks[place] = true;
        }
    }
}

/// Whether so many marks are set.
fn are_set(marks: &[bool; ROUND], many: usize) -> bool
    requires { many ≤ 65536 }
    ensures { IsTrue result → (place : ℕ) → place < many → slice_index_or marks.now place false ≡ true }
{
    for place in 0..many {
        if !marks[place] {
            return false;
        }
    }
    true
}

/// Whether each of at most so many series as are marked in one round has the labels of one of the others.
fn are_there(part: &[ResultSeries], others: &[ResultSeries]) -> bool
    requires { length part.now ≤ 65536 }
    ensures { IsTrue result → AllByRecursion (IsThere others.now) part.now }
{
    let mut marks = [false; ROUND];
    mark(part, others, &mut marks);
    are_set(&marks, part.len())
}

/// Whether each of the series has the labels of one of the others.
fn all_there(all: &[ResultSeries], others: &[ResultSeries]) -> bool
    ensures { IsTrue result → AllByRecursion (IsThere others.now) all.now }
{
    let mut rest = all;
    while !rest.is_empty() {
        let (part, behind) = rest.split_at(min(ROUND, rest.len()));
        if !are_there(part, others) {
            return false;
        }
        rest = behind;
    }
    true
}

/// Whether series rise by their labels, each of the others stands beside one of them, and each has the labels of another one.
fn are_paired(all: &[ResultSeries], others: &[ResultSeries]) -> bool
    ensures in_order { IsTrue result → rising None all.now ≡ true }
    ensures beside { IsTrue result → AllByRecursion (IsBeside all.now) others.now }
    ensures there { IsTrue result → AllByRecursion (IsThere others.now) all.now }
{
    rises(all) && are_beside(all, others) && all_there(all, others)
}

/// Whether series are the expected ones, in whatever order, with near values. It is told without memory, and only where either
/// side rises by its labels.
pub fn agree_in_pairs(wanted: &[ResultSeries], got: &[ResultSeries]) -> bool
    ensures { IsTrue result → Agrees wanted.now got.now }
{
    near_is_symmetric();
    if wanted.len() != got.len() {
        return false;
    }
    are_paired(got, wanted) || are_paired(wanted, got)
}
