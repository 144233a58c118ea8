//! Series of which neither side rises by its labels, as under `sort`. They are compared in rounds: of each side the places of the
//! next series by their labels are sorted on the stack, and then looked at side by side. Comparing them takes no memory.
ghost use Rattle.script_check.specs.Rounds.{AreMatched};
ghost use Rattle.script_check.specs.Series.{Agrees};
ghost use Rattle.std.specs.Prelude.{◌≡◌, ◌<◌, ◌≤◌, ◌+◌, ◌*◌, ℕ, Some, length, option_map, IfSome, IsTrue};

use crate::beside::{points_beside, rises_behind};
use label_set::Labels;
use promql_meaning::ResultSeries;
use std::cmp::Ordering;

/// So many series of a side are compared in one round.
const ROUND: usize = 65_536;

/// At most so many series of a side have places.
const MOST_SERIES: usize = 0xffff_ffff;

// ---- the next series by their labels
//
// What is sorted is looked at again, so nothing is promised of the order.

/// Whether the series at a place has lesser labels than the one at another place.
fn is_before(all: &[ResultSeries], place: u32, other: u32) -> bool {
    match (all.get(place as usize), all.get(other as usize)) {
        (Some(one), Some(two)) => one.labels.cmp(&two.labels) == Ordering::Less,
        _ => false,
    }
}

/// The greater one of the two that stand below one in a heap, or the only one.
fn greater_below(all: &[ResultSeries], heap: &[u32; ROUND], many: usize, at: usize) -> usize
    requires few { many ≤ 65536 }
    requires below { 2 * at + 1 < many }
    ensures above { at < result }
    ensures within { result < many }
{
    let left = 2 * at + 1;
    let right = left + 1;
    if right < many && is_before(all, heap[left], heap[right]) {
        right
    } else {
        left
    }
}

/// Lets what stands at a place of a heap sink below all that is greater.
fn sink(all: &[ResultSeries], heap: &mut [u32; ROUND], many: usize, from: usize)
    requires few { many ≤ 65536 }
    requires within { from ≤ 65536 }
{
    let mut at = from;
    while 2 * at + 1 < many {
        let below = greater_below(all, heap, many, at);
        if !is_before(all, heap[at], heap[below]) {
            return;
        }
        heap.swap(at, below);
        at = below;
    }
}

/// Makes places a heap, of which the first one has the greatest labels.
fn heapify(all: &[ResultSeries], places: &mut [u32; ROUND], many: usize)
    requires { many ≤ 65536 }
{
    let mut at = many / 2;
    while at > 0 {
        at -= 1;
        sink(all, places, many, at);
    }
}

/// Sorts places by the labels of their series.
fn sort(all: &[ResultSeries], places: &mut [u32; ROUND], many: usize)
    requires { many ≤ 65536 }
{
    heapify(all, places, many);
    let mut left = many;
    while left > 1 {
        left -= 1;
        places.swap(0, left);
        sink(all, places, left, 0);
    }
}

/// Takes a place among those of the least labels, and answers how many there are. Of one more than there is room for, the one of
/// the greatest labels goes.
fn take(all: &[ResultSeries], places: &mut [u32; ROUND], many: usize, place: u32) -> usize
    requires { many ≤ 65536 }
    ensures { result ≤ 65536 }
{
    if many < ROUND {
        places[many] = place;
        if many + 1 == ROUND {
            heapify(all, places, ROUND);
        }
        return many + 1;
    }
    if is_before(all, place, places[0]) {
        places[0] = place;
        sink(all, places, ROUND, 0);
    }
    many
}

/// The places of the next series above the last labels, in the order of their labels, and how many there are.
fn next_places(all: &[ResultSeries], last: Option<&Labels>, places: &mut [u32; ROUND]) -> usize
    requires { length all.now ≤ 4294967295 }
    ensures { result ≤ 65536 }
{
    let mut many = 0;
    for place in 0..all.len() {
        if rises_behind(last, &all[place].labels) {
            many = take(all, places, many, place as u32);
        }
    }
    sort(all, places, many);
    many
}

// ---- both sides

/// The labels that an expected series and one of the answer share, where they are greater than the last ones and the values are
/// near.
fn shared_labels<'a>(
    wanted: &'a [ResultSeries],
    got: &[ResultSeries],
    line: usize,
    place: usize,
    last: Option<&Labels>,
) -> Option<&'a Labels>
    ensures { IfSome result (λ labels. (many : ℕ) → AreMatched wanted.now got.now (option_map (λ b. b.now) last.entry) many → AreMatched wanted.now got.now (Some labels.now) (many + 1)) }
{
    if line >= wanted.len() || place >= got.len() {
        return None;
    }
    let one = &wanted[line];
    let series = &got[place];
    if !rises_behind(last, &one.labels) || !one.labels.is_same(&series.labels) {
        return None;
    }
    if !points_beside(one.points.as_slice(), series.points.as_slice()) {
        return None;
    }
    Some(&one.labels)
}

/// The last labels of a round, if the series at so many places of both sides go on above those of the round before, with the same
/// labels and near values.
fn last_of_round<'a>(
    wanted: &'a [ResultSeries],
    got: &[ResultSeries],
    lines: &[u32; ROUND],
    places: &[u32; ROUND],
    many: usize,
    last: Option<&'a Labels>,
) -> Option<&'a Labels>
    requires { many ≤ 65536 }
    ensures { IfSome result (λ labels. (done : ℕ) → AreMatched wanted.now got.now (option_map (λ b. b.now) last.entry) done → AreMatched wanted.now got.now (Some labels.now) (done + many)) }
{
    let mut before = last;
    for k in 0..many {
        match shared_labels(wanted, got, lines[k] as usize, places[k] as usize, before) {
            Some(labels) => before = Some(labels),
            None => return None,
        }
    }
    before
}

/// Whether series are the expected ones, in whatever order, with near values. It is told where no labels stand twice on a side and
/// each side has at most 4,294,967,295 series, in n log n steps, and as many again for each 65,536 series. It takes no memory.
pub fn agree_in_rounds(wanted: &[ResultSeries], got: &[ResultSeries]) -> bool
    ensures { IsTrue result → Agrees wanted.now got.now }
{
    if wanted.len() != got.len() || wanted.len() > MOST_SERIES {
        return false;
    }
    let mut lines = [0u32; ROUND];
    let mut places = [0u32; ROUND];
    let mut last = None;
    let mut done = 0;
    while done < wanted.len() {
        let many = next_places(wanted, last, &mut lines);
        if many == 0 || next_places(got, last, &mut places) != many {
            return false;
        }
        match last_of_round(wanted, got, &lines, &places, many, last) {
            Some(labels) => last = Some(labels),
            None => return false,
        }
        done += many;
    }
    done == wanted.len()
}
