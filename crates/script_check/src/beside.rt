//! Series of an answer that stand beside the expected ones, line by line. Comparing them takes no memory.
ghost use Rattle.script_check.specs.Beside.{points_beside, rises_behind, stand_beside};
ghost use Rattle.script_check.specs.Verdicts.{series_reason};
ghost use Rattle.std.specs.Prelude.{◌≡◌, Bool, None, IsTrue, option_map};

use label_set::Labels;
use promql_meaning::{Point, ResultSeries};
use std::cmp::Ordering;
use xfrac::near;

/// Whether points have the same times in the same order, with near values.
pub fn points_beside(wanted: &[Point], got: &[Point]) -> bool
    ensures { result ≡ points_beside wanted.now got.now }
{
    if wanted.len() != got.len() {
        return false;
    }
    for place in 0..got.len() {
        let line = wanted[place];
        let point = got[place];
        if line.at.0 != point.at.0 || !near(&line.value, &point.value) {
            return false;
        }
    }
    true
}

/// Whether labels are greater than those before them, if there are any.
pub fn rises_behind(before: Option<&Labels>, labels: &Labels) -> bool
    ensures { result ≡ rises_behind (option_map (λ b. b.now) before.entry) labels.now }
{
    match before {
        Some(before) => before.cmp(labels) == Ordering::Less,
        None => true,
    }
}

fn stand_beside(wanted: &[ResultSeries], got: &[ResultSeries]) -> bool
    ensures { result ≡ stand_beside None wanted.now got.now }
{
    if wanted.len() != got.len() {
        return false;
    }
    let mut before = None;
    for place in 0..got.len() {
        let line = &wanted[place];
        let series = &got[place];
        if !rises_behind(before, &line.labels)
            || line.labels.cmp(&series.labels) != Ordering::Equal
        {
            return false;
        }
        if !points_beside(line.points.as_slice(), series.points.as_slice()) {
            return false;
        }
        before = Some(&line.labels);
    }
    true
}

/// Whether series are the expected ones, line by line, with rising labels and near values; then nothing is to be said against
/// them. It takes no memory.
pub fn agree_by_lines(wanted: &[ResultSeries], got: &[ResultSeries]) -> bool
    ensures { IsTrue result → (ordered : Bool) → series_reason ordered wanted.now got.now ≡ None }
{
    stand_beside(wanted, got)
}
