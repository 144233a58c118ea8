//! The series by the places of their labels, and in the end by their labels.
ghost use Rattle.label_set.specs.LabelEquality.{labels_eq};
ghost use Rattle.label_set.specs.Labels.{labels_cmp};
ghost use Rattle.promql_meaning.specs.Results.{series_of_group};
ghost use Rattle.promql_meaning.specs.declared.answer.Point.{Point};
ghost use Rattle.result_rows.specs.Taken.{AreFront, names_of, points_under, with_series};
ghost use Rattle.std.specs.List.{IsDistinct, filter};
ghost use Rattle.std.specs.List.Sorted.{IsStrictlySortedBy};
ghost use Rattle.std.specs.declared.cmp.Ordering.TheVariants.{Less};
ghost use Rattle.std.specs.Prelude.{◌≡◌, ◌++◌, ◌∷◌, [], List, fold, map, IfOk, IsTrue, OnErr, OnOk};
ghost use Rattle.step_table.specs.Alike.{has_some};
ghost use Rattle.step_table.specs.Groups.{Names, gathered, items_of};

use label_set::{Items, Labels};
use promql_meaning::{Point, ResultSeries};
use std::alloc::{AllocError, Global};
use std::cmp::Ordering;
use std::collections::BTreeMap;

/// A series for each of the labels, where there are those of the first ones. The only error is want of memory.
pub(crate) fn make_room(
    alloc: Global,
    series: &mut Vec<ResultSeries>,
    labels: &[Labels],
) -> Result<(), AllocError>
    requires { AreFront (names_of series.old.items) labels.now }
    ensures front { AreFront (names_of series.new.items) labels.now }
    ensures all { OnOk result (names_of series.new.items ≡ labels.now) }
    ensures points { (names : Names) → points_under names series.new.items ≡ points_under names series.old.items }
{
    for place in series.len()..labels.len() {
        add_series(alloc, series, &labels[place])?;
    }
    Ok(())
}

/// Puts a series without points behind the others. The only error is want of memory; then nothing is changed.
fn add_series(
    alloc: Global,
    series: &mut Vec<ResultSeries>,
    labels: &Labels,
) -> Result<(), AllocError>
    ensures ok { OnOk result (series.new.items ≡ series.old.items ++ record { labels = labels.now; points = [] } ∷ []) }
    ensures err { OnErr result (series.new.items ≡ series.old.items) }
{
    let labels = labels.copy()?;
    series.push(ResultSeries {
        labels,
        points: Items::new(alloc),
    })?;
    Ok(())
}

/// The series that have points, in the order of their labels. The only error is want of memory.
pub(crate) fn series_of(
    alloc: Global,
    series: Vec<ResultSeries>,
) -> Result<Items<ResultSeries>, AllocError>
    requires { IsDistinct labels_eq (names_of series.items) }
    ensures { IfOk result (λ sorted. (items : List (Names × Point)) → ((names : Names) → points_under names series.items ≡ items_of items names) → sorted ≡ map series_of_group (gathered items)) }
{
    if are_rising(series.as_slice()) {
        return Ok(with_points(series));
    }
    series_in(alloc, by_labels(alloc, series)?)
}

/// Whether series are in the order of their labels, as those of one selector are, no two with equal labels.
fn are_rising(series: &[ResultSeries]) -> bool
    ensures { IsTrue result → IsStrictlySortedBy labels_cmp (names_of series.now) }
{
    for i in 1..series.len() {
        let before = &series[i - 1];
        let one = &series[i];
        if !is_below(before, one) {
            return false;
        }
    }
    true
}

fn is_below(a: &ResultSeries, b: &ResultSeries) -> bool
    ensures { IsTrue result → labels_cmp a.now.labels b.now.labels ≡ Less }
{
    matches!(a.labels.cmp(&b.labels), Ordering::Less)
}

/// The series that have points, as they stand. It takes no memory.
fn with_points(mut series: Vec<ResultSeries>) -> Items<ResultSeries>
    ensures { result ≡ filter (λ one. has_some one.points) series.items }
{
    series.retain(
        |one: &ResultSeries| -> bool
            ensures { result ≡ has_some one.now.points }
        { has_points(one) },
    );
    Items::from_vec(series)
}

fn has_points(series: &ResultSeries) -> bool
    ensures { result ≡ has_some series.now.points }
{
    match series.points.as_slice() {
        [] => false,
        [_, ..] => true,
    }
}

/// The points of the series that have some, by their labels.
fn by_labels(
    alloc: Global,
    series: Vec<ResultSeries>,
) -> Result<BTreeMap<Labels, Items<Point>>, AllocError>
    ensures { IfOk result (λ groups. groups.entries ≡ fold with_series [] series.items) }
{
    let mut groups = BTreeMap::new(alloc);
    for one in series {
        add_group(&mut groups, one)?;
    }
    Ok(groups)
}

/// Adds the points of a series, if it has some, under its labels.
fn add_group(
    groups: &mut BTreeMap<Labels, Items<Point>>,
    series: ResultSeries,
) -> Result<(), AllocError>
    ensures { OnOk result (groups.new.entries ≡ with_series groups.old.entries series) }
{
    let ResultSeries { labels, points } = series;
    if points.as_slice().is_empty() {
        return Ok(());
    }
    groups.insert(labels, points)?;
    Ok(())
}

/// A series for all labels that there are points of, in the order of labels.
fn series_in(
    alloc: Global,
    groups: BTreeMap<Labels, Items<Point>>,
) -> Result<Items<ResultSeries>, AllocError>
    ensures { IfOk result (λ series. series ≡ map series_of_group groups.entries) }
{
    let mut series = Items::new(alloc);
    for (labels, points) in groups {
        series.push(ResultSeries { labels, points })?;
    }
    Ok(series)
}
