//! Whether the series of an answer are those that are expected.
ghost use Rattle.script_check.specs.Lookups.{HasSeries, HasValues};
ghost use Rattle.script_check.specs.Series.{Agrees, differs, differs_from, extra_reason, first_apart, first_value, is_apart, is_differing, is_lacking, are_near, least, lesser, misplaced, missing_reason, order_reason, placed_reason, scalar_in, scalar_reason, soonest, soonest_of, sooner, times, value_at, value_reason};
ghost use Rattle.script_check.specs.Verdicts.{series_reason};
ghost use Rattle.promql_meaning.specs.declared.answer.Point.{Point};
ghost use Rattle.promql_meaning.specs.declared.answer.ResultSeries.{ResultSeries};
ghost use Rattle.std.specs.Prelude.{◌≡◌, filter, option_map, IfOk, IsTrue, List};

use crate::beside::agree_by_lines;
use crate::paired::agree_in_pairs;
use crate::rounds::agree_in_rounds;
use crate::verdict::Reason;
use label_set::Labels;
use promql_meaning::{Point, ResultSeries};
use std::alloc::{AllocError, Global};
use std::cmp::Ordering;
use std::collections::BTreeMap;
use ticks::Ms;
use xfrac::{XFrac, near};

/// Series by their labels.
type SeriesMap<'a> = BTreeMap<Labels, &'a ResultSeries>;

/// Values by their times in milliseconds.
type Values = BTreeMap<i64, XFrac>;

// ---- values

/// The values of points by time. It goes from the last point to the first, so that of equal times the first stays.
fn values_of(alloc: Global, points: &[Point]) -> Result<Values, AllocError>
    ensures { IfOk result (λ values. HasValues values points.now) }
{
    let mut values = BTreeMap::new(alloc);
    let mut place = points.len();
    while place > 0 {
        place -= 1;
        let point = points[place];
        values.insert(point.at.0, point.value)?;
    }
    Ok(values)
}

fn value_at(values: &Values, at: Ms) -> Option<XFrac>
    ensures { (points : List Point) → HasValues values.now points → result ≡ value_at at points }
{
    values.get(&at.0).copied()
}

fn are_near(wanted: Option<XFrac>, got: Option<XFrac>) -> bool
    ensures { result ≡ are_near wanted got }
{
    match (wanted, got) {
        (None, None) => true,
        (Some(wanted), Some(got)) => near(&wanted, &got),
        _ => false,
    }
}

fn is_apart(wanted: &Values, got: &Values, at: Ms) -> bool
    ensures { (left right : List Point) → HasValues wanted.now left → HasValues got.now right → result ≡ is_apart left right at }
{
    !are_near(value_at(wanted, at), value_at(got, at))
}

fn sooner(at: Ms, other: Option<Ms>) -> Ms
    ensures { result ≡ sooner at other }
{
    match other {
        Some(other) if other.0 < at.0 => other,
        _ => at,
    }
}

fn soonest_of(at: Option<Ms>, other: Option<Ms>) -> Option<Ms>
    ensures { result ≡ soonest_of at other }
{
    match at {
        Some(at) => Some(sooner(at, other)),
        None => other,
    }
}

/// The first of the points' times at which values aren't near.
fn first_apart_of(points: &[Point], wanted: &Values, got: &Values) -> Option<Ms>
    ensures { (left right : List Point) → HasValues wanted.now left → HasValues got.now right → result ≡ soonest (filter (is_apart left right) (times points.now)) }
{
    let mut found = None;
    let mut place = points.len();
    while place > 0 {
        place -= 1;
        let at = points[place].at;
        if is_apart(wanted, got, at) {
            found = Some(sooner(at, found));
        }
    }
    found
}

/// The reason that a series has another value than the expected one, if it has. The only error is want of memory.
fn differs_from(
    alloc: Global,
    wanted: &ResultSeries,
    got: &ResultSeries,
) -> Result<Option<Reason>, AllocError>
    ensures { IfOk result (λ reason. reason ≡ differs_from wanted.now got.now) }
{
    let left = values_of(alloc, wanted.points.as_slice())?;
    let right = values_of(alloc, got.points.as_slice())?;
    let first = soonest_of(
        first_apart_of(wanted.points.as_slice(), &left, &right),
        first_apart_of(got.points.as_slice(), &left, &right),
    );
    match first {
        Some(at) => Ok(Some(Reason::Differs {
            labels: wanted.labels.copy()?,
            at,
            wanted: value_at(&left, at),
            got: value_at(&right, at),
        })),
        None => Ok(None),
    }
}

// ---- series

/// Series by their labels. It goes from the last one to the first, so that of equal labels the first stays. The only error is
/// want of memory.
fn by_labels<'a>(alloc: Global, all: &'a [ResultSeries]) -> Result<SeriesMap<'a>, AllocError>
    ensures { IfOk result (λ map. HasSeries map all.now) }
{
    let mut map = BTreeMap::new(alloc);
    let mut place = all.len();
    while place > 0 {
        place -= 1;
        let series = &all[place];
        map.insert(series.labels.copy()?, series)?;
    }
    Ok(map)
}

fn is_lacking(others: &SeriesMap<'_>, series: &ResultSeries) -> bool
    ensures { (all : List ResultSeries) → HasSeries others.now all → result ≡ is_lacking all series.now }
{
    others.get(&series.labels).is_none()
}

/// The series before others, unless one of them has lesser labels.
fn lesser<'a>(series: &'a ResultSeries, least: Option<&'a ResultSeries>) -> &'a ResultSeries
    ensures { result.now ≡ lesser series.now (option_map (λ s. s.now) least.entry) }
{
    match least {
        Some(other) => {
            if series.labels.cmp(&other.labels) == Ordering::Greater {
                other
            } else {
                series
            }
        }
        None => series,
    }
}

/// The series with the least labels among those that others lack.
fn least_lacking<'a>(series: &'a [ResultSeries], others: &SeriesMap<'_>) -> Option<&'a ResultSeries>
    ensures { (all : List ResultSeries) → HasSeries others.now all → option_map (λ s. s.now) result ≡ least (filter (is_lacking all) series.now) }
{
    let mut found = None;
    let mut place = series.len();
    while place > 0 {
        place -= 1;
        let one = &series[place];
        if is_lacking(others, one) {
            found = Some(lesser(one, found));
        }
    }
    found
}

/// The reason that the series under the expected labels has another value, if it has. The only error is want of memory.
fn differs(
    alloc: Global,
    others: &SeriesMap<'_>,
    wanted: &ResultSeries,
) -> Result<Option<Reason>, AllocError>
    ensures { IfOk result (λ reason. (all : List ResultSeries) → HasSeries others.now all → reason ≡ differs all wanted.now) }
{
    match others.get(&wanted.labels) {
        Some(got) => differs_from(alloc, wanted, got),
        None => Ok(None),
    }
}

/// The expected series with the least labels among those that have another value. The only error is want of memory.
fn least_differing<'a>(
    alloc: Global,
    wanted: &'a [ResultSeries],
    others: &SeriesMap<'_>,
) -> Result<Option<&'a ResultSeries>, AllocError>
    ensures { IfOk result (λ found. (all : List ResultSeries) → HasSeries others.now all → option_map (λ s. s.now) found ≡ least (filter (is_differing all) wanted.now)) }
{
    let mut found = None;
    let mut place = wanted.len();
    while place > 0 {
        place -= 1;
        let one = &wanted[place];
        if differs(alloc, others, one)?.is_some() {
            found = Some(lesser(one, found));
        }
    }
    Ok(found)
}

/// The first value that isn't near, by labels and time. The only error is want of memory.
fn value_reason(
    alloc: Global,
    wanted: &[ResultSeries],
    others: &SeriesMap<'_>,
) -> Result<Option<Reason>, AllocError>
    ensures { IfOk result (λ reason. (all : List ResultSeries) → HasSeries others.now all → reason ≡ value_reason wanted.now all) }
{
    match least_differing(alloc, wanted, others)? {
        Some(one) => differs(alloc, others, one),
        None => Ok(None),
    }
}

fn missing_reason(
    wanted: &[ResultSeries],
    others: &SeriesMap<'_>,
) -> Result<Option<Reason>, AllocError>
    ensures { IfOk result (λ reason. (all : List ResultSeries) → HasSeries others.now all → reason ≡ missing_reason wanted.now all) }
{
    match least_lacking(wanted, others) {
        Some(one) => Ok(Some(Reason::Missing(one.labels.copy()?))),
        None => Ok(None),
    }
}

fn extra_reason(others: &SeriesMap<'_>, got: &[ResultSeries]) -> Result<Option<Reason>, AllocError>
    ensures { IfOk result (λ reason. (all : List ResultSeries) → HasSeries others.now all → reason ≡ extra_reason all got.now) }
{
    match least_lacking(got, others) {
        Some(one) => Ok(Some(Reason::Extra(one.labels.copy()?))),
        None => Ok(None),
    }
}

/// The first series of the answer that isn't the one of the line at its place.
fn misplaced<'a>(wanted: &[ResultSeries], got: &'a [ResultSeries]) -> Option<&'a ResultSeries>
    ensures { option_map (λ s. s.now) result ≡ misplaced wanted.now got.now }
{
    for place in 0..got.len() {
        if place >= wanted.len() {
            return Some(&got[place]);
        }
        if wanted[place].labels.cmp(&got[place].labels) != Ordering::Equal {
            return Some(&got[place]);
        }
    }
    None
}

fn order_reason(wanted: &[ResultSeries], got: &[ResultSeries]) -> Result<Option<Reason>, AllocError>
    ensures { IfOk result (λ reason. reason ≡ order_reason wanted.now got.now) }
{
    match misplaced(wanted, got) {
        Some(one) => Ok(Some(Reason::Order(one.labels.copy()?))),
        None => Ok(None),
    }
}

/// Why series don't stand in the order of the lines, where that counts. The only error is want of memory, which a reason takes.
fn placed_reason(
    ordered: bool,
    wanted: &[ResultSeries],
    got: &[ResultSeries],
) -> Result<Option<Reason>, AllocError>
    ensures { IfOk result (λ reason. reason ≡ placed_reason ordered wanted.now got.now) }
{
    if ordered {
        order_reason(wanted, got)
    } else {
        Ok(None)
    }
}

/// Whether series are the expected ones, in whatever order, with near values. It is told without memory, and only where no labels
/// stand twice on a side.
fn agree(wanted: &[ResultSeries], got: &[ResultSeries]) -> bool
    ensures { IsTrue result → Agrees wanted.now got.now }
{
    agree_in_pairs(wanted, got) || agree_in_rounds(wanted, got)
}

/// The first reason why series aren't those that are expected, if there is one. Series that agree, of which no labels stand twice on
/// a side, are compared without memory; else the only error is want of memory.
pub fn judge_series(
    alloc: Global,
    ordered: bool,
    wanted: &[ResultSeries],
    got: &[ResultSeries],
) -> Result<Option<Reason>, AllocError>
    ensures { IfOk result (λ reason. reason ≡ series_reason ordered wanted.now got.now) }
{
    if agree_by_lines(wanted, got) {
        return Ok(None);
    }
    if agree(wanted, got) {
        return placed_reason(ordered, wanted, got);
    }
    let lines = by_labels(alloc, wanted)?;
    let found = by_labels(alloc, got)?;
    if let Some(reason) = missing_reason(wanted, &found)? {
        return Ok(Some(reason));
    }
    if let Some(reason) = extra_reason(&lines, got)? {
        return Ok(Some(reason));
    }
    if let Some(reason) = value_reason(alloc, wanted, &found)? {
        return Ok(Some(reason));
    }
    placed_reason(ordered, wanted, got)
}

// ---- scalars

fn first_value(points: &[Point]) -> Option<XFrac>
    ensures { result ≡ first_value points.now }
{
    match points {
        [] => None,
        [point, ..] => Some(point.value),
    }
}

/// The value of a scalar at an instant, if it has one. It takes no memory.
pub fn scalar_in(all: &[ResultSeries]) -> Option<XFrac>
    ensures { result ≡ scalar_in all.now }
{
    match all {
        [] => None,
        [series, ..] => first_value(series.points.as_slice()),
    }
}

/// Why a scalar isn't the expected one, if it isn't. It takes no memory.
pub fn judge_scalar(wanted: XFrac, got: Option<XFrac>) -> Option<Reason>
    ensures { result ≡ scalar_reason wanted got }
{
    match got {
        Some(value) if near(&wanted, &value) => None,
        _ => Some(Reason::ScalarDiffers { wanted, got }),
    }
}
