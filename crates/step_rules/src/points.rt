//! Instants a step apart, and the points of subqueries.
ghost use Rattle.promql_meaning.specs.Selecting.{sample_times, sample_values, window_row};
ghost use Rattle.promql_meaning.specs.Subqueries.{as_times, first_multiple, gathered_windows, instants, instants_up_to, multiple_after, multiples};
ghost use Rattle.step_table.specs.Timed.{timed};
ghost use Rattle.std.specs.List.{AllByRecursion};
ghost use Rattle.std.specs.Option.{option_to_list};
ghost use Rattle.std.specs.Prelude.{◌≡◌, [], ◌++◌, ◌+◌, ◌^◌, ◌<ℤ◌, ◌≤ℤ◌, ◌-ℤ◌, ◌+ℤ◌, neg_ℤ, pos, IfOk, OnOk};
ghost use Rattle.step_table.specs.Unions.{united};
ghost use Rattle.ticks.specs.Grids.{step_count};
ghost use Rattle.ticks.specs.Walks.{IsTime};

use label_set::{Items, Labels};
use promql_meaning::Windows;
use std::alloc::{AllocError, Global};
use step_table::{Marks, Step, WindowRow, gather};
use ticks::Ms;
use xfrac::XFrac;

/// The time a step later.
fn next(u: Ms, step: Ms) -> Ms
    requires { IsTime (u.0 +ℤ step.0) }
    ensures { result.0 ≡ u.0 +ℤ step.0 }
{
    Ms(u.0 + step.0)
}

/// A first instant and so many after it, a step apart.
fn instants(alloc: Global, first: Ms, step: Ms, more: u64) -> Result<Items<Ms>, AllocError>
    requires { AllByRecursion IsTime (instants first.0 step.0 (more + 1)) }
    ensures { IfOk result (λ us. us ≡ as_times (instants first.0 step.0 (more + 1))) }
{
    let mut us = Items::new(alloc);
    us.push(first)?;
    let mut u = first;
    let mut left = more;
    while left > 0 {
        u = next(u, step);
        us.push(u)?;
        left -= 1;
    }
    Ok(us)
}

/// The least multiple of a step that is later than a time.
fn multiple_after(step: Ms, time: Ms) -> Ms
    requires low { neg_ℤ (pos (2 ^ 61)) ≤ℤ time.0 }
    requires high { time.0 ≤ℤ pos (2 ^ 61) }
    requires step { IsTime step.0 }
    requires positive { pos 0 <ℤ step.0 }
    ensures { result.0 ≡ multiple_after step.0 time.0 }
{
    Ms(time.0 + (step.0 - time.0.rem_euclid(step.0)))
}

/// The least multiple of a step that is later than a left edge, or on it where it is closed.
fn first_multiple(step: Ms, edge: Ms, closed: bool) -> Ms
    requires edge { IsTime edge.0 }
    requires step { IsTime step.0 }
    requires positive { pos 0 <ℤ step.0 }
    ensures { result.0 ≡ first_multiple closed step.0 edge.0 }
{
    if closed {
        multiple_after(step, Ms(edge.0 - 1))
    } else {
        multiple_after(step, edge)
    }
}

/// How many steps fit between two times.
fn steps_between(first: Ms, last: Ms, step: Ms) -> u64
    requires { pos 0 <ℤ step.0 }
    ensures { result + 1 ≡ step_count first.0 last.0 step.0 }
{
    last.0.abs_diff(first.0) / step.0.unsigned_abs()
}

/// A first instant and those after it, a step apart, up to a last time. The only error is want of memory.
pub fn instants_up_to(alloc: Global, first: Ms, last: Ms, step: Ms) -> Result<Items<Ms>, AllocError>
    requires positive { pos 0 <ℤ step.0 }
    requires times { AllByRecursion IsTime (instants_up_to first.0 last.0 step.0) }
    ensures { IfOk result (λ us. us ≡ as_times (instants_up_to first.0 last.0 step.0)) }
{
    if last.0 < first.0 {
        return Ok(Items::new(alloc));
    }
    instants(alloc, first, step, steps_between(first, last, step))
}

/// The multiples of a step in the range up to a moment, whose left edge is taken where it is closed. The only error is want of
/// memory.
pub fn multiples(
    alloc: Global,
    m: Ms,
    closed: bool,
    range: Ms,
    step: Ms,
) -> Result<Items<Ms>, AllocError>
    requires edge { IsTime (m.0 -ℤ range.0) }
    requires step { IsTime step.0 }
    requires positive { pos 0 <ℤ step.0 }
    requires times { AllByRecursion IsTime (multiples closed m.0 range.0 step.0) }
    ensures { IfOk result (λ us. us ≡ as_times (multiples closed m.0 range.0 step.0)) }
{
    let first = first_multiple(step, earlier(m, range), closed);
    instants_up_to(alloc, first, m, step)
}

/// The time that is a while before a moment.
pub fn earlier(m: Ms, span: Ms) -> Ms
    requires { IsTime (m.0 -ℤ span.0) }
    ensures { result ≡ record { 0 = m.0 -ℤ span.0 } }
{
    Ms(m.0 - span.0)
}

/// Rows with the instants that they are of, and the marks of all these instants.
#[derive(Drop)]
pub struct Points {
    pub rows: Items<(Labels, (Ms, XFrac))>,
    pub marks: Marks,
}

/// Adds the rows and marks of an instant. The only error is want of memory.
pub fn add_step(points: &mut Points, u: Ms, step: Step) -> Result<(), AllocError>
    ensures rows { OnOk result (points.new.rows ≡ points.old.rows ++ timed u step) }
    ensures marks { OnOk result (points.new.marks ≡ united points.old.marks step.marks) }
{
    let Step { table, marks } = step;
    for row in table.rows.into_vec() {
        points.rows.push((row.labels, (u, row.value)))?;
    }
    points.marks.unite(&marks)
}

/// The times and values of samples under their labels, if there are some.
pub fn window_of(labels: Labels, times: Items<Ms>, values: Items<XFrac>) -> Option<WindowRow>
    ensures { (samples : _) → times ≡ sample_times samples → values ≡ sample_values samples → result ≡ window_row labels samples }
{
    if values.as_slice().is_empty() {
        return None;
    }
    Some(WindowRow {
        labels,
        times,
        values,
    })
}

/// Samples under their labels, their times beside their values, if there are some.
fn window_of_group(
    alloc: Global,
    labels: Labels,
    samples: Items<(Ms, XFrac)>,
) -> Result<Option<WindowRow>, AllocError>
    ensures { IfOk result (λ row. row ≡ window_row labels samples) }
{
    let mut times = Items::new(alloc);
    let mut values = Items::new(alloc);
    for (time, value) in samples.into_vec() {
        times.push(time)?;
        values.push(value)?;
    }
    Ok(window_of(labels, times, values))
}

/// For all labels of rows, the times and values of the rows that have them.
fn windows_of(
    alloc: Global,
    rows: Items<(Labels, (Ms, XFrac))>,
) -> Result<Items<WindowRow>, AllocError>
    ensures { IfOk result (λ windows. windows ≡ gathered_windows rows) }
{
    let mut windows = Items::new(alloc);
    for (labels, samples) in gather(alloc, rows)? {
        let row = window_of_group(alloc, labels, samples)?;
        add_window(&mut windows, row)?;
    }
    Ok(windows)
}

/// The windows of points in a range that ends at a moment. The only error is want of memory.
pub fn windows_over(
    alloc: Global,
    moment: Ms,
    range: Ms,
    points: Points,
) -> Result<Windows, AllocError>
    ensures { IfOk result (λ windows. windows ≡ record { moment = moment; range = range; rules = []; rows = gathered_windows points.rows; marks = points.marks }) }
{
    let Points { rows, marks } = points;
    Ok(Windows {
        moment,
        range,
        rules: Items::new(alloc),
        rows: windows_of(alloc, rows)?,
        marks,
    })
}

fn add_window(windows: &mut Items<WindowRow>, row: Option<WindowRow>) -> Result<(), AllocError>
    ensures { OnOk result (windows.new ≡ windows.old ++ option_to_list row) }
{
    match row {
        Some(row) => windows.push(row),
        None => Ok(()),
    }
}
