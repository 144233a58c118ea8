//! The result of a query over a grid.
ghost use Rattle.step_rules.specs.Ranked.{order_of};
ghost use Rattle.plain_eval.specs.Ready.{ArePatternsKept};
ghost use Rattle.plain_eval.specs.Walks.{IsWalked};
ghost use Rattle.promql_meaning.specs.Conditions.{AreMet, needs_of, needs_over};
ghost use Rattle.promql_meaning.specs.Meaning.{meaning_step};
ghost use Rattle.promql_meaning.specs.Orders.{in_order as series_in_order};
ghost use Rattle.promql_meaning.specs.Results.{gives_scalar, grid_times, order_asked, points_at, result_of, series_of_group, stop_at as stop_of};
ghost use Rattle.step_table.specs.Timed.{steps_over};
ghost use Rattle.promql_meaning.specs.Selecting.{asked_over};
ghost use Rattle.promql_type.specs.TypedTrees.{tree_of};
ghost use Rattle.std.specs.Option.{option_map};
ghost use Rattle.std.specs.Prelude.{◌≡◌, ◌≤◌, ◌++◌, map, IfOk, OnOk};
ghost use Rattle.step_table.specs.Groups.{gathered};
ghost use Rattle.step_table.specs.Unions.{united};

use crate::evaluating::at;
use label_set::{Items, Labels};
use match_rule::Patterns;
use promql_meaning::{Answer, Outcome, Point, ResultSeries, no_marks};
use promql_type::Typed;
use sample_store::Store;
use std::alloc::{AllocError, Global};
use std::collections::BTreeMap;
use std::sync::ledger::Ledger;
use step_rules::{ByValue, in_order, instants_up_to, root_order};
use step_table::{Marks, Step, add};
use ticks::{Grid, Ms, Work};

/// The most rows of a result, over all its instants.
const MOST_ROWS: usize = 4_000_000;

/// The points of all instants so far by their labels, and the notes and marks of these instants.
#[derive(Drop)]
pub(crate) struct Found {
    pub points: BTreeMap<Labels, Items<Point>>,
    pub marks: Marks,
}

/// What a walk over the instants of a grid comes to.
#[derive(Drop)]
pub(crate) enum Walked {
    /// An instant at which the evaluation ends early.
    Stopped(Outcome),
    /// All instants.
    Done(Found),
}

/// The result of a typed query over a grid: the first instant that fails, with its least mark, or has more than 4,000,000
/// rows, counted over all instants so far; or else the series in their order and the notes of all instants. `instant` tells
/// that it is an instant query, whose root may ask for an order by value. Samples are read by counted calls alone. The
/// patterns stay as they are. The only error is want of memory. (Prometheus querying.)
pub fn range<W: Ledger>(
    alloc: Global,
    e: &Typed,
    s: &Store,
    p: &mut Patterns,
    grid: &Grid,
    instant: bool,
    work: &mut Work<W>,
) -> Result<Outcome, AllocError>
    // at each instant each time that the tree leads to is at most 2^60 in magnitude, its steps are positive, and its rules'
    // patterns are kept
    requires met { AreMet (asked_over s.now p.old grid.now) (needs_over (needs_of (asked_over s.now p.old grid.now) (tree_of e.now)) (grid_times grid.now)) }
    // the pattern of each label_replace call is kept as one that has to match the whole value, as `check` keeps it
    requires kept { ArePatternsKept p.old (tree_of e.now) }
    ensures result { IfOk result (λ outcome. outcome ≡ result_of (asked_over s.now p.old grid.now) (tree_of e.now) grid.now instant) }
    ensures same { p.new ≡ p.old }
{
    match walk(alloc, e, s, p, grid, work)? {
        Walked::Stopped(outcome) => Ok(outcome),
        Walked::Done(found) => Ok(Outcome::Answer(answer(alloc, e, instant, found)?)),
    }
}

/// The walk over the instants of the grid.
fn walk<W: Ledger>(
    alloc: Global,
    e: &Typed,
    s: &Store,
    p: &mut Patterns,
    grid: &Grid,
    work: &mut Work<W>,
) -> Result<Walked, AllocError>
    requires met { AreMet (asked_over s.now p.old grid.now) (needs_over (needs_of (asked_over s.now p.old grid.now) (tree_of e.now)) (grid_times grid.now)) }
    requires kept { ArePatternsKept p.old (tree_of e.now) }
    ensures walked { IfOk result (IsWalked (steps_over (meaning_step (asked_over s.now p.old grid.now) (tree_of e.now)) (grid_times grid.now))) }
    ensures same { p.new ≡ p.old }
{
    let times = instants_up_to(alloc, grid.start, grid.end, grid.step)?;
    let mut found = Found {
        points: BTreeMap::new(alloc),
        marks: no_marks(alloc),
    };
    let mut rows = 0;
    for t in times.as_slice() {
        let step = at(alloc, e, s, p, *t, grid, work)?;
        if let Some(outcome) = stop_at(rows, *t, &step)? {
            return Ok(Walked::Stopped(outcome));
        }
        rows += step.table.rows.as_slice().len();
        add_step(alloc, &mut found, *t, step)?;
    }
    Ok(Walked::Done(found))
}

/// The outcome of an instant at which the evaluation ends, where so many rows were counted at earlier ones.
fn stop_at(earlier: usize, t: Ms, step: &Step) -> Result<Option<Outcome>, AllocError>
    requires { earlier ≤ 4000000 }
    ensures { IfOk result (λ outcome. outcome ≡ stop_of earlier (record { at = t; step = step.now })) }
{
    match step.marks.fatal.as_slice() {
        [mark, ..] => Ok(Some(Outcome::Failed {
            at: t,
            mark: mark.copy()?,
        })),
        [] => {
            if step.table.rows.as_slice().len() > MOST_ROWS - earlier {
                Ok(Some(Outcome::TooManyRows { at: t }))
            } else {
                Ok(None)
            }
        }
    }
}

/// Adds the rows, notes and marks of an instant. The only error is want of memory.
fn add_step(alloc: Global, found: &mut Found, t: Ms, step: Step) -> Result<(), AllocError>
    ensures points { OnOk result ((points : _) → found.old.points.entries ≡ gathered points → found.new.points.entries ≡ gathered (points ++ points_at (record { at = t; step = step }))) }
    ensures marks { OnOk result (found.new.marks ≡ united found.old.marks step.marks) }
{
    let Step { table, marks } = step;
    for row in table.rows.into_vec() {
        let point = Point {
            at: t,
            value: row.value,
        };
        add(&mut found.points, alloc, row.labels, point)?;
    }
    found.marks.unite(&marks)
}

/// The order by value that the root of an instant query asks for; of a query over a range there is none. The only error is want
/// of memory.
pub fn order_asked(alloc: Global, e: &Typed, instant: bool) -> Result<Option<ByValue>, AllocError>
    ensures { IfOk result (λ order. option_map order_of order ≡ order_asked instant (tree_of e.now)) }
{
    if !instant {
        return Ok(None);
    }
    root_order(alloc, e.expr())
}

/// Whether a typed query gives a scalar. It takes no memory.
#[tactic(auto, using(crate::proofs::Scalars::tells_scalar))]
pub fn is_scalar(e: &Typed) -> bool
    ensures { result ≡ gives_scalar (tree_of e.now) }
{
    e.is_scalar()
}

/// The answer of all instants.
fn answer(alloc: Global, e: &Typed, instant: bool, found: Found) -> Result<Answer, AllocError>
    ensures { IfOk result (λ answer. answer ≡ record {
      scalar = gives_scalar (tree_of e.now);
      series = series_in_order (order_asked instant (tree_of e.now)) (map series_of_group found.points.entries);
      notes = found.marks.notes;
    }) }
{
    let order = order_asked(alloc, e, instant)?;
    let series = series_of(alloc, found.points)?;
    Ok(Answer {
        scalar: is_scalar(e),
        series: in_order(alloc, order, series)?,
        notes: found.marks.notes,
    })
}

/// A series for all labels that there are points of, in the order of labels.
fn series_of(
    alloc: Global,
    points: BTreeMap<Labels, Items<Point>>,
) -> Result<Items<ResultSeries>, AllocError>
    ensures { IfOk result (λ series. series ≡ map series_of_group points.entries) }
{
    let mut series = Items::new(alloc);
    for (labels, points) in points {
        series.push(ResultSeries { labels, points })?;
    }
    Ok(series)
}
