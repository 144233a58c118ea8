//! Whether a delivery is what was asked for.
ghost use Rattle.label_set.specs.Labels.{labels_cmp};
ghost use Rattle.remote_api.specs.Strays.{Answers, AsksInTimes, HasWindow, do_rise, followed_as, has_kind, is_count_cell, is_distinct, is_group_cell, is_in_window, is_sum_cell, is_value_cell, is_well, is_window, named, out_of_step, rise_from, stray_of, wrong_cell};
ghost use Rattle.std.specs.List.{AllByRecursion, list_all};
ghost use Rattle.std.specs.List.Sorted.{IsStrictlySortedBy};
ghost use Rattle.std.specs.Ordering.{int_eq};
ghost use Rattle.std.specs.Prelude.{◌≡◌, ◌+◌, ◌-ℤ◌, ℕ, int_lt, List, None, drop, length, map, slice_get, IfOk, IfSome, IsTrue, OnOk};
ghost use Rattle.std.specs.declared.cmp.Ordering.TheVariants.{Less};
ghost use Rattle.step_table.specs.declared.cells.PartKind.TheVariants as part_kind;
ghost use Rattle.ticks.specs.Listed.{IsListed};
ghost use Rattle.ticks.specs.Walks.{HasTimes, IsInstant, LeadsToTimes, moment_at};

use crate::asks::Ask;
use crate::frame::{Frame, Stray};
use func_table::Aggregate;
use label_set::{Items, Labels, order_is_total};
use std::alloc::{AllocError, Global};
use std::cmp::Ordering;
use step_table::{Cell, CellRow, PartKind, StepCells, part};
use ticks::{Ms, Walk, WalkMoment, walks_are_listed};
use xfrac::XFrac;

/// Why a delivery isn't taken.
#[derive(Clone, Copy, Debug, PartialEq, Eq)]
pub enum CheckFault {
    /// It isn't what was asked for.
    Strayed(Stray),
    /// Memory ran out.
    Memory,
}

impl From<AllocError> for CheckFault {
    ghost use Rattle.remote_api.specs.declared.checking.CheckFault.TheVariants.{Memory};
    ghost use Rattle.std.specs.Prelude.{◌≡◌};

    ghost from_gives = { λ _ e. e ≡ Memory };

    fn from(_: AllocError) -> CheckFault {
        CheckFault::Memory
    }
}

impl Frame {
    /// The instant behind the steps of a frame, in milliseconds, where `next` is the instant that is to come; there is none
    /// behind the last one. A frame that isn't what was asked for is refused as a stray.
    pub fn check(
        &self,
        alloc: Global,
        ask: &Ask,
        next: Option<Ms>,
    ) -> Result<Option<Ms>, CheckFault>
        requires times { AsksInTimes ask.now }
        requires next { IfSome next (λ t. IsInstant ask.now.walk t.0) }
        ensures stray { (all : List Ms) (k : ℕ) → IsListed ask.now.walk all → next ≡ slice_get all k → Answers (stray_of ask.now (drop k all) self.now.steps) result }
        ensures behind { IfOk result (λ n. (all : List Ms) (k : ℕ) → IsListed ask.now.walk all → next ≡ slice_get all k → n ≡ slice_get all (k + length self.now.steps)) }
        ensures instant { IfOk result (λ n. IfSome n (λ t. IsInstant ask.now.walk t.0)) }
        ensures well { OnOk result (wrong_cell ask.now self.now.steps ≡ None) }
    {
        let steps = self.steps.as_slice();
        if steps.is_empty() {
            return Err(CheckFault::Strayed(Stray::OutOfStep {
                expected: next,
                got: None,
            }));
        }
        match follow(&ask.walk, next, steps) {
            Err(stray) => Err(CheckFault::Strayed(stray)),
            Ok(behind) => match wrong_cell(alloc, ask, steps)? {
                Some(stray) => Err(CheckFault::Strayed(stray)),
                None => Ok(behind),
            },
        }
    }
}

/// Whether steps stand at the instants that are to come, one after another: the instant behind them, or the first that doesn't.
fn follow(walk: &Walk, next: Option<Ms>, steps: &[StepCells]) -> Result<Option<Ms>, Stray>
    requires times { LeadsToTimes walk.now }
    requires next { IfSome next (λ t. IsInstant walk.now t.0) }
    ensures exact { (all : List Ms) (k : ℕ) → IsListed walk.now all → next ≡ slice_get all k → result ≡ followed_as (out_of_step (drop k all) steps.now) (slice_get all (k + length steps.now)) }
    ensures instant { IfOk result (λ n. IfSome n (λ t. IsInstant walk.now t.0)) }
    ensures steps { OnOk result (AllByRecursion (λ step. IsInstant walk.now step.at.0) steps.now) }
{
    walks_are_listed();
    let mut to_come = next;
    for step in steps {
        let Some(t) = to_come else {
            return Err(Stray::OutOfStep {
                expected: None,
                got: Some(step.at),
            });
        };
        if !is_same_time(t, step.at) {
            return Err(Stray::OutOfStep {
                expected: Some(t),
                got: Some(step.at),
            });
        }
        to_come = walk.after(t);
    }
    Ok(to_come)
}

fn is_same_time(a: Ms, b: Ms) -> bool
    ensures { result ≡ int_eq a.0 b.0 }
{
    a.0 == b.0
}

/// The first step with a cell of another kind than is asked, or with labels that stand twice. The only error is want of memory.
fn wrong_cell(alloc: Global, ask: &Ask, steps: &[StepCells]) -> Result<Option<Stray>, AllocError>
    requires { ask.now.kind ≡ part_kind.Windows → AllByRecursion (λ step. HasWindow ask.now step.at) steps.now }
    ensures { IfOk result (λ found. found ≡ wrong_cell ask.now steps.now) }
{
    for step in steps {
        if !is_well(alloc, ask, step)? {
            return Ok(Some(Stray::WrongCell { at: step.at }));
        }
    }
    Ok(None)
}

fn is_well(alloc: Global, ask: &Ask, step: &StepCells) -> Result<bool, AllocError>
    requires { ask.now.kind ≡ part_kind.Windows → HasWindow ask.now step.now.at }
    ensures { IfOk result (λ well. well ≡ is_well ask.now step.now) }
{
    if !are_of_kind(ask, step.at, step.rows.as_slice()) {
        return Ok(false);
    }
    are_distinct(alloc, step.rows.as_slice())
}

fn are_of_kind(ask: &Ask, at: Ms, rows: &[CellRow]) -> bool
    requires { ask.now.kind ≡ part_kind.Windows → HasWindow ask.now at }
    ensures { result ≡ list_all (λ row. has_kind ask.now at row.cell) rows.now }
{
    for row in rows {
        if !is_of_kind(ask, at, &row.cell) {
            return false;
        }
    }
    true
}

fn is_of_kind(ask: &Ask, at: Ms, cell: &Cell) -> bool
    requires { ask.now.kind ≡ part_kind.Windows → HasWindow ask.now at }
    ensures { result ≡ has_kind ask.now at cell.now }
{
    match &ask.kind {
        PartKind::Rows => matches!(cell, Cell::Value(_)),
        PartKind::Windows => match cell {
            Cell::Window { times, values } => is_window(
                &ask.moment,
                ask.range,
                at,
                times.as_slice(),
                values.as_slice(),
            ),
            _ => false,
        },
        PartKind::Partial(f, _) => is_group_cell(*f, cell),
    }
}

/// Whether a cell is of the groups of an aggregation that engines are asked for.
fn is_group_cell(f: Aggregate, cell: &Cell) -> bool
    ensures { result ≡ is_group_cell f cell.now }
{
    match f {
        Aggregate::Sum | Aggregate::Avg => is_sum_cell(cell),
        Aggregate::Min | Aggregate::Max => is_value_cell(cell),
        Aggregate::Count | Aggregate::Group => is_count_cell(cell),
        _ => false,
    }
}

fn is_value_cell(cell: &Cell) -> bool
    ensures { result ≡ is_value_cell cell.now }
{
    matches!(cell, Cell::Value(_))
}

fn is_sum_cell(cell: &Cell) -> bool
    ensures { result ≡ is_sum_cell cell.now }
{
    match cell {
        Cell::Sum(sum) => 0 < sum.count() && sum.count() < 1 << 63,
        _ => false,
    }
}

fn is_count_cell(cell: &Cell) -> bool
    ensures { result ≡ is_count_cell cell.now }
{
    matches!(cell, Cell::Count(_))
}

/// Whether samples are a window at an instant.
fn is_window(moment: &WalkMoment, range: Ms, at: Ms, times: &[Ms], values: &[XFrac]) -> bool
    requires { HasTimes (moment_at moment.now at.0) range.0 }
    ensures { result ≡ is_window moment.now range at times.now values.now }
{
    if times.len() != values.len() || times.is_empty() || !do_rise(times) {
        return false;
    }
    lie_in_window(moment, range, at, times)
}

/// Whether times lie in the window that ends at the moment of an instant.
fn lie_in_window(moment: &WalkMoment, range: Ms, at: Ms, times: &[Ms]) -> bool
    requires { HasTimes (moment_at moment.now at.0) range.0 }
    ensures { result ≡ list_all (is_in_window moment.now.closed (moment_at moment.now at.0 -ℤ range.0) (moment_at moment.now at.0)) times.now }
{
    let ends = moment.at(at);
    are_in_window(moment.closed, Ms(ends - range.0), Ms(ends), times)
}

/// Whether each time is earlier than the next one.
fn do_rise(times: &[Ms]) -> bool
    ensures { result ≡ do_rise times.now }
{
    match times {
        [] => true,
        [first, ..] => rise_from(*first, times.split_at(1).1),
    }
}

/// Whether a time is earlier than the first of others, and each of these earlier than the next one.
fn rise_from(time: Ms, times: &[Ms]) -> bool
    ensures { result ≡ rise_from time times.now }
{
    let mut last = time;
    for t in times {
        if !is_before(last, *t) {
            return false;
        }
        last = *t;
    }
    true
}

fn is_before(t: Ms, u: Ms) -> bool
    ensures { result ≡ int_lt t.0 u.0 }
{
    t.0 < u.0
}

fn are_in_window(closed: bool, edge: Ms, moment: Ms, times: &[Ms]) -> bool
    ensures { result ≡ list_all (is_in_window closed edge.0 moment.0) times.now }
{
    for t in times {
        if !is_in_window(closed, edge, moment, *t) {
            return false;
        }
    }
    true
}

fn is_in_window(closed: bool, edge: Ms, moment: Ms, t: Ms) -> bool
    ensures { result ≡ is_in_window closed edge.0 moment.0 t }
{
    let behind = if closed { edge.0 <= t.0 } else { edge.0 < t.0 };
    behind && t.0 <= moment.0
}

/// Whether no labels stand twice. Rows in the order of their labels, as most engines give them, are seen at once. The only error is
/// want of memory.
fn are_distinct(alloc: Global, rows: &[CellRow]) -> Result<bool, AllocError>
    ensures { IfOk result (λ distinct. distinct ≡ is_distinct rows.now) }
{
    if are_rising(rows) {
        return Ok(true);
    }
    let parted = part(alloc, labels_of(alloc, rows)?)?;
    Ok(parted.shared.as_slice().is_empty())
}

/// Whether rows are in the order of their labels, no two with equal labels.
fn are_rising(rows: &[CellRow]) -> bool
    ensures { IsTrue result → IsStrictlySortedBy labels_cmp (map (λ row. row.labels) rows.now) }
{
    order_is_total();
    for i in 1..rows.len() {
        let before = &rows[i - 1];
        let row = &rows[i];
        if !is_below(before, row) {
            return false;
        }
    }
    true
}

fn is_below(a: &CellRow, b: &CellRow) -> bool
    ensures { IsTrue result → labels_cmp a.now.labels b.now.labels ≡ Less }
{
    matches!(a.labels.cmp(&b.labels), Ordering::Less)
}

/// The labels of rows, each beside nothing. The only error is want of memory.
fn labels_of(alloc: Global, rows: &[CellRow]) -> Result<Items<(Labels, bool)>, AllocError>
    ensures { IfOk result (λ names. names ≡ named rows.now) }
{
    let mut names = Items::new(alloc);
    for row in rows {
        names.push((row.labels.copy()?, true))?;
    }
    Ok(names)
}
