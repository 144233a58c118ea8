//! The cells of an aggregation's groups, merged and finished.
ghost use Rattle.op_gather.specs.Cells.{AreGroups, CountsUpTo, MayFinish};
ghost use Rattle.op_gather.specs.Joins.{groups_joined};
ghost use Rattle.remote_api.specs.Strays.{is_sum_cell};
ghost use Rattle.std.specs.List.{AllByRecursion, filter_map};
ghost use Rattle.std.specs.Option.{ok_or, option_and_then, option_map};
ghost use Rattle.std.specs.Prelude.{◌≡◌, ◌<◌, ◌≤◌, ◌+◌, ◌^◌, ◌∷◌, ℕ, [], fold, length, map, true, IfOk, IfSome};
ghost use Rattle.step_cells.specs.Joined.{count_in_cell, counted_in, finished as finished_of, finished_outcome, keyed_cells, mean_in as mean_of, merged as merged_of, merged_with, totals_in_cell, value_in_cell};
ghost use Rattle.step_table.specs.Operators.{some_value};
ghost use Rattle.step_table.specs.WellFormed.{IsTable};
ghost use Rattle.window_fn.specs.Aggregates.{greater, greatest as greatest_of, least as least_of, lesser};
ghost use Rattle.xfrac.specs.Fractions.{limit};
ghost use Rattle.xfrac.specs.Sums.{value_of};
ghost use Rattle.xfrac.specs.declared.value.NumFault.TheVariants.{Overflow};

use crate::joining::together;
use func_table::Aggregate;
use label_set::{Items, Labels};
use std::alloc::{AllocError, Global};
use std::collections::BTreeMap;
use step_table::laws::steps_are_well_formed;
use step_table::{Cell, CellRow, Outcome, Step, StepCells, gather, taken};
use window_fn::aggregates::{greatest, least};
use xfrac::{NumFault, SumAcc, XFrac, whole, whole_count};

/// What an aggregation makes of the cells of all engines, in the order of labels: those of equal labels are merged and finished; a group
/// whose merged sum overflows is left out with that mark. The only error is want of memory.
pub(crate) fn join_groups(
    alloc: Global,
    f: Aggregate,
    steps: Items<StepCells>,
) -> Result<Step, AllocError>
    requires few { length steps < 2 ^ 32 }
    requires groups { AllByRecursion (AreGroups f) steps }
    ensures joined { IfOk result (λ step. step ≡ groups_joined f steps) }
    ensures table { IfOk result (λ step. IsTable step.table.rows) }
{
    steps_are_well_formed();
    let all = together(alloc, steps)?;
    let cells = by_labels(alloc, all.cells)?;
    let groups = gather(alloc, cells)?;
    let outcomes = finish_all(alloc, f, groups)?;
    taken(alloc, all.marks, outcomes)
}

/// Cells, each beside its labels. The only error is want of memory.
fn by_labels(alloc: Global, rows: Items<CellRow>) -> Result<Items<(Labels, Cell)>, AllocError>
    ensures { IfOk result (λ pairs. pairs ≡ keyed_cells rows) }
{
    let mut pairs = Items::new(alloc);
    for row in rows.into_vec() {
        let CellRow { labels, cell } = row;
        pairs.push((labels, cell))?;
    }
    Ok(pairs)
}

fn finish_all(
    alloc: Global,
    f: Aggregate,
    groups: BTreeMap<Labels, Items<Cell>>,
) -> Result<Items<Outcome>, AllocError>
    requires { AllByRecursion (λ group. MayFinish f group.1) groups.entries }
    ensures { IfOk result (λ outcomes. outcomes ≡ map (finished_outcome f) groups.entries) }
{
    let mut outcomes = Items::new(alloc);
    for (labels, cells) in groups {
        let value = finished(f, cells.as_slice());
        outcomes.push(Outcome { labels, value })?;
    }
    Ok(outcomes)
}

/// What an aggregation makes of a group's cells.
fn finished(f: Aggregate, cells: &[Cell]) -> Result<Option<XFrac>, NumFault>
    requires { MayFinish f cells.now }
    ensures { result ≡ finished_of f cells.now }
{
    match f {
        Aggregate::Sum => or_overflow(sum_in(merged(cells))),
        Aggregate::Avg => or_overflow(mean_in(merged(cells))),
        Aggregate::Min => Ok(Some(least_in(cells))),
        Aggregate::Max => Ok(Some(greatest_in(cells))),
        Aggregate::Count => Ok(Some(whole_count(counted(cells)))),
        Aggregate::Group => Ok(Some(whole(1))),
        _ => Ok(None),
    }
}

/// A value, or that there is none since a sum overflows.
fn or_overflow(value: Option<XFrac>) -> Result<Option<XFrac>, NumFault>
    ensures { result ≡ some_value (ok_or value Overflow) }
{
    match value {
        Some(value) => Ok(Some(value)),
        None => Err(NumFault::Overflow),
    }
}

/// The value of a merged sum.
fn sum_in(sum: Option<SumAcc>) -> Option<XFrac>
    ensures { result ≡ option_map value_of sum }
{
    match sum {
        Some(sum) => Some(sum.value()),
        None => None,
    }
}

/// The mean of the values of a merged sum; there is none where it overflows.
fn mean_in(sum: Option<SumAcc>) -> Option<XFrac>
    requires { IfSome sum (λ s. 0 < s.count) }
    ensures { result ≡ option_and_then mean_of sum }
{
    match sum {
        Some(sum) => sum.mean().ok(),
        None => None,
    }
}

/// The sums of cells, merged; there is none as soon as one overflows.
fn merged(cells: &[Cell]) -> Option<SumAcc>
    requires few { length cells.now < 2 ^ 32 }
    requires sums { AllByRecursion (λ c. is_sum_cell c ≡ true) cells.now }
    ensures merged { result ≡ merged_of (filter_map totals_in_cell cells.now) }
    ensures some { 0 < length cells.now → IfSome result (λ s. 0 < s.count) }
{
    let mut sum = Some(SumAcc::new());
    for cell in cells {
        sum = with_cell(sum, cell);
    }
    sum
}

/// A sum with that in a cell. There is none from the first overflow on.
fn with_cell(sum: Option<SumAcc>, cell: &Cell) -> Option<SumAcc>
    requires room { IfSome sum (λ s. s.count < 2 ^ 95) }
    requires counts { is_sum_cell cell.now ≡ true }
    ensures merged { result ≡ fold merged_with sum (filter_map totals_in_cell (cell.now ∷ [])) }
    ensures counted { (n : ℕ) → CountsUpTo n sum → CountsUpTo (n + 1) result }
    ensures some { IfSome result (λ s. 0 < s.count) }
{
    match cell {
        Cell::Sum(more) => with_sum(sum, more),
        _ => unreachable!(),
    }
}

/// A sum with another one. There is none from the first overflow on.
fn with_sum(sum: Option<SumAcc>, more: &SumAcc) -> Option<SumAcc>
    requires room { IfSome sum (λ s. s.count < 2 ^ 95) }
    requires some { 0 < more.now.count }
    requires few { more.now.count < 2 ^ 63 }
    ensures merged { result ≡ merged_with sum more.now }
    ensures counted { (n : ℕ) → CountsUpTo n sum → CountsUpTo (n + 1) result }
    ensures some { IfSome result (λ s. 0 < s.count) }
{
    let Some(mut sum) = sum else {
        return None;
    };
    match sum.merge(more) {
        Ok(()) => Some(sum),
        Err(_) => None,
    }
}

/// The least value in cells; NaN only where there is no other.
fn least_in(cells: &[Cell]) -> XFrac
    ensures { result ≡ least_of (filter_map value_in_cell cells.now) }
{
    let mut best = XFrac::NaN;
    for cell in cells {
        best = with_lesser(best, cell);
    }
    best
}

/// The lesser of a value and that in a cell.
fn with_lesser(best: XFrac, cell: &Cell) -> XFrac
    ensures { result ≡ fold lesser best (filter_map value_in_cell (cell.now ∷ [])) }
{
    match cell {
        Cell::Value(value) => least(&[best, *value]),
        _ => best,
    }
}

/// The greatest value in cells; NaN only where there is no other.
fn greatest_in(cells: &[Cell]) -> XFrac
    ensures { result ≡ greatest_of (filter_map value_in_cell cells.now) }
{
    let mut best = XFrac::NaN;
    for cell in cells {
        best = with_greater(best, cell);
    }
    best
}

/// The greater of a value and that in a cell.
fn with_greater(best: XFrac, cell: &Cell) -> XFrac
    ensures { result ≡ fold greater best (filter_map value_in_cell (cell.now ∷ [])) }
{
    match cell {
        Cell::Value(value) => greatest(&[best, *value]),
        _ => best,
    }
}

/// The counts in cells, added.
fn counted(cells: &[Cell]) -> u128
    requires { length cells.now < 2 ^ 32 }
    ensures sum { result ≡ counted_in cells.now }
    ensures few { result ≤ limit }
{
    let mut count = 0;
    for cell in cells {
        count += count_in(cell);
    }
    count
}

fn count_in(cell: &Cell) -> u128
    ensures count { result ≡ count_in_cell cell.now }
    ensures few { result < 2 ^ 64 }
{
    match cell {
        Cell::Count(count) => *count as u128,
        _ => 0,
    }
}
