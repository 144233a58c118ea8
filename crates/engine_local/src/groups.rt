//! The cells of the groups of an aggregation.
ghost use Rattle.promql_meaning.specs.Aggregations.{keyed_values};
ghost use Rattle.std.specs.List.{filter_map};
ghost use Rattle.std.specs.Option.{option_to_list};
ghost use Rattle.std.specs.Prelude.{◌≡◌, ◌<◌, ◌+◌, ◌^◌, ◌++◌, ◌∷◌, [], List, None, Some, length, true, IfOk, IfNone, IfSome, OnOk};
ghost use Rattle.step_cells.specs.Owed.{group_cell, lost_mark, partial_cell as cell_of_values, partial_cells as cells_of_groups, sum_cell as cell_of_sum};
ghost use Rattle.window_fn.specs.Totals.{HasRoom, IsSumOf};
ghost use Rattle.xfrac.specs.Sums.{fits};
ghost use Rattle.xfrac.specs.declared.value.XFrac.{XFrac};

use func_table::Aggregate;
use label_set::{Grouping, Items, Labels};
use std::alloc::{AllocError, Global};
use std::collections::BTreeMap;
use step_table::{Cell, CellRow, Mark, Marks, Row, Step, StepCells, as_set, gather};
use ticks::Ms;
use window_fn::aggregates::{greatest, least};
use xfrac::laws::{is_number, part_overflows_whole};
use xfrac::{SumAcc, XFrac};

/// What an aggregation makes of the values of each group of a step's rows, before it is finished; a group whose sum overflows has no
/// cell, and the mark Overflow. The only error is want of memory.
pub(crate) fn partial_cells(
    alloc: Global,
    f: Aggregate,
    by: &Grouping,
    at: Ms,
    step: Step,
) -> Result<StepCells, AllocError>
    ensures cells { IfOk result (λ cells. cells ≡ cells_of_groups f by.now (record { at = at; step = step })) }
    ensures few { OnOk result (length step.table.rows < 2 ^ 63) }
{
    let Step { table, mut marks } = step;
    let groups = gather(alloc, by_group(alloc, table.rows.as_slice(), by)?)?;
    let Made { rows, lost } = made_of(alloc, f, groups)?;
    let lost = Marks {
        fatal: as_set(alloc, lost)?,
        notes: Items::new(alloc),
    };
    marks.unite(&lost)?;
    Ok(StepCells { at, rows, marks })
}

/// Each row's value beside the labels of its group.
fn by_group(
    alloc: Global,
    rows: &[Row],
    by: &Grouping,
) -> Result<Items<(Labels, XFrac)>, AllocError>
    ensures pairs { IfOk result (λ pairs. pairs ≡ keyed_values by.now rows.now) }
    ensures few { OnOk result (length rows.now < 2 ^ 63) }
{
    let mut pairs = Items::new(alloc);
    for row in rows {
        let labels = row.labels.signature(!by.without, &by.names)?;
        pairs.push((labels, row.value))?;
    }
    Ok(pairs)
}

/// The cells of groups, and a mark for each group that has none.
#[derive(Drop)]
struct Made {
    rows: Items<CellRow>,
    lost: Items<Mark>,
}

fn made_of(
    alloc: Global,
    f: Aggregate,
    groups: BTreeMap<Labels, Items<XFrac>>,
) -> Result<Made, AllocError>
    ensures rows { IfOk result (λ made. made.rows ≡ filter_map (group_cell f) groups.entries) }
    ensures lost { IfOk result (λ made. made.lost ≡ filter_map (lost_mark f) groups.entries) }
{
    let mut made = Made {
        rows: Items::new(alloc),
        lost: Items::new(alloc),
    };
    for (labels, values) in groups {
        add_group(&mut made, f, labels, &values)?;
    }
    Ok(made)
}

fn add_group(
    made: &mut Made,
    f: Aggregate,
    labels: Labels,
    values: &Items<XFrac>,
) -> Result<(), AllocError>
    ensures rows { OnOk result (made.new.rows ≡ made.old.rows ++ option_to_list (group_cell f (labels, values.now))) }
    ensures lost { OnOk result (made.new.lost ≡ made.old.lost ++ option_to_list (lost_mark f (labels, values.now))) }
{
    match partial_cell(f, values.as_slice()) {
        Some(cell) => made.rows.push(CellRow { labels, cell }),
        None => made.lost.push(Mark::Overflow),
    }
}

/// The cell of the values of a group.
fn partial_cell(f: Aggregate, values: &[XFrac]) -> Option<Cell>
    ensures { result ≡ cell_of_values f values.now }
{
    match f {
        Aggregate::Sum | Aggregate::Avg => sum_cell(values),
        Aggregate::Min => Some(Cell::Value(least(values))),
        Aggregate::Max => Some(Cell::Value(greatest(values))),
        Aggregate::Count | Aggregate::Group => Some(Cell::Count(values.len() as u64)),
        _ => None,
    }
}

/// The sum of values before it is finished; there is none where it overflows.
#[tactic(auto, using(crate::proofs::Summing::none_made, crate::proofs::Summing::sum_made))]
fn sum_cell(values: &[XFrac]) -> Option<Cell>
    ensures { result ≡ cell_of_sum values.now }
{
    match sum_over(values) {
        Some(sum) => Some(Cell::Sum(sum)),
        None => None,
    }
}

fn sum_over(values: &[XFrac]) -> Option<SumAcc>
    ensures sum { IsSumOf result values.now }
    ensures within { IfSome result (λ t. fits t ≡ true) }
{
    let mut sum = Some(SumAcc::new());
    for value in values {
        sum = with_value(sum, value);
    }
    sum
}

/// The sum with one more value; there is none from the first overflow on, since no later value mends it.
fn with_value(sum: Option<SumAcc>, value: &XFrac) -> Option<SumAcc>
    requires { HasRoom sum }
    ensures sum { (xs : List XFrac) → IsSumOf sum xs → IsSumOf result (xs ++ value.now ∷ []) }
    ensures within { IfSome sum (λ t. fits t ≡ true) → IfSome result (λ t. fits t ≡ true) }
    ensures none { IfNone sum (result ≡ None) }
{
    is_number(value);
    match sum {
        Some(sum) => added(sum, value),
        None => {
            part_overflows_whole();
            None
        }
    }
}

fn added(mut sum: SumAcc, value: &XFrac) -> Option<SumAcc>
    requires { sum.count + 1 < 2 ^ 96 }
    ensures sum { (xs : List XFrac) → IsSumOf (Some sum) xs → IsSumOf result (xs ++ value.now ∷ []) }
    ensures within { IfSome result (λ t. fits t ≡ true) }
{
    is_number(value);
    match sum.add(value) {
        Ok(()) => Some(sum),
        Err(_) => None,
    }
}
