ghost use Rattle.std.specs.Prelude.{◌≡◌, IfOk, IsTrue, map};
ghost use Rattle.label_set.specs.Labels.{labels_cmp};
ghost use Rattle.std.specs.declared.cmp.Ordering.TheVariants.{Less};
ghost use Rattle.step_table.specs.WellFormed.{IsTable};
ghost use Rattle.step_table.specs.Groups.{Names};
ghost use Rattle.step_table.specs.Outcomes.{fault_mark as mark_of_fault, keyed, settled, taken};
ghost use Rattle.step_table.specs.declared.marks.Mark.TheVariants.{SameLabelset};

use crate::groups::part;
use crate::marks::{Mark, Marks};
use crate::step::{Row, Step, Table};
use label_set::{Items, Labels, order_is_total};
use std::alloc::{AllocError, Global};
use std::cmp::Ordering;
use xfrac::{NumFault, XFrac};

/// What comes of a row under some labels: a value, nothing, or a fault.
#[derive(Debug, Drop, PartialEq, Eq)]
pub struct Outcome {
    pub labels: Labels,
    pub value: Result<Option<XFrac>, NumFault>,
}

/// The step of what came of rows, in their order: a row with a fault is left out, and its mark added. The only error is
/// want of memory.
pub fn taken(alloc: Global, marks: Marks, outcomes: Items<Outcome>) -> Result<Step, AllocError>
    ensures { IfOk result (λ step. step ≡ taken marks outcomes) }
{
    let mut marks = marks;
    let mut rows = Items::new(alloc);
    let mut faults = Items::new(alloc);
    for outcome in outcomes.into_vec() {
        let Outcome { labels, value } = outcome;
        match value {
            Ok(Some(value)) => rows.push(Row { labels, value })?,
            Ok(None) => {}
            Err(fault) => faults.push(fault_mark(fault))?,
        }
    }
    marks.add_fatal(alloc, faults)?;
    Ok(Step {
        table: Table { rows },
        marks,
    })
}

/// The mark of a fault.
pub(crate) fn fault_mark(fault: NumFault) -> Mark
    ensures { result ≡ mark_of_fault fault }
{
    match fault {
        NumFault::Overflow => Mark::Overflow,
        NumFault::Irrational => Mark::Irrational,
        NumFault::OutOfCalendar => Mark::OutOfCalendar,
    }
}

/// The step in the order of labels, without the rows that share their labels; these labels have a mark. The only error
/// is want of memory.
#[tactic(auto, using(crate::specs::Gathering::settled_table))]
pub fn settled(alloc: Global, step: Step) -> Result<Step, AllocError>
    ensures { IfOk result (λ out. out ≡ settled step) }
{
    if are_rising(step.table.rows.as_slice()) {
        return Ok(step);
    }
    let Step { table, mut marks } = step;
    let parted = part(alloc, by_labels(alloc, table.rows)?)?;
    marks.add_fatal(alloc, same_labelsets(alloc, parted.shared)?)?;
    Ok(Step {
        table: Table { rows: parted.lone },
        marks,
    })
}

/// Whether rows are in the order of their labels, no two with equal labels.
fn are_rising(rows: &[Row]) -> bool
    ensures { IsTrue result → IsTable rows.now }
{
    order_is_total();
    for i in 1..rows.len() {
        let before = &rows[i - 1];
        let row = &rows[i];
        if !is_below(before, row) {
            return false;
        }
    }
    true
}

fn is_below(a: &Row, b: &Row) -> bool
    ensures { IsTrue result → labels_cmp a.now.labels b.now.labels ≡ Less }
{
    matches!(a.labels.cmp(&b.labels), Ordering::Less)
}

/// The rows, each beside its labels. The only error is want of memory.
pub fn by_labels(alloc: Global, rows: Items<Row>) -> Result<Items<(Labels, Row)>, AllocError>
    ensures { IfOk result (λ pairs. pairs ≡ keyed rows) }
{
    let mut pairs = Items::new(alloc);
    for row in rows.into_vec() {
        pairs.push((row.labels.copy()?, row))?;
    }
    Ok(pairs)
}

fn same_labelsets(alloc: Global, shared: Items<Labels>) -> Result<Items<Mark>, AllocError>
    ensures { IfOk result (λ marks. marks ≡ map SameLabelset shared) }
{
    let mut marks = Items::new(alloc);
    for labels in shared.into_vec() {
        marks.push(Mark::SameLabelset(labels))?;
    }
    Ok(marks)
}
