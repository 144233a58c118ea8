ghost use Rattle.frac_text.specs.Spellings.{spelling};
ghost use Rattle.label_set.specs.Labels.{is_named as is_named_name};
ghost use Rattle.promql_meaning.specs.Countings.{counted, counted_labels as labels_counted, counting_outcome as outcome_of_counting, is_left_out as is_left_out_label, tallied};
ghost use Rattle.std.specs.Prelude.{◌≡◌, string_bytes, IfOk};

use crate::groups::group_labels;
use crate::limits::labels_with;
use frac_text::write_number;
use label_set::{Grouping, Items, Labels, METRIC_NAME, Text};
use std::alloc::{AllocError, Global};
use step_table::{Outcome, Row, Step, Table, by_labels, gather, labelled, taken};
use xfrac::laws::is_number;
use xfrac::{XFrac, whole};

/// How many rows have the labels that they are counted under. The only error is want of memory.
pub(crate) fn counted(
    alloc: Global,
    t: &Step,
    by: &Grouping,
    label: &str,
) -> Result<Step, AllocError>
    ensures { IfOk result (λ step. step ≡ counted by.now label.now t.now) }
{
    let mut outcomes = Items::new(alloc);
    for row in t.table.rows.as_slice() {
        outcomes.push(counting_outcome(alloc, by, label, row)?)?;
    }
    tallied(alloc, taken(alloc, t.marks.copy()?, outcomes)?)
}

/// A row under the labels that it is counted under.
fn counting_outcome(
    alloc: Global,
    by: &Grouping,
    label: &str,
    row: &Row,
) -> Result<Outcome, AllocError>
    ensures { IfOk result (λ outcome. outcome ≡ outcome_of_counting by.now label.now row.now) }
{
    let labels = counted_labels(alloc, by, label, row)?;
    Ok(labelled(alloc, labels, row.value))
}

/// The labels that a row is counted under: those of its group, with its value's text under the label.
fn counted_labels(
    alloc: Global,
    by: &Grouping,
    label: &str,
    row: &Row,
) -> Result<Option<Labels>, AllocError>
    ensures { IfOk result (λ labels. labels ≡ labels_counted by.now label.now row.now) }
{
    let kept = group_labels(by, &row.labels)?;
    if is_left_out(by, label) {
        return Ok(Some(kept));
    }
    let text = number_text(alloc, &row.value)?;
    labels_with(alloc, kept, label, text.as_str())
}

/// Under `without` a label that is listed, or the metric's name, is not set.
fn is_left_out(by: &Grouping, label: &str) -> bool
    ensures { result ≡ is_left_out_label by.now label.now }
{
    by.without && (label == METRIC_NAME || is_listed(by.names.as_slice(), label))
}

fn is_listed(names: &[Text], label: &str) -> bool
    ensures { result ≡ is_named_name names.now label.now }
{
    names.iter().any(|name| name.as_str() == label)
}

/// The spelling of a number.
#[tactic(auto, using(crate::proofs::Spelled::spelled_text))]
fn number_text(alloc: Global, value: &XFrac) -> Result<String, AllocError>
    ensures { IfOk result (λ text. string_bytes text ≡ spelling value.now) }
{
    let mut bytes = Vec::new(alloc);
    write_number(value, &mut bytes)?;
    is_number(value);
    Ok(String::from_utf8(bytes).unwrap())
}

/// For all labels that rows have, how many have them.
fn tallied(alloc: Global, step: Step) -> Result<Step, AllocError>
    ensures { IfOk result (λ out. out ≡ tallied step) }
{
    let Step { table, marks } = step;
    let mut rows = Items::new(alloc);
    for (labels, group) in gather(alloc, by_labels(alloc, table.rows)?)? {
        rows.push(Row {
            labels,
            value: whole(group.as_slice().len() as i64),
        })?;
    }
    Ok(Step {
        table: Table { rows },
        marks,
    })
}
