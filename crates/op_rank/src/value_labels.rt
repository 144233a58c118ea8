//! The labels that values are counted under.
ghost use Rattle.frac_text.specs.Spellings.{spelling};
ghost use Rattle.label_set.specs.Labels.{is_named as is_named_name};
ghost use Rattle.op_rank.specs.ValueCounts.{labels_of as labels_of_entry, value_labels as labels_of_value};
ghost use Rattle.promql_meaning.specs.Countings.{is_left_out as is_left_out_label};
ghost use Rattle.std.specs.Prelude.{◌≡◌, ◌<◌, length, string_bytes, IfOk};

use crate::entries::Entry;
use frac_text::write_number;
use label_set::{Grouping, Labels, METRIC_NAME, Text};
use promql_meaning::labels_with;
use std::alloc::{AllocError, Global};
use xfrac::XFrac;
use xfrac::laws::is_number;

/// How values are counted: beside each place that is fed the place of its group, the labels of groups, and the label that
/// takes a value's text, unless it is not set.
#[derive(Clone, Copy)]
pub(crate) struct Counting<'a> {
    pub places: &'a [usize],
    pub groups: &'a [Labels],
    pub label: &'a str,
    pub is_set: bool,
}

/// The labels that a value of a group is counted under; there are none where they would pass the limits of labels.
pub(crate) fn labels_of(
    alloc: Global,
    counting: &Counting<'_>,
    entry: &Entry,
) -> Result<Option<Labels>, AllocError>
    requires { entry.now.group < length counting.now.groups.now }
    ensures { IfOk result (λ labels. labels ≡ labels_of_entry counting.now entry.now) }
{
    let groups = counting.groups;
    value_labels(
        alloc,
        counting.is_set,
        counting.label,
        &groups[entry.group],
        &entry.value,
    )
}

fn value_labels(
    alloc: Global,
    is_set: bool,
    label: &str,
    group: &Labels,
    value: &XFrac,
) -> Result<Option<Labels>, AllocError>
    ensures { IfOk result (λ labels. labels ≡ labels_of_value is_set label.now group.now value.now) }
{
    let kept = group.copy()?;
    if !is_set {
        return Ok(Some(kept));
    }
    let text = number_text(alloc, value)?;
    labels_with(alloc, kept, label, text.as_str())
}

/// The spelling of a number.
#[tactic(auto, using(crate::proofs::Spelled::spelled_text))]
fn number_text(alloc: Global, value: &XFrac) -> Result<String, AllocError>
    ensures { IfOk result (λ text. string_bytes text ≡ spelling value.now) }
{
    let mut bytes = Vec::new(alloc);
    write_number(value, &mut bytes)?;
    is_number(value);
    Ok(String::from_utf8(bytes).unwrap())
}

/// Under `without` a label that is listed, or the metric's name, is not set.
pub(crate) fn is_left_out(by: &Grouping, label: &str) -> bool
    ensures { result ≡ is_left_out_label by.now label.now }
{
    by.without && (label == METRIC_NAME || is_listed(by.names.as_slice(), label))
}

fn is_listed(names: &[Text], label: &str) -> bool
    ensures { result ≡ is_named_name names.now label.now }
{
    names.iter().any(|name| name.as_str() == label)
}
