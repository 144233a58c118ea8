//! New values for a label of each row.
ghost use Rattle.label_set.specs.Labels.{value_of};
ghost use Rattle.match_rule.specs.Patterns.{IsWholeId};
ghost use Rattle.step_rules.specs.Joined.{gap_at, joined_row, replaced_row};
ghost use Rattle.promql_meaning.specs.Relabels.{label_joined, label_replaced, replaced_labels, separated};
ghost use Rattle.std.specs.Prelude.{◌≡◌, List, ℕ, true, Some, map, slice_get, string_bytes, IfOk};

use crate::templates::expanded;
use label_set::{Items, Labels, PatternId, Text};
use match_rule::{Patterns, Spans};
use promql_meaning::labels_with;
use std::alloc::{AllocError, Global};
use step_table::{Outcome, Row, Step, labelled, settled, taken};

/// What label_replace is asked for; the pattern is one of `Patterns::whole`.
#[derive(Drop)]
pub struct Replacing {
    pub target: Text,
    pub template: Text,
    pub source: Text,
    pub pattern: PatternId,
}

/// Where the pattern matches the whole value of the source, the target is set to the template with the groups' texts in
/// the places of its references. The only error is want of memory.
pub fn label_replaced(
    alloc: Global,
    replacing: &Replacing,
    step: Step,
    patterns: &mut Patterns,
) -> Result<Step, AllocError>
    requires { IsWholeId patterns.old replacing.now.pattern.0 }
    ensures step { IfOk result (λ s. (text : List ℕ) → slice_get patterns.old replacing.now.pattern.0 ≡ Some (true, text)
        → s ≡ label_replaced replacing.now.target replacing.now.template replacing.now.source text step) }
    ensures same { patterns.new ≡ patterns.old }
{
    let Step { table, marks } = step;
    let mut outcomes = Items::new(alloc);
    for row in table.rows.into_vec() {
        outcomes.push(replaced_outcome(alloc, replacing, row, patterns)?)?;
    }
    settled(alloc, taken(alloc, marks, outcomes)?)
}

fn replaced_outcome(
    alloc: Global,
    replacing: &Replacing,
    row: Row,
    patterns: &mut Patterns,
) -> Result<Outcome, AllocError>
    requires { IsWholeId patterns.old replacing.now.pattern.0 }
    ensures outcome { IfOk result (λ o. (text : List ℕ) → slice_get patterns.old replacing.now.pattern.0 ≡ Some (true, text)
        → o ≡ replaced_row replacing.now.target replacing.now.template replacing.now.source text row) }
    ensures same { patterns.new ≡ patterns.old }
{
    let labels = replaced_labels(alloc, replacing, row.labels, patterns)?;
    Ok(labelled(alloc, labels, row.value))
}

/// The labels of a row, with the target set where the pattern matches the whole value of the source; there are none where
/// they would pass the limits. The only error is want of memory.
pub fn replaced_labels(
    alloc: Global,
    replacing: &Replacing,
    labels: Labels,
    patterns: &mut Patterns,
) -> Result<Option<Labels>, AllocError>
    requires { IsWholeId patterns.old replacing.now.pattern.0 }
    ensures labels { IfOk result (λ l. (text : List ℕ) → slice_get patterns.old replacing.now.pattern.0 ≡ Some (true, text)
        → l ≡ replaced_labels replacing.now.target replacing.now.template replacing.now.source text labels) }
    ensures same { patterns.new ≡ patterns.old }
{
    let value = labels.get(replacing.source.as_str());
    let mut spans = Spans::new(alloc);
    let matches = patterns.groups(replacing.pattern, value, &mut spans)?;
    if !matches {
        return Ok(Some(labels));
    }
    let value = expanded(alloc, &spans, value, replacing.template.as_str())?;
    labels_with(alloc, labels, replacing.target.as_str(), value.as_str())
}

/// The target is set to the values of the sources, joined by the separator. The only error is want of memory.
pub fn label_joined(
    alloc: Global,
    target: &str,
    separator: &str,
    sources: &[Text],
    step: Step,
) -> Result<Step, AllocError>
    ensures { IfOk result (λ s. s ≡ label_joined target.now separator.now sources.now step) }
{
    let Step { table, marks } = step;
    let mut outcomes = Items::new(alloc);
    for row in table.rows.into_vec() {
        outcomes.push(joined_outcome(alloc, target, separator, sources, row)?)?;
    }
    settled(alloc, taken(alloc, marks, outcomes)?)
}

fn joined_outcome(
    alloc: Global,
    target: &str,
    separator: &str,
    sources: &[Text],
    row: Row,
) -> Result<Outcome, AllocError>
    ensures { IfOk result (λ o. o ≡ joined_row target.now separator.now sources.now row) }
{
    let value = joined_values(alloc, separator, sources, &row.labels)?;
    let labels = labels_with(alloc, row.labels, target, value.as_str())?;
    Ok(labelled(alloc, labels, row.value))
}

/// The values of the sources with the separator between each two. The only error is want of memory.
pub fn joined_values(
    alloc: Global,
    separator: &str,
    sources: &[Text],
    labels: &Labels,
) -> Result<String, AllocError>
    ensures { IfOk result (λ text. string_bytes text ≡ separated separator.now (map (value_of labels.now) sources.now)) }
{
    let mut text = String::new(alloc);
    for (i, source) in sources.iter().enumerate() {
        text.push_str(gap(separator, i))?;
        text.push_str(labels.get(source.as_str()))?;
    }
    Ok(text)
}

/// What stands before a text: nothing before the first one.
fn gap(separator: &str, i: usize) -> &str
    ensures { result.now ≡ gap_at separator.now i }
{
    if i == 0 { "" } else { separator }
}
