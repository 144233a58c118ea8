ghost use Rattle.op_labels.specs.Rules.{HasPatterns, change_of as change_of_rule, made_of as made_by, relabel_of, remade as remade_labels};
ghost use Rattle.promql_meaning.specs.Relabels.{joined_labels};
ghost use Rattle.std.specs.Prelude.{◌≡◌, ◌<◌, Some, length, slice_get, IfOk};

use label_set::{Items, Labels, Relabel, Rule, Text};
use match_rule::{Patterns, labels_pass};
use promql_meaning::labels_with;
use std::alloc::{AllocError, Global};
use step_rules::{Replacing, joined_values, replaced_labels};

/// A change of labels, as the rules of steps take it.
#[derive(Drop)]
pub(crate) enum Change {
    Replace(Replacing),
    Join {
        target: Text,
        separator: Text,
        sources: Items<Text>,
    },
    Filter(Items<Rule>),
}

/// What becomes of the rows of labels.
#[derive(Clone, Copy, Debug)]
pub(crate) enum Fate {
    /// They stand under the new labels.
    Stays,
    /// The new labels would pass the limits of labels.
    Beyond,
    /// The labels don't pass a rule.
    Out,
}

pub(crate) fn fate_at(fates: &[Fate], place: usize) -> Fate
    requires { place < length fates.now }
    ensures { slice_get fates.now place ≡ Some result }
{
    fates[place]
}

pub(crate) fn change_of(rule: Relabel) -> Change
    ensures change { result ≡ change_of_rule rule }
    ensures relabel { relabel_of result ≡ rule }
{
    match rule {
        Relabel::Replace {
            target,
            template,
            source,
            pattern,
        } => Change::Replace(Replacing {
            target,
            template,
            source,
            pattern,
        }),
        Relabel::Join {
            target,
            separator,
            sources,
        } => Change::Join {
            target,
            separator,
            sources,
        },
        Relabel::Filter(rules) => Change::Filter(rules),
    }
}

/// What a change makes of labels, and what becomes of their rows. The only error is want of memory.
pub(crate) fn made_of(
    alloc: Global,
    change: &Change,
    patterns: &mut Patterns<'_>,
    labels: &Labels,
) -> Result<(Labels, Fate), AllocError>
    requires { HasPatterns patterns.old (relabel_of change.now) }
    ensures made { IfOk result (λ made. made ≡ made_by patterns.old (relabel_of change.now) labels.now) }
    ensures same { patterns.new ≡ patterns.old }
{
    match change {
        Change::Replace(replacing) => replaced(alloc, replacing, patterns, labels),
        Change::Join {
            target,
            separator,
            sources,
        } => joined(alloc, target, separator, sources, labels),
        Change::Filter(rules) => passed(alloc, rules, patterns, labels),
    }
}

fn replaced(
    alloc: Global,
    replacing: &Replacing,
    patterns: &mut Patterns<'_>,
    labels: &Labels,
) -> Result<(Labels, Fate), AllocError>
    requires { HasPatterns patterns.old (relabel_of (Change.Replace replacing.now)) }
    ensures made { IfOk result (λ made. made ≡ made_by patterns.old (relabel_of (Change.Replace replacing.now)) labels.now) }
    ensures same { patterns.new ≡ patterns.old }
{
    let labels = replaced_labels(alloc, replacing, labels.copy()?, patterns)?;
    Ok(remade(alloc, labels))
}

fn joined(
    alloc: Global,
    target: &Text,
    separator: &Text,
    sources: &Items<Text>,
    labels: &Labels,
) -> Result<(Labels, Fate), AllocError>
    ensures { IfOk result (λ made. made ≡ remade_labels (joined_labels target.now separator.now sources.now labels.now)) }
{
    let value = joined_values(alloc, separator.as_str(), sources.as_slice(), labels)?;
    let labels = labels_with(alloc, labels.copy()?, target.as_str(), value.as_str())?;
    Ok(remade(alloc, labels))
}

fn passed(
    alloc: Global,
    rules: &Items<Rule>,
    patterns: &mut Patterns<'_>,
    labels: &Labels,
) -> Result<(Labels, Fate), AllocError>
    requires { HasPatterns patterns.old (Relabel.Filter rules.now) }
    ensures made { IfOk result (λ made. made ≡ made_by patterns.old (Relabel.Filter rules.now) labels.now) }
    ensures same { patterns.new ≡ patterns.old }
{
    if !labels_pass(rules.as_slice(), patterns, labels)? {
        return Ok((Labels::empty(alloc), Fate::Out));
    }
    Ok((labels.copy()?, Fate::Stays))
}

fn remade(alloc: Global, labels: Option<Labels>) -> (Labels, Fate)
    ensures { result ≡ remade_labels labels }
{
    match labels {
        Some(labels) => (labels, Fate::Stays),
        None => (Labels::empty(alloc), Fate::Beyond),
    }
}
