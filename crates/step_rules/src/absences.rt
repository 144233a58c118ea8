//! What is absent.
ghost use Rattle.label_set.specs.Labels.{byte_cmp, is_named, metric_name};
ghost use Rattle.step_rules.specs.Absent.{pairs_on};
ghost use Rattle.promql_meaning.specs.Absences.{absence, absence_under, absent_labels, absent_value, equal_text as text_of_equality, is_equality, kinds_on};
ghost use Rattle.std.specs.Prelude.{◌≡◌, ◌∷◌, [], map, filter, length, Some, None, IfOk, MatchBool, option_map};
ghost use Rattle.step_table.specs.Operators.{all_put};
ghost use Rattle.step_table.specs.Unions.{set_of};

use label_set::{Items, Labels, METRIC_NAME, Rule, RuleKind, Text};
use promql_meaning::barren;
use std::alloc::{AllocError, Global};
use std::collections::BTreeSet;
use step_table::{Marks, Step, labelled, put_one, taken};
use xfrac::whole;

/// One row 1 where there are no rows, under the labels that the rules of a selector tell; without a selector there are no
/// rules. The only error is want of memory. (Prometheus querying, `absent()` and `absent_over_time()`.)
pub fn absence<T>(
    alloc: Global,
    rules: &[Rule],
    rows: &[T],
    marks: Marks,
) -> Result<Step, AllocError>
    ensures { IfOk result (λ step. step ≡ absence rules.now rows.now marks) }
{
    if !rows.is_empty() {
        return Ok(barren(alloc, marks));
    }
    let labels = absent_labels(alloc, rules)?;
    absence_under(alloc, labels, rows, marks)
}

/// One row 1 where there are no rows, under labels that are told; where those would pass the limits of labels there is none,
/// with the mark Overflow. The only error is want of memory.
pub fn absence_under<T>(
    alloc: Global,
    labels: Option<Labels>,
    rows: &[T],
    marks: Marks,
) -> Result<Step, AllocError>
    ensures { IfOk result (λ step. step ≡ absence_under labels rows.now marks) }
{
    if !rows.is_empty() {
        return Ok(barren(alloc, marks));
    }
    let mut outcomes = Items::new(alloc);
    outcomes.push(labelled(alloc, labels, whole(1)))?;
    taken(alloc, marks, outcomes)
}

/// The labels of what is absent; there are none where they would pass the limits. The only error is want of memory.
pub fn absent_labels(alloc: Global, rules: &[Rule]) -> Result<Option<Labels>, AllocError>
    ensures { IfOk result (λ labels. labels ≡ absent_labels rules.now) }
{
    let mut labels = Labels::empty(alloc);
    for label in labels_of(alloc, rules)? {
        let taken = put_absent(&mut labels, rules, label.as_str())?;
        if !taken {
            return Ok(None);
        }
    }
    Ok(Some(labels))
}

/// Puts the value that a label of what is absent has, if it has one, and answers whether the limits are kept.
#[tactic(auto, using(crate::proofs::Absent::metric_stays, crate::proofs::Absent::missing_stays, crate::proofs::Absent::value_put))]
fn put_absent(labels: &mut Labels, rules: &[Rule], label: &str) -> Result<bool, AllocError>
    ensures { IfOk result (λ taken. MatchBool taken (all_put labels.old (pairs_on rules.now label.now) ≡ Some labels.new) (all_put labels.old (pairs_on rules.now label.now) ≡ None)) }
{
    if is_metric(label) {
        return Ok(true);
    }
    match absent_value(rules, label) {
        Some(value) => put_one(labels, label, value),
        None => Ok(true),
    }
}

fn is_metric(label: &str) -> bool
    ensures { result ≡ is_named (metric_name ∷ []) label.now }
{
    METRIC_NAME == label
}

/// The labels that rules are on, each once.
fn labels_of(alloc: Global, rules: &[Rule]) -> Result<BTreeSet<Text>, AllocError>
    ensures { IfOk result (λ set. set.keys ≡ set_of byte_cmp (map (λ rule. rule.label) rules.now)) }
{
    let mut labels = BTreeSet::new(alloc);
    for rule in rules {
        labels.insert(rule.label.copy()?)?;
    }
    Ok(labels)
}

/// The value of a label on which exactly one `=` rule stands, with a value that isn't empty, and no other rule after it.
fn absent_value<'a>(rules: &'a [Rule], label: &str) -> Option<&'a str>
    ensures { option_map (λ text. text.now) result ≡ absent_value (kinds_on rules.now label.now) }
{
    let mut equalities: usize = 0;
    let mut last = None;
    for rule in rules {
        if rule.label.as_str() != label {
            continue;
        }
        equalities += equality_count(&rule.kind);
        last = equal_text(&rule.kind);
    }
    if equalities == 1 { last } else { None }
}

/// 1 for a `=` rule, and 0 for any other.
fn equality_count(kind: &RuleKind) -> usize
    ensures { result ≡ length (filter is_equality (kind.now ∷ [])) }
{
    match kind {
        RuleKind::Eq(_) => 1,
        RuleKind::Ne(_) | RuleKind::Re(_) | RuleKind::Nre(_) => 0,
    }
}

/// The text of a `=` rule, unless it is empty.
fn equal_text(kind: &RuleKind) -> Option<&str>
    ensures { option_map (λ text. text.now) result ≡ text_of_equality kind.now }
{
    match kind {
        RuleKind::Eq(text) => {
            let text = text.as_str();
            if text.is_empty() { None } else { Some(text) }
        }
        RuleKind::Ne(_) | RuleKind::Re(_) | RuleKind::Nre(_) => None,
    }
}
