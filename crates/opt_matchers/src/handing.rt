//! Rules that the sides of an operator hand each other.
ghost use Rattle.opt_matchers.specs.Handing.{handed as handed_by, is_none_named, is_on_metric, is_one_to_one, is_plain, names_it, names_metric, operand as operand_of_plan, selecting, with_rules_of};
ghost use Rattle.opt_matchers.specs.Sides.{operand_of};
ghost use Rattle.std.specs.Prelude.{◌≡◌, option_map, IfOk};

use holders::{Items, Text};
use label_set::{Card, METRIC_NAME, Pairing, Rule, RuleKind};
use logical_plan::{Plan, PlanNode};
use plan_rewrite::has_rule;
use promql_ast::Moment;
use std::alloc::AllocError;

/// An instant selector that is a side of an operator, no stamped one.
#[derive(Clone, Copy)]
pub(crate) struct Side<'p> {
    pub at: u32,
    pub rules: &'p Items<Rule>,
    pub moment: Moment,
}

fn is_on_metric(rule: &Rule) -> bool
    ensures { result ≡ is_on_metric rule.now }
{
    rule.label.as_str() == METRIC_NAME
}

/// Whether a kind is an `=` with a text that isn't empty.
fn names_it(kind: &RuleKind) -> bool
    ensures { result ≡ names_it kind.now }
{
    match kind {
        RuleKind::Eq(text) => !text.as_str().is_empty(),
        _ => false,
    }
}

/// Whether exactly one rule is on the metric's name, and names it.
fn names_metric(rules: &[Rule]) -> bool
    ensures { result ≡ names_metric rules.now }
{
    let mut named = None;
    for rule in rules {
        if !is_on_metric(rule) {
            continue;
        }
        if named.is_some() {
            return false;
        }
        named = Some(names_it(&rule.kind));
    }
    named == Some(true)
}

/// Rules with those of others on other labels that they lack.
fn with_rules_of(rules: &Items<Rule>, others: &Items<Rule>) -> Result<Items<Rule>, AllocError>
    ensures { IfOk result (λ all. all ≡ with_rules_of rules.now others.now) }
{
    let mut all = rules.copy()?;
    for rule in others.as_slice() {
        if is_on_metric(rule) || has_rule(all.as_slice(), rule) {
            continue;
        }
        all.push(rule.copy()?)?;
    }
    Ok(all)
}

fn is_none_named(names: &[Text]) -> bool
    ensures { result ≡ is_none_named names.now }
{
    names.is_empty()
}

fn is_one_to_one(card: Card) -> bool
    ensures { result ≡ is_one_to_one card }
{
    match card {
        Card::OneToOne => true,
        Card::GroupLeft => false,
        Card::GroupRight => false,
    }
}

/// Whether a matching is one to one, without `on` and `ignoring`.
fn is_plain(pairing: &Pairing) -> bool
    ensures { result ≡ is_plain pairing.now }
{
    !pairing.on && is_none_named(pairing.names.as_slice()) && is_one_to_one(pairing.card)
}

fn side_of(p: &Plan) -> Option<Side<'_>>
    ensures { option_map operand_of result ≡ operand_of_plan p.now }
{
    match &p.node {
        PlanNode::Select {
            rules,
            moment,
            stamped: false,
        } => Some(Side {
            at: p.at,
            rules,
            moment: *moment,
        }),
        _ => None,
    }
}

/// A side with the rules of the other.
fn with_other(side: &Side<'_>, other: &Side<'_>) -> Result<Plan, AllocError>
    ensures { IfOk result (λ p. p ≡ selecting (operand_of side.now) (with_rules_of side.now.rules.now other.now.rules.now)) }
{
    let node = PlanNode::Select {
        rules: with_rules_of(side.rules, other.rules)?,
        moment: side.moment,
        stamped: false,
    };
    Ok(Plan { at: side.at, node })
}

/// The sides of an arithmetic operator with the rules of each other, where they hand them.
pub(crate) fn handed(
    left: &Plan,
    right: &Plan,
    pairing: &Pairing,
) -> Result<Option<(Plan, Plan)>, AllocError>
    ensures { IfOk result (λ sides. sides ≡ handed_by pairing.now left.now right.now) }
{
    if !is_plain(pairing) {
        return Ok(None);
    }
    let Some(a) = side_of(left) else {
        return Ok(None);
    };
    let Some(b) = side_of(right) else {
        return Ok(None);
    };
    if !names_metric(a.rules.as_slice()) || !names_metric(b.rules.as_slice()) {
        return Ok(None);
    }
    Ok(Some((with_other(&a, &b)?, with_other(&b, &a)?)))
}
