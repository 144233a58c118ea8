//! Rules in their order.
ghost use Rattle.opt_matchers.specs.Keys.{IsKeyed, keyed_below, keyed_order, keyed_text};
ghost use Rattle.opt_matchers.specs.RuleOrder.{kind_rank, ordered_rules, pattern_of as pattern_of_kind};
ghost use Rattle.logical_plan.specs.PlanRules.{pattern_text};
ghost use Rattle.std.specs.Prelude.{◌≡◌, [], All, fold, map, IfOk};
ghost use Rattle.window_fn.specs.Aggregates.{inserted};

use holders::Items;
use label_set::{PatternId, Rule, RuleKind};
use match_rule::Patterns;
use std::alloc::{AllocError, Global};
use std::cmp::Ordering;

/// A rule beside the text of its pattern, which is empty where it has none.
#[derive(Drop)]
pub(crate) struct Keyed<'p> {
    pub rule: Rule,
    pub pattern: &'p str,
}

/// The place of a kind among kinds.
fn rank(kind: &RuleKind) -> u8
    ensures { result ≡ kind_rank kind.now }
{
    match kind {
        RuleKind::Eq(_) => 0,
        RuleKind::Ne(_) => 1,
        RuleKind::Re(_) => 2,
        RuleKind::Nre(_) => 3,
    }
}

/// The text that a rule compares values with, or that of its pattern.
fn text<'k>(keyed: &'k Keyed<'_>) -> &'k str
    ensures { result.now ≡ keyed_text keyed.now }
{
    match &keyed.rule.kind {
        RuleKind::Eq(text) => text.as_str(),
        RuleKind::Ne(text) => text.as_str(),
        RuleKind::Re(_) => keyed.pattern,
        RuleKind::Nre(_) => keyed.pattern,
    }
}

fn order(a: &Keyed<'_>, b: &Keyed<'_>) -> Ordering
    ensures { result ≡ keyed_order a.now b.now }
{
    let labels = a.rule.label.as_str().cmp(b.rule.label.as_str());
    let kinds = rank(&a.rule.kind).cmp(&rank(&b.rule.kind));
    labels.then(kinds.then(text(a).cmp(text(b))))
}

/// The text under a number; of a pattern that isn't kept, the empty text.
#[tactic(auto, using(crate::proofs::Ordered::text_is))]
fn text_under<'p>(patterns: &'p Patterns<'_>, id: PatternId) -> &'p str
    ensures { result.now ≡ pattern_text patterns.now id }
{
    if id.0 as usize >= patterns.len() {
        return "";
    }
    patterns.text(id)
}

fn pattern_of<'p>(patterns: &'p Patterns<'_>, kind: &RuleKind) -> &'p str
    ensures { result.now ≡ pattern_of_kind patterns.now kind.now }
{
    match kind {
        RuleKind::Eq(_) => "",
        RuleKind::Ne(_) => "",
        RuleKind::Re(id) => text_under(patterns, *id),
        RuleKind::Nre(id) => text_under(patterns, *id),
    }
}

fn with_patterns<'p>(
    alloc: Global,
    patterns: &'p Patterns<'_>,
    rules: Items<Rule>,
) -> Result<Vec<Keyed<'p>>, AllocError>
    ensures rules { IfOk result (λ all. map (λ k. k.rule) all.items ≡ rules) }
    ensures keyed { IfOk result (λ all. All (IsKeyed patterns.now) all.items) }
{
    let mut all = Vec::new(alloc);
    for rule in rules.into_vec() {
        let pattern = pattern_of(patterns, &rule.kind);
        all.push(Keyed { rule, pattern })?;
    }
    Ok(all)
}

fn sorted(keyed: Vec<Keyed<'_>>) -> Result<Vec<Keyed<'_>>, AllocError>
    ensures { IfOk result (λ sorted. sorted.items ≡ fold (inserted keyed_below) [] keyed.entry.items) }
{
    let mut sorted = keyed;
    sorted.sort_by(|a, b| order(a, b))?;
    Ok(sorted)
}

fn rules_of(alloc: Global, keyed: Vec<Keyed<'_>>) -> Result<Items<Rule>, AllocError>
    ensures { IfOk result (λ rules. rules ≡ map (λ k. k.rule) keyed.entry.items) }
{
    let mut rules = Items::new(alloc);
    for one in keyed {
        rules.push(one.rule)?;
    }
    Ok(rules)
}

/// Rules in the order of their labels; those of one label by kind and by text.
pub(crate) fn ordered(
    alloc: Global,
    patterns: &Patterns<'_>,
    rules: Items<Rule>,
) -> Result<Items<Rule>, AllocError>
    ensures { IfOk result (λ ordered. ordered ≡ ordered_rules patterns.now rules) }
{
    let keyed = with_patterns(alloc, patterns, rules)?;
    let sorted = sorted(keyed)?;
    rules_of(alloc, sorted)
}
