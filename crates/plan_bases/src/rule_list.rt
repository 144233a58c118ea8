//! Lists of rules as keys.
ghost use Rattle.plan_bases.specs.RuleEquality.{compared_text, kind_eq, rule_eq, rules_eq, rules_hash};
ghost use Rattle.std.specs.Prelude.{◌≡◌, fold, IfOk};

use holders::Items;
use label_set::{Rule, RuleKind};
use std::alloc::AllocError;
use std::hash::{Hash, Hasher};
use std::marker::Model;

/// A list of rules, which is equal to one with the same rules in the same order. Contracts see the rules.
#[derive(Drop)]
pub(crate) struct RuleList {
    rules: Items<Rule>,
}

impl Model for RuleList {
    ghost use Rattle.label_set.specs.declared.rules.Rule.{Rule};
    ghost use Rattle.std.specs.Prelude.{List};

    ghost Value = { List Rule };

    ghost view = { λ l. l.rules };
}

impl RuleList {
    /// It takes no memory.
    pub fn new(rules: Items<Rule>) -> RuleList
        ensures { result ≡ rules }
    {
        RuleList { rules }
    }

    /// A list of copies of rules. The only error is want of memory.
    pub fn of(rules: &Items<Rule>) -> Result<RuleList, AllocError>
        ensures { IfOk result (λ l. l ≡ rules.now) }
    {
        Ok(RuleList {
            rules: rules.copy()?,
        })
    }
}

fn same_kind(a: &RuleKind, b: &RuleKind) -> bool
    ensures { result ≡ kind_eq a.now b.now }
{
    match (a, b) {
        (RuleKind::Eq(a), RuleKind::Eq(b)) => a.as_str() == b.as_str(),
        (RuleKind::Ne(a), RuleKind::Ne(b)) => a.as_str() == b.as_str(),
        (RuleKind::Re(a), RuleKind::Re(b)) => a.0 == b.0,
        (RuleKind::Nre(a), RuleKind::Nre(b)) => a.0 == b.0,
        _ => false,
    }
}

fn same_rule(a: &Rule, b: &Rule) -> bool
    ensures { result ≡ rule_eq a.now b.now }
{
    a.label.as_str() == b.label.as_str() && same_kind(&a.kind, &b.kind)
}

fn same_rules(a: &[Rule], b: &[Rule]) -> bool
    ensures { result ≡ rules_eq a.now b.now }
{
    match (a, b) {
        ([], []) => true,
        ([x, xs @ ..], [y, ys @ ..]) => same_rule(x, y) && same_rules(xs, ys),
        _ => false,
    }
}

/// The text that a rule compares with; none where it has a pattern.
fn compared_text(kind: &RuleKind) -> &str
    ensures { result.now ≡ compared_text kind.now }
{
    match kind {
        RuleKind::Eq(text) | RuleKind::Ne(text) => text.as_str(),
        RuleKind::Re(_) | RuleKind::Nre(_) => "",
    }
}

/// Feeds a hasher the label and the text of each rule.
fn feed<H: Hasher>(rules: &[Rule], state: &mut H)
    ensures { state.new ≡ fold H.write state.old (rules_hash rules.now) }
{
    for rule in rules {
        rule.label.as_str().hash(state);
        compared_text(&rule.kind).hash(state);
    }
}

impl PartialEq for RuleList {
    ghost use Rattle.plan_bases.specs.RuleEquality.{rules_eq, rules_equivalence};
    ghost use Rattle.std.specs.Cmp.{partial_equiv_from_equiv};

    ghost eq = { rules_eq };

    ghost laws = { partial_equiv_from_equiv rules_equivalence };

    fn eq(&self, other: &RuleList) -> bool {
        same_rules(self.rules.as_slice(), other.rules.as_slice())
    }
}

impl Eq for RuleList {
    ghost use Rattle.plan_bases.specs.RuleEquality.{rules_equivalence};

    ghost laws = { rules_equivalence };
}

impl Hash for RuleList {
    ghost use Rattle.plan_bases.specs.RuleEquality.{rules_alike, rules_hash};

    ghost hash_input = { rules_hash };

    ghost respects_eq = { rules_alike };

    fn hash<H: Hasher>(&self, state: &mut H) {
        feed(self.rules.as_slice(), state);
    }
}
