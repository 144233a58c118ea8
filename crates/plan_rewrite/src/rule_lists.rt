//! Lists of rules as sets.
ghost use Rattle.plan_rewrite.specs.RuleLists.{has_rule, is_part, same_kind, same_rule};
ghost use Rattle.std.specs.Prelude.{◌≡◌};

use label_set::{Rule, RuleKind};

fn same_kind(a: &RuleKind, b: &RuleKind) -> bool
    ensures { result ≡ same_kind a.now b.now }
{
    match (a, b) {
        (RuleKind::Eq(a), RuleKind::Eq(b)) => a.as_str() == b.as_str(),
        (RuleKind::Ne(a), RuleKind::Ne(b)) => a.as_str() == b.as_str(),
        (RuleKind::Re(a), RuleKind::Re(b)) => a.0 == b.0,
        (RuleKind::Nre(a), RuleKind::Nre(b)) => a.0 == b.0,
        _ => false,
    }
}

fn same_rule(a: &Rule, b: &Rule) -> bool
    ensures { result ≡ same_rule a.now b.now }
{
    a.label.as_str() == b.label.as_str() && same_kind(&a.kind, &b.kind)
}

/// Whether a rule is among rules.
pub fn has_rule(rules: &[Rule], rule: &Rule) -> bool
    ensures { result ≡ has_rule rules.now rule.now }
{
    for one in rules {
        if same_rule(rule, one) {
            return true;
        }
    }
    false
}

/// Whether each rule of the first list is among those of the second.
pub fn is_part(a: &[Rule], b: &[Rule]) -> bool
    ensures { result ≡ is_part a.now b.now }
{
    for rule in a {
        if !has_rule(b, rule) {
            return false;
        }
    }
    true
}
