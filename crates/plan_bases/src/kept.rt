//! Whether patterns that rules name are kept.
ghost use Rattle.match_rule.specs.Patterns.{HasItsPattern, HaveTheirPatterns, IsWholeId};
ghost use Rattle.std.specs.Prelude.{◌↔◌, IsTrue};

use label_set::{PatternId, Rule, RuleKind};
use match_rule::Patterns;

/// Whether a pattern is kept, for whole values. It takes no memory.
pub fn is_kept_whole(patterns: &Patterns<'_>, id: PatternId) -> bool
    ensures { IsTrue result ↔ IsWholeId patterns.now id.0 }
{
    if id.0 as usize >= patterns.len() {
        return false;
    }
    patterns.is_whole(id)
}

fn is_rule_kept(patterns: &Patterns<'_>, rule: &Rule) -> bool
    ensures { IsTrue result ↔ HasItsPattern patterns.now rule.now.kind }
{
    match rule.kind {
        RuleKind::Eq(_) | RuleKind::Ne(_) => true,
        RuleKind::Re(id) | RuleKind::Nre(id) => is_kept_whole(patterns, id),
    }
}

/// Whether the patterns of rules are kept, for whole values. It takes no memory.
pub fn are_rules_kept(patterns: &Patterns<'_>, rules: &[Rule]) -> bool
    ensures { IsTrue result ↔ HaveTheirPatterns patterns.now rules.now }
{
    match rules {
        [] => true,
        [rule, rest @ ..] => is_rule_kept(patterns, rule) && are_rules_kept(patterns, rest),
    }
}
