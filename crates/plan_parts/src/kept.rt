//! Whether the patterns that a plan names are kept.
ghost use Rattle.op_labels.specs.Rules.{HasPatterns};
ghost use Rattle.std.specs.Prelude.{◌↔◌, IsTrue};
ghost use Rattle.step_kernels.specs.Unaries.{KeepsPatterns};

use label_set::Relabel;
use match_rule::Patterns;
use plan_bases::{are_rules_kept, is_kept_whole};
use step_kernels::UnaryRule;

fn is_relabel_kept(patterns: &Patterns<'_>, rule: &Relabel) -> bool
    ensures { IsTrue result ↔ HasPatterns patterns.now rule.now }
{
    match rule {
        Relabel::Replace { pattern, .. } => is_kept_whole(patterns, *pattern),
        Relabel::Join { .. } => true,
        Relabel::Filter(rules) => are_rules_kept(patterns, rules.as_slice()),
    }
}

/// Whether the patterns of what is made of one part are kept. It takes no memory.
pub fn is_unary_kept(patterns: &Patterns<'_>, rule: &UnaryRule) -> bool
    ensures { IsTrue result ↔ KeepsPatterns patterns.now rule.now }
{
    match rule {
        UnaryRule::Small(_) | UnaryRule::Apply(_) | UnaryRule::Group(_, _) => true,
        UnaryRule::Relabel(rule) => is_relabel_kept(patterns, rule),
    }
}
