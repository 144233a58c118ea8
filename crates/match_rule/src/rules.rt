ghost use Rattle.match_rule.specs.Patterns.{HasItsPattern, HaveTheirPatterns, kind_passes, labels_pass};
ghost use Rattle.std.specs.Prelude.{◌≡◌, IfOk, IsOk};

use crate::patterns::Patterns;
use label_set::{Labels, Rule, RuleKind};
use std::alloc::AllocError;

/// Whether a label's value passes a rule; for a label that is missing the value is the empty text. The patterns of the
/// rule must be of `Patterns::whole`, from these patterns. It answers no error.
#[inline(always)]
pub fn passes(rule: &Rule, patterns: &mut Patterns, value: &str) -> Result<bool, AllocError>
    requires { HasItsPattern patterns.old rule.now.kind }
    ensures answer { IfOk result (λ b. b ≡ kind_passes patterns.old rule.now.kind value.now) }
    ensures always { IsOk result }
    ensures same { patterns.new ≡ patterns.old }
{
    match &rule.kind {
        RuleKind::Eq(text) => Ok(value == text.as_str()),
        RuleKind::Ne(text) => Ok(value != text.as_str()),
        RuleKind::Re(id) => patterns.matches(*id, value),
        RuleKind::Nre(id) => Ok(!patterns.matches(*id, value)?),
    }
}

/// Whether labels pass each of some rules; a missing label is the empty text. The patterns of the rules must be of
/// `Patterns::whole`, from these patterns. It answers no error.
#[inline]
pub fn labels_pass(
    rules: &[Rule],
    patterns: &mut Patterns,
    labels: &Labels,
) -> Result<bool, AllocError>
    requires { HaveTheirPatterns patterns.old rules.now }
    ensures answer { IfOk result (λ b. b ≡ labels_pass patterns.old rules.now labels.now) }
    ensures always { IsOk result }
    ensures same { patterns.new ≡ patterns.old }
{
    for rule in rules {
        if !passes(rule, patterns, labels.get(rule.label.as_str()))? {
            return Ok(false);
        }
    }
    Ok(true)
}
