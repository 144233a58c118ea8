//! The instant selectors of plans.
ghost use Rattle.frac_text.specs.Times.{time_limit};
ghost use Rattle.logical_plan.specs.Validity.{measured};
ghost use Rattle.match_rule.specs.Patterns.{HaveTheirPatterns};
ghost use Rattle.op_labels.specs.Rules.{Kept};
ghost use Rattle.plan_bases.specs.Leaves.{IsLeafOf};
ghost use Rattle.plan_parts.specs.Parts.{IsReadable, IsSelectorOf};
ghost use Rattle.plan_serving.specs.Serving.{serving_over};
ghost use Rattle.promql_ast.specs.Parts.{AreWithin};
ghost use Rattle.promql_meaning.specs.Selecting.{Asked};
ghost use Rattle.std.specs.Prelude.{◌≡◌, ◌<◌, ◌++◌, false, IfOk, IfSome, ⊤};
ghost use Rattle.ticks.specs.Durations.{hundred_years};

use holders::Items;
use label_set::Rule;
use logical_plan::{Plan, PlanNode};
use plan_work::laws::range_selectors_cost;
use promql_ast::Moment;
use promql_meaning::laws::more_rules_filter;
use std::alloc::AllocError;

/// An instant selector: the rules that its series pass, and its moment.
#[derive(Drop)]
pub struct InstantSelector {
    pub rules: Items<Rule>,
    pub moment: Moment,
}

impl InstantSelector {
    /// This selector, of the series alone that pass more rules too. The only error is want of memory.
    fn filtered(self, more: &Items<Rule>) -> Result<InstantSelector, AllocError>
        ensures rules { IfOk result (λ s. s.rules ≡ self.rules ++ more.now) }
        ensures moment { IfOk result (λ s. s.moment ≡ self.moment) }
    {
        let mut rules = self.rules;
        rules.extend_from_slice(more.as_slice())?;
        Ok(InstantSelector {
            rules,
            moment: self.moment,
        })
    }
}

/// The selector whose rows a plan gives: a selector's own, or that of one under filters, whose rules it has too. Other plans have none,
/// nor has a selector whose own times a timestamp reads. The only error is want of memory.
pub fn instant_selector(p: &Plan) -> Result<Option<InstantSelector>, AllocError>
    ensures selector { IfOk result (λ o. IfSome o (λ s. (asked : Asked) → IsSelectorOf asked p.now s.rules s.moment false)) }
    ensures leaf { IfOk result (λ o. IfSome o (λ s. IsLeafOf p.now s.rules)) }
    ensures deep { IfOk result (λ o. IfSome o (λ s. 0 < (measured p.now).depth)) }
    ensures total { (kept : Kept) → HaveTheirPatterns kept (serving_over p.now).rules → AreWithin (λ rules. ⊤) hundred_years time_limit (measured p.now).parts → IfOk result (λ o. IfSome o (λ s. IsReadable kept s.rules s.moment)) }
{
    more_rules_filter();
    range_selectors_cost();
    match &p.node {
        PlanNode::Select {
            rules,
            moment,
            stamped: false,
        } => Ok(Some(InstantSelector {
            rules: rules.copy()?,
            moment: *moment,
        })),
        PlanNode::Filter { base, rules } => match instant_selector(base.get())? {
            Some(below) => Ok(Some(below.filtered(rules)?)),
            None => Ok(None),
        },
        _ => Ok(None),
    }
}
