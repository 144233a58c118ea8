//! The range selectors of plans.
ghost use Rattle.op_labels.specs.Rules.{Kept};
ghost use Rattle.plan_bases.specs.Leaves.{IsLeafOf};
ghost use Rattle.promql_meaning.specs.Selecting.{Asked};
ghost use Rattle.std.specs.Prelude.{◌≡◌, ◌++◌, IfOk, IfSome, IsSomeAnd};
ghost use Rattle.window_parts.specs.Engines.{IsGathered};
ghost use Rattle.window_parts.specs.Over.{IsRangeOf, IsRangePlan, IsSelectorWithin};

use holders::Items;
use label_set::Rule;
use logical_plan::{Plan, PlanNode};
use plan_work::laws::range_selectors_cost;
use promql_ast::Moment;
use promql_meaning::laws::more_rules_filter;
use std::alloc::AllocError;
use ticks::Ms;

/// A range selector: the rules that its series pass, its moment, and its range in milliseconds.
#[derive(Drop)]
pub(crate) struct RangeSelector {
    pub rules: Items<Rule>,
    pub moment: Moment,
    pub range: Ms,
}

impl RangeSelector {
    /// This range selector, of the series alone that pass more rules too. The only error is want of memory.
    fn filtered(self, more: &Items<Rule>) -> Result<RangeSelector, AllocError>
        ensures rules { IfOk result (λ s. s.rules ≡ self.rules ++ more.now) }
        ensures moment { IfOk result (λ s. s.moment ≡ self.moment) }
        ensures range { IfOk result (λ s. s.range ≡ self.range) }
    {
        let mut rules = self.rules;
        rules.extend_from_slice(more.as_slice())?;
        Ok(RangeSelector {
            rules,
            moment: self.moment,
            range: self.range,
        })
    }
}

/// The range selector whose windows a plan gives: that of a range, or of one under filters, whose rules it has too. Other plans have
/// none. The only error is want of memory.
pub(crate) fn range_selector(p: &Plan) -> Result<Option<RangeSelector>, AllocError>
    ensures range { IfOk result (λ o. IfSome o (λ s. (asked : Asked) → IsRangeOf asked p.now s)) }
    ensures leaf { IfOk result (λ o. IfSome o (λ s. IsLeafOf p.now s.rules)) }
    ensures total { (kept : Kept) → IsRangePlan kept p.now → (IsGathered p.now → ⊥) → IfOk result (λ o. IsSomeAnd o (IsSelectorWithin kept)) }
{
    more_rules_filter();
    range_selectors_cost();
    match &p.node {
        PlanNode::Range {
            rules,
            moment,
            range,
        } => Ok(Some(RangeSelector {
            rules: rules.copy()?,
            moment: *moment,
            range: *range,
        })),
        PlanNode::Filter { base, rules } => match range_selector(base.get())? {
            Some(selector) => Ok(Some(selector.filtered(rules)?)),
            None => Ok(None),
        },
        _ => Ok(None),
    }
}
