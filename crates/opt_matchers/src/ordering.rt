ghost use Rattle.opt_matchers.specs.RuleOrder.{order_rules};
ghost use Rattle.plan_rewrite.specs.Rebuilding.{MeanTheSame, rebuilt};
ghost use Rattle.std.specs.Prelude.{◌≡◌, IfOk};

use crate::keys::ordered;
use logical_plan::{Plan, PlanNode};
use match_rule::Patterns;
use plan_rewrite::{Rewrite, rewritten};
use std::alloc::{AllocError, Global};

/// The rules of each selector in their order.
#[derive(Clone, Copy)]
struct OrderRules<'p, 'r> {
    patterns: &'p Patterns<'r>,
}

impl<'p, 'r> Rewrite for OrderRules<'p, 'r> {
    ghost rule = { λ s. order_rules s.patterns.now };

    fn change(&self, alloc: Global, at: u32, node: PlanNode) -> Result<PlanNode, AllocError> {
        match node {
            PlanNode::Select {
                rules,
                moment,
                stamped,
            } => {
                let rules = ordered(alloc, self.patterns, rules)?;
                Ok(PlanNode::Select {
                    rules,
                    moment,
                    stamped,
                })
            }
            PlanNode::Range {
                rules,
                moment,
                range,
            } => {
                let rules = ordered(alloc, self.patterns, rules)?;
                Ok(PlanNode::Range {
                    rules,
                    moment,
                    range,
                })
            }
            node => Ok(node),
        }
    }
}

/// A plan in which the rules of each selector are ordered by label, in byte order; those of one label by kind, `=` before `!=`,
/// `=~` and `!~`, and then by text, where a pattern that isn't kept has the empty text. It means what the plan meant, rows,
/// notes and marks, on every list of samples and at every instant. The only error is want of memory.
/// (thanos-io/promql-engine, the optimiser that sorts matchers; the order of one label's rules is this project's own.)
pub fn sort(alloc: Global, p: Plan, patterns: &Patterns<'_>) -> Result<Plan, AllocError>
    ensures plan { IfOk result (λ q. q ≡ rebuilt (order_rules patterns.now) p) }
    ensures means { IfOk result (λ q. MeanTheSame q p) }
{
    let q = rewritten(alloc, &OrderRules { patterns }, p)?;
    Ok(q)
}
