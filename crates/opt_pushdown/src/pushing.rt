ghost use Rattle.logical_plan.specs.declared.nodes.PlanNode.TheVariants.{Filter as FilterNode};
ghost use Rattle.logical_plan.specs.declared.nodes.PlanNode.TheViews.{out-PlanNode};
ghost use Rattle.opt_pushdown.specs.Pushing.{push_filter, selector_with};
ghost use Rattle.plan_rewrite.specs.Rebuilding.{MeanTheSame, rebuilt};
ghost use Rattle.std.specs.Prelude.{◌≡◌, ◌++◌, unwrap_or, IfOk};

use holders::{Boxed, Items};
use label_set::Rule;
use logical_plan::{Plan, PlanNode};
use plan_rewrite::{Rewrite, rewritten};
use promql_meaning::laws::more_rules_filter;
use std::alloc::{AllocError, Global};

/// Filters go into the selectors that they stand over.
struct PushFilters;

impl Rewrite for PushFilters {
    ghost rule = { λ filters. push_filter };

    fn change(&self, _alloc: Global, _at: u32, node: PlanNode) -> Result<PlanNode, AllocError> {
        match node {
            PlanNode::Filter { base, rules } => pushed(base, rules),
            node => Ok(node),
        }
    }
}

/// The rules of a selector, and those of a filter over it.
fn all_rules(rules: &Items<Rule>, more: &Items<Rule>) -> Result<Items<Rule>, AllocError>
    ensures { IfOk result (λ all. all ≡ rules.now ++ more.now) }
{
    let mut all = rules.copy()?;
    all.extend_from_slice(more.as_slice())?;
    Ok(all)
}

fn pushed(base: Boxed<Plan>, more: Items<Rule>) -> Result<PlanNode, AllocError>
    ensures { IfOk result (λ n. n ≡ unwrap_or (selector_with more (out-PlanNode base.node)) (FilterNode base more)) }
{
    match &base.get().node {
        PlanNode::Select {
            rules,
            moment,
            stamped: false,
        } => Ok(PlanNode::Select {
            rules: all_rules(rules, &more)?,
            moment: *moment,
            stamped: false,
        }),
        PlanNode::Range {
            rules,
            moment,
            range,
        } => Ok(PlanNode::Range {
            rules: all_rules(rules, &more)?,
            moment: *moment,
            range: *range,
        }),
        _ => Ok(PlanNode::Filter { base, rules: more }),
    }
}

/// A plan in which a filter over a selector is one selector, which has the rules of both, so that nothing is read of series that the
/// filter leaves out. A filter over a selector whose own times a timestamp reads, or over another plan, stays. The plan means what
/// it meant, rows, notes and marks, on every list of samples and at every instant. The only error is want of memory. (Filters are
/// pushed down as in any query planner; where, is this project's own.)
pub fn push(alloc: Global, p: Plan) -> Result<Plan, AllocError>
    ensures plan { IfOk result (λ q. q ≡ rebuilt push_filter p) }
    ensures means { IfOk result (λ q. MeanTheSame q p) }
{
    more_rules_filter();
    let q = rewritten(alloc, &PushFilters, p)?;
    Ok(q)
}
