ghost use Rattle.logical_plan.specs.Lowering.{planned as planned_at};
ghost use Rattle.logical_plan.specs.declared.nodes.PlanNode.TheVariants.{Group as GroupNode, Ratio as RatioNode};
ghost use Rattle.func_table.specs.declared.table.Aggregate.TheVariants.{Sum as SumOf, Count as CountOf};
ghost use Rattle.opt_split_avg.specs.Averages.{split_average};
ghost use Rattle.plan_rewrite.specs.Rebuilding.{MeanTheSame, rebuilt};
ghost use Rattle.std.specs.Prelude.{◌≡◌, IfOk};

use crate::nesting::{MOST_NESTED, all_nested};
use func_table::Aggregate;
use holders::{Boxed, Items, Text};
use label_set::Grouping;
use logical_plan::{Plan, PlanNode};
use plan_rewrite::{Rewrite, rewritten};
use std::alloc::{AllocError, Global};

/// Averages become sums divided by counts.
struct SplitAverages;

impl Rewrite for SplitAverages {
    ghost rule = { λ averages. split_average };

    fn change(&self, alloc: Global, at: u32, node: PlanNode) -> Result<PlanNode, AllocError> {
        match node {
            PlanNode::Group(Aggregate::Avg, by, arguments, label) => {
                if all_nested(arguments.as_slice()) < MOST_NESTED {
                    return ratio(alloc, at, by, arguments, label);
                }
                Ok(PlanNode::Group(Aggregate::Avg, by, arguments, label))
            }
            node => Ok(node),
        }
    }
}

fn all_copied(alloc: Global, plans: &Items<Plan>) -> Result<Items<Plan>, AllocError>
    ensures { IfOk result (λ copies. copies ≡ plans.now) }
{
    let mut copies = Items::new(alloc);
    for p in plans.as_slice() {
        copies.push(p.copy()?)?;
    }
    Ok(copies)
}

/// A sum divided by a count, of one grouping and of equal arguments.
fn ratio(
    alloc: Global,
    at: u32,
    by: Grouping,
    arguments: Items<Plan>,
    label: Text,
) -> Result<PlanNode, AllocError>
    ensures { IfOk result (λ n. n ≡ RatioNode (planned_at at (GroupNode SumOf by arguments label)) (planned_at at (GroupNode CountOf by arguments label))) }
{
    let others = all_copied(alloc, &arguments)?;
    let count = PlanNode::Group(Aggregate::Count, by.copy()?, others, label.copy()?);
    let sum = PlanNode::Group(Aggregate::Sum, by, arguments, label);
    Ok(PlanNode::Ratio {
        sum: Boxed::new(alloc, Plan { at, node: sum })?,
        count: Boxed::new(alloc, Plan { at, node: count })?,
    })
}

/// A plan in which each average is a sum divided by a count of the same grouping, both at its place. What is split stands twice
/// in it; so of averages that stand in each other four are split, from the innermost one on, and those above them stay, and no
/// part stands more than 16 times. It means what the plan meant, rows, notes and marks, on every list of samples and at every
/// instant. The only error is want of memory. (thanos-io/promql-engine, the optimiser of averages; the end to it is this
/// project's own.)
pub fn apply(alloc: Global, p: Plan) -> Result<Plan, AllocError>
    ensures plan { IfOk result (λ q. q ≡ rebuilt split_average p) }
    ensures means { IfOk result (λ q. MeanTheSame q p) }
{
    let q = rewritten(alloc, &SplitAverages, p)?;
    Ok(q)
}
