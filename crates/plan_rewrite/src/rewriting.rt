//! A plan, rewritten node by node.
ghost use Rattle.logical_plan.specs.Lowering.{planned};
ghost use Rattle.logical_plan.specs.PlanMeaning.{plan_meaning};
ghost use Rattle.logical_plan.specs.declared.nodes.PlanNode.TheViews.{out-PlanNode};
ghost use Rattle.plan_rewrite.specs.Rebuilding.{Change, KeepsMeaning, rebuilt};
ghost use Rattle.promql_meaning.specs.Selecting.{Asked};
ghost use Rattle.std.specs.Prelude.{◌≡◌, ℤ, map, IfOk};

use holders::{Boxed, Items};
use logical_plan::{Plan, PlanNode};
use std::alloc::{AllocError, Global};

/// A rule of rewriting, which says what becomes of one node. (This project's own.)
pub trait Rewrite {
    /// What becomes of a node at a place whose children are rewritten already.
    ghost rule: { Self → Change };

    /// The node that a node at a place becomes. The only error is want of memory.
    fn change(&self, alloc: Global, at: u32, node: PlanNode) -> Result<PlanNode, AllocError>
        ensures { IfOk result (λ n. n ≡ rule self.now at (out-PlanNode node)) };
}

/// A node at a place, by a rule.
fn changed<R: Rewrite>(
    alloc: Global,
    rewrite: &R,
    at: u32,
    node: PlanNode,
) -> Result<Plan, AllocError>
    ensures { IfOk result (λ p. p ≡ planned at (R.rule rewrite.now at (out-PlanNode node))) }
{
    let node = rewrite.change(alloc, at, node)?;
    Ok(Plan { at, node })
}

/// A plan whose nodes are changed by a rule, from the leaves up. Where the rule changes no node's meaning the plan means what it
/// meant, rows, notes and marks, on every list of samples and at every instant. The only error is want of memory.
pub fn rewritten<R: Rewrite>(alloc: Global, rewrite: &R, p: Plan) -> Result<Plan, AllocError>
    ensures plan { IfOk result (λ q. q ≡ rebuilt (R.rule rewrite.now) p) }
    ensures means { IfOk result (λ q. (asked : Asked) (t : ℤ) → KeepsMeaning asked (R.rule rewrite.now) → plan_meaning asked q t ≡ plan_meaning asked p t) }
{
    let q = rebuild(alloc, rewrite, p)?;
    Ok(q)
}

#[cycle(rebuilding)]
fn rebuild<R: Rewrite>(alloc: Global, rewrite: &R, p: Plan) -> Result<Plan, AllocError>
    ensures { IfOk result (λ q. q ≡ rebuilt (R.rule rewrite.now) p) }
{
    let Plan { at, node } = p;
    match node {
        PlanNode::Number(value) => changed(alloc, rewrite, at, PlanNode::Number(value)),
        PlanNode::Time => changed(alloc, rewrite, at, PlanNode::Time),
        PlanNode::Select {
            rules,
            moment,
            stamped,
        } => {
            let node = PlanNode::Select {
                rules,
                moment,
                stamped,
            };
            changed(alloc, rewrite, at, node)
        }
        PlanNode::Range {
            rules,
            moment,
            range,
        } => {
            let node = PlanNode::Range {
                rules,
                moment,
                range,
            };
            changed(alloc, rewrite, at, node)
        }
        PlanNode::Subquery {
            inner,
            range,
            step,
            moment,
        } => {
            let inner = rebuild_boxed(alloc, rewrite, inner)?;
            let node = PlanNode::Subquery {
                inner,
                range,
                step,
                moment,
            };
            changed(alloc, rewrite, at, node)
        }
        PlanNode::Element(f, inner, arguments) => {
            let inner = rebuild_boxed(alloc, rewrite, inner)?;
            let arguments = rebuild_all(alloc, rewrite, arguments)?;
            changed(alloc, rewrite, at, PlanNode::Element(f, inner, arguments))
        }
        PlanNode::Stamp(inner) => {
            let inner = rebuild_boxed(alloc, rewrite, inner)?;
            changed(alloc, rewrite, at, PlanNode::Stamp(inner))
        }
        PlanNode::Window(f, inner, arguments) => {
            let inner = rebuild_boxed(alloc, rewrite, inner)?;
            let arguments = rebuild_all(alloc, rewrite, arguments)?;
            changed(alloc, rewrite, at, PlanNode::Window(f, inner, arguments))
        }
        PlanNode::Absent { labels, inner } => {
            let inner = rebuild_boxed(alloc, rewrite, inner)?;
            changed(alloc, rewrite, at, PlanNode::Absent { labels, inner })
        }
        PlanNode::Buckets(quantile, inner) => {
            let quantile = rebuild_boxed(alloc, rewrite, quantile)?;
            let inner = rebuild_boxed(alloc, rewrite, inner)?;
            changed(alloc, rewrite, at, PlanNode::Buckets(quantile, inner))
        }
        PlanNode::Relabel(rule, inner) => {
            let inner = rebuild_boxed(alloc, rewrite, inner)?;
            changed(alloc, rewrite, at, PlanNode::Relabel(rule, inner))
        }
        PlanNode::Sort { down, inner } => {
            let inner = rebuild_boxed(alloc, rewrite, inner)?;
            changed(alloc, rewrite, at, PlanNode::Sort { down, inner })
        }
        PlanNode::ScalarOf(inner) => {
            let inner = rebuild_boxed(alloc, rewrite, inner)?;
            changed(alloc, rewrite, at, PlanNode::ScalarOf(inner))
        }
        PlanNode::VectorOf(inner) => {
            let inner = rebuild_boxed(alloc, rewrite, inner)?;
            changed(alloc, rewrite, at, PlanNode::VectorOf(inner))
        }
        PlanNode::Group(f, by, arguments, label) => {
            let arguments = rebuild_all(alloc, rewrite, arguments)?;
            changed(alloc, rewrite, at, PlanNode::Group(f, by, arguments, label))
        }
        PlanNode::Pair(op, left, right, pairing) => {
            let left = rebuild_boxed(alloc, rewrite, left)?;
            let right = rebuild_boxed(alloc, rewrite, right)?;
            changed(alloc, rewrite, at, PlanNode::Pair(op, left, right, pairing))
        }
        PlanNode::Set(op, left, right, pairing) => {
            let left = rebuild_boxed(alloc, rewrite, left)?;
            let right = rebuild_boxed(alloc, rewrite, right)?;
            changed(alloc, rewrite, at, PlanNode::Set(op, left, right, pairing))
        }
        PlanNode::Filter { base, rules } => {
            let base = rebuild_boxed(alloc, rewrite, base)?;
            changed(alloc, rewrite, at, PlanNode::Filter { base, rules })
        }
        PlanNode::Ratio { sum, count } => {
            let sum = rebuild_boxed(alloc, rewrite, sum)?;
            let count = rebuild_boxed(alloc, rewrite, count)?;
            changed(alloc, rewrite, at, PlanNode::Ratio { sum, count })
        }
        PlanNode::Once(inner) => {
            let inner = rebuild_boxed(alloc, rewrite, inner)?;
            changed(alloc, rewrite, at, PlanNode::Once(inner))
        }
        PlanNode::Gather { expr, kind, asked } => {
            changed(alloc, rewrite, at, PlanNode::Gather { expr, kind, asked })
        }
    }
}

#[cycle(rebuilding)]
fn rebuild_boxed<R: Rewrite>(
    alloc: Global,
    rewrite: &R,
    p: Boxed<Plan>,
) -> Result<Boxed<Plan>, AllocError>
    ensures { IfOk result (λ q. q ≡ rebuilt (R.rule rewrite.now) p) }
{
    Boxed::new(alloc, rebuild(alloc, rewrite, p.into_inner())?)
}

#[cycle(rebuilding)]
fn rebuild_all<R: Rewrite>(
    alloc: Global,
    rewrite: &R,
    plans: Items<Plan>,
) -> Result<Items<Plan>, AllocError>
    ensures { IfOk result (λ q. q ≡ map (rebuilt (R.rule rewrite.now)) plans) }
{
    let mut all = Items::new(alloc);
    for p in plans.into_vec() {
        all.push(rebuild(alloc, rewrite, p)?)?;
    }
    Ok(all)
}
