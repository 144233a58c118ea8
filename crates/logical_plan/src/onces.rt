//! A plan with its Once nodes.
ghost use Rattle.logical_plan.specs.Lowering.{planned as planned_at};
ghost use Rattle.logical_plan.specs.Onces.{Onced, once_of, with_onces as plan_with_onces, wrapped as wrapped_node};
ghost use Rattle.std.specs.Prelude.{◌≡◌, map, IfOk};

use crate::nodes::{Plan, PlanNode};
use crate::steadiness::{is_once, known};
use holders::{Boxed, Items};
use std::alloc::{AllocError, Global};

/// A node at a place, under a Once node where that is asked for.
fn wrapped(alloc: Global, once: bool, at: u32, node: PlanNode) -> Result<Plan, AllocError>
    ensures { IfOk result (λ p. p ≡ wrapped_node once at node) }
{
    let plan = Plan { at, node };
    if !once {
        return Ok(plan);
    }
    Ok(Plan {
        at,
        node: PlanNode::Once(Boxed::new(alloc, plan)?),
    })
}

/// A plan with a Once node over each largest part that is to be computed once; one that is there already is placed anew. The
/// only error is want of memory.
pub fn with_onces(alloc: Global, p: Plan) -> Result<Plan, AllocError>
    ensures { IfOk result (λ q. q ≡ plan_with_onces p) }
{
    placed(alloc, p, false)
}

/// The same, below a Once node or not.
#[cycle(placing)]
fn placed(alloc: Global, p: Plan, inside: bool) -> Result<Plan, AllocError>
    ensures { IfOk result (λ q. q ≡ (once_of p).plan inside) }
{
    let once = !inside && is_once(known(&p));
    let below = inside || once;
    let Plan { at, node } = p;
    match node {
        PlanNode::Number(value) => wrapped(alloc, once, at, PlanNode::Number(value)),
        PlanNode::Time => wrapped(alloc, once, at, PlanNode::Time),
        PlanNode::Select {
            rules,
            moment,
            stamped,
        } => {
            let node = PlanNode::Select {
                rules,
                moment,
                stamped,
            };
            wrapped(alloc, once, at, node)
        }
        PlanNode::Range {
            rules,
            moment,
            range,
        } => {
            let node = PlanNode::Range {
                rules,
                moment,
                range,
            };
            wrapped(alloc, once, at, node)
        }
        PlanNode::Subquery {
            inner,
            range,
            step,
            moment,
        } => {
            let inner = placed_boxed(alloc, inner, below)?;
            let node = PlanNode::Subquery {
                inner,
                range,
                step,
                moment,
            };
            wrapped(alloc, once, at, node)
        }
        PlanNode::Element(f, inner, arguments) => {
            let inner = placed_boxed(alloc, inner, below)?;
            let arguments = placed_all(alloc, arguments, below)?;
            wrapped(alloc, once, at, PlanNode::Element(f, inner, arguments))
        }
        PlanNode::Stamp(inner) => {
            let inner = placed_boxed(alloc, inner, below)?;
            wrapped(alloc, once, at, PlanNode::Stamp(inner))
        }
        PlanNode::Window(f, inner, arguments) => {
            let inner = placed_boxed(alloc, inner, below)?;
            let arguments = placed_all(alloc, arguments, below)?;
            wrapped(alloc, once, at, PlanNode::Window(f, inner, arguments))
        }
        PlanNode::Absent { labels, inner } => {
            let inner = placed_boxed(alloc, inner, below)?;
            wrapped(alloc, once, at, PlanNode::Absent { labels, inner })
        }
        PlanNode::Buckets(quantile, inner) => {
            let quantile = placed_boxed(alloc, quantile, below)?;
            let inner = placed_boxed(alloc, inner, below)?;
            wrapped(alloc, once, at, PlanNode::Buckets(quantile, inner))
        }
        PlanNode::Relabel(rule, inner) => {
            let inner = placed_boxed(alloc, inner, below)?;
            wrapped(alloc, once, at, PlanNode::Relabel(rule, inner))
        }
        PlanNode::Sort { down, inner } => {
            let inner = placed_boxed(alloc, inner, below)?;
            wrapped(alloc, once, at, PlanNode::Sort { down, inner })
        }
        PlanNode::ScalarOf(inner) => {
            let inner = placed_boxed(alloc, inner, below)?;
            wrapped(alloc, once, at, PlanNode::ScalarOf(inner))
        }
        PlanNode::VectorOf(inner) => {
            let inner = placed_boxed(alloc, inner, below)?;
            wrapped(alloc, once, at, PlanNode::VectorOf(inner))
        }
        PlanNode::Group(f, by, arguments, label) => {
            let arguments = placed_all(alloc, arguments, below)?;
            wrapped(alloc, once, at, PlanNode::Group(f, by, arguments, label))
        }
        PlanNode::Pair(op, left, right, pairing) => {
            let left = placed_boxed(alloc, left, below)?;
            let right = placed_boxed(alloc, right, below)?;
            wrapped(alloc, once, at, PlanNode::Pair(op, left, right, pairing))
        }
        PlanNode::Set(op, left, right, pairing) => {
            let left = placed_boxed(alloc, left, below)?;
            let right = placed_boxed(alloc, right, below)?;
            wrapped(alloc, once, at, PlanNode::Set(op, left, right, pairing))
        }
        PlanNode::Filter { base, rules } => {
            let base = placed_boxed(alloc, base, below)?;
            wrapped(alloc, once, at, PlanNode::Filter { base, rules })
        }
        PlanNode::Ratio { sum, count } => {
            let sum = placed_boxed(alloc, sum, below)?;
            let count = placed_boxed(alloc, count, below)?;
            wrapped(alloc, once, at, PlanNode::Ratio { sum, count })
        }
        PlanNode::Once(inner) => placed(alloc, inner.into_inner(), inside),
        PlanNode::Gather { expr, kind, asked } => {
            wrapped(alloc, once, at, PlanNode::Gather { expr, kind, asked })
        }
    }
}

#[cycle(placing)]
fn placed_boxed(alloc: Global, p: Boxed<Plan>, inside: bool) -> Result<Boxed<Plan>, AllocError>
    ensures { IfOk result (λ q. q ≡ (once_of p).plan inside) }
{
    Boxed::new(alloc, placed(alloc, p.into_inner(), inside)?)
}

#[cycle(placing)]
fn placed_all(alloc: Global, plans: Items<Plan>, inside: bool) -> Result<Items<Plan>, AllocError>
    ensures { IfOk result (λ all. all ≡ map (λ (o : Onced). o.plan inside) (map once_of plans)) }
{
    let mut all = Items::new(alloc);
    for p in plans.into_vec() {
        all.push(placed(alloc, p, inside)?)?;
    }
    Ok(all)
}
