ghost use Rattle.logical_plan.specs.Lowering.{planned as planned_at};
ghost use Rattle.logical_plan.specs.PlanTypes.{IsTyped};
ghost use Rattle.opt_selects.specs.Trimming.{trim as trim_plan, trimmed as trimmed_plan};
ghost use Rattle.plan_rewrite.specs.Rebuilding.{MeanTheSame};
ghost use Rattle.std.specs.Prelude.{◌≡◌, Bool, false, map, IfOk};

use holders::{Boxed, Items};
use logical_plan::{Plan, PlanNode};
use std::alloc::{AllocError, Global};

/// A plan in which each sort that is neither the root nor the argument of a timestamp is its argument; a Once node between
/// changes nothing of that. A typed plan means what it meant, rows, notes and marks, on every list of samples and at every
/// instant. The only error is want of memory. (thanos-io/promql-engine, the optimiser that trims sorts.)
pub fn trim(alloc: Global, p: Plan) -> Result<Plan, AllocError>
    ensures plan { IfOk result (λ q. q ≡ trim_plan p) }
    ensures means { IfOk result (λ q. IsTyped p → MeanTheSame q p) }
{
    let q = trimmed(alloc, p, true)?;
    Ok(q)
}

/// A node at a place.
fn planned(at: u32, node: PlanNode) -> Plan
    ensures { result ≡ planned_at at node }
{
    Plan { at, node }
}

/// The same; a sort that a plan begins with is kept or not.
#[cycle(trimming)]
fn trimmed(alloc: Global, p: Plan, keeps: bool) -> Result<Plan, AllocError>
    ensures { IfOk result (λ q. q ≡ trimmed_plan p keeps) }
{
    let Plan { at, node } = p;
    match node {
        PlanNode::Number(value) => Ok(planned(at, PlanNode::Number(value))),
        PlanNode::Time => Ok(planned(at, PlanNode::Time)),
        PlanNode::Select {
            rules,
            moment,
            stamped,
        } => {
            let node = PlanNode::Select {
                rules,
                moment,
                stamped,
            };
            Ok(planned(at, node))
        }
        PlanNode::Range {
            rules,
            moment,
            range,
        } => {
            let node = PlanNode::Range {
                rules,
                moment,
                range,
            };
            Ok(planned(at, node))
        }
        PlanNode::Subquery {
            inner,
            range,
            step,
            moment,
        } => {
            let inner = trimmed_boxed(alloc, inner, false)?;
            let node = PlanNode::Subquery {
                inner,
                range,
                step,
                moment,
            };
            Ok(planned(at, node))
        }
        PlanNode::Element(f, inner, arguments) => {
            let inner = trimmed_boxed(alloc, inner, false)?;
            let arguments = trimmed_all(alloc, arguments)?;
            Ok(planned(at, PlanNode::Element(f, inner, arguments)))
        }
        PlanNode::Stamp(inner) => {
            let inner = trimmed_boxed(alloc, inner, true)?;
            Ok(planned(at, PlanNode::Stamp(inner)))
        }
        PlanNode::Window(f, inner, arguments) => {
            let inner = trimmed_boxed(alloc, inner, false)?;
            let arguments = trimmed_all(alloc, arguments)?;
            Ok(planned(at, PlanNode::Window(f, inner, arguments)))
        }
        PlanNode::Absent { labels, inner } => {
            let inner = trimmed_boxed(alloc, inner, false)?;
            Ok(planned(at, PlanNode::Absent { labels, inner }))
        }
        PlanNode::Buckets(quantile, inner) => {
            let quantile = trimmed_boxed(alloc, quantile, false)?;
            let inner = trimmed_boxed(alloc, inner, false)?;
            Ok(planned(at, PlanNode::Buckets(quantile, inner)))
        }
        PlanNode::Relabel(rule, inner) => {
            let inner = trimmed_boxed(alloc, inner, false)?;
            Ok(planned(at, PlanNode::Relabel(rule, inner)))
        }
        PlanNode::Sort { down, inner } => {
            if !keeps {
                return trimmed(alloc, inner.into_inner(), false);
            }
            let inner = trimmed_boxed(alloc, inner, false)?;
            Ok(planned(at, PlanNode::Sort { down, inner }))
        }
        PlanNode::ScalarOf(inner) => {
            let inner = trimmed_boxed(alloc, inner, false)?;
            Ok(planned(at, PlanNode::ScalarOf(inner)))
        }
        PlanNode::VectorOf(inner) => {
            let inner = trimmed_boxed(alloc, inner, false)?;
            Ok(planned(at, PlanNode::VectorOf(inner)))
        }
        PlanNode::Group(f, by, arguments, label) => {
            let arguments = trimmed_all(alloc, arguments)?;
            Ok(planned(at, PlanNode::Group(f, by, arguments, label)))
        }
        PlanNode::Pair(op, left, right, pairing) => {
            let left = trimmed_boxed(alloc, left, false)?;
            let right = trimmed_boxed(alloc, right, false)?;
            Ok(planned(at, PlanNode::Pair(op, left, right, pairing)))
        }
        PlanNode::Set(op, left, right, pairing) => {
            let left = trimmed_boxed(alloc, left, false)?;
            let right = trimmed_boxed(alloc, right, false)?;
            Ok(planned(at, PlanNode::Set(op, left, right, pairing)))
        }
        PlanNode::Filter { base, rules } => {
            let base = trimmed_boxed(alloc, base, false)?;
            Ok(planned(at, PlanNode::Filter { base, rules }))
        }
        PlanNode::Ratio { sum, count } => {
            let sum = trimmed_boxed(alloc, sum, false)?;
            let count = trimmed_boxed(alloc, count, false)?;
            Ok(planned(at, PlanNode::Ratio { sum, count }))
        }
        PlanNode::Once(inner) => {
            let inner = trimmed_boxed(alloc, inner, keeps)?;
            Ok(planned(at, PlanNode::Once(inner)))
        }
        PlanNode::Gather { expr, kind, asked } => {
            Ok(planned(at, PlanNode::Gather { expr, kind, asked }))
        }
    }
}

#[cycle(trimming)]
fn trimmed_boxed(alloc: Global, p: Boxed<Plan>, keeps: bool) -> Result<Boxed<Plan>, AllocError>
    ensures { IfOk result (λ q. q ≡ trimmed_plan p keeps) }
{
    Boxed::new(alloc, trimmed(alloc, p.into_inner(), keeps)?)
}

#[cycle(trimming)]
fn trimmed_all(alloc: Global, plans: Items<Plan>) -> Result<Items<Plan>, AllocError>
    ensures { IfOk result (λ all. all ≡ map (λ (of : Bool → Plan). of false) (map trimmed_plan plans)) }
{
    let mut all = Items::new(alloc);
    for p in plans.into_vec() {
        all.push(trimmed(alloc, p, false)?)?;
    }
    Ok(all)
}
