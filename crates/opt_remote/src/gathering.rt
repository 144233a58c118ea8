//! Selectors become parts that engines are asked for.
ghost use Rattle.logical_plan.specs.Lowering.{planned};
ghost use Rattle.logical_plan.specs.PartExprs.{expression_of};
ghost use Rattle.logical_plan.specs.declared.nodes.PlanNode.TheVariants.{Range as RangeNode, Select as SelectNode};
ghost use Rattle.logical_plan.specs.declared.nodes.PlanNode.TheViews.{out-PlanNode};
ghost use Rattle.opt_remote.specs.Engines.{MeanTheSameOver};
ghost use Rattle.opt_remote.specs.Gathering.{all_engines, gather, gather_selector, gathered_selectors, is_stamped_selector, once_over, timestamp_over};
ghost use Rattle.std.specs.Prelude.{◌≡◌, false, IfOk};
ghost use Rattle.step_table.specs.declared.cells.PartKind.TheVariants.{Rows, Windows};

use crate::laws::gathered_selectors_keep_meaning;
use holders::{Boxed, Items};
use label_set::Rule;
use logical_plan::{Plan, PlanNode, part_expr};
use match_rule::Patterns;
use plan_rewrite::{Rewrite, rewritten};
use promql_ast::{Expr, Moment};
use std::alloc::{AllocError, Global};
use step_table::PartKind;
use ticks::Ms;

/// Selectors become parts that these engines are asked for.
#[derive(Clone, Copy)]
struct GatherSelectors<'e, 'p, 'r> {
    engines: &'e Items<u32>,
    patterns: &'p Patterns<'r>,
}

impl<'e, 'p, 'r> Rewrite for GatherSelectors<'e, 'p, 'r> {
    ghost rule = { λ s. gather_selector s.engines.now s.patterns.now };

    fn change(&self, alloc: Global, at: u32, node: PlanNode) -> Result<PlanNode, AllocError> {
        match node {
            PlanNode::Select {
                rules,
                moment,
                stamped: false,
            } => instant_part(alloc, self, at, rules, moment),
            PlanNode::Range {
                rules,
                moment,
                range,
            } => range_part(alloc, self, at, rules, moment, range),
            PlanNode::Stamp(inner) => timestamp_over(alloc, self, at, inner),
            PlanNode::Once(inner) => Ok(once_over(inner)),
            node => Ok(node),
        }
    }
}

/// The expression of a plan, which goes.
fn expression(alloc: Global, patterns: &Patterns<'_>, p: Plan) -> Result<Expr, AllocError>
    ensures { IfOk result (λ e. e ≡ expression_of patterns.now p) }
{
    part_expr(alloc, &p, patterns)
}

/// A node at a place as a part that these engines are asked for.
fn gather(
    alloc: Global,
    asking: &GatherSelectors<'_, '_, '_>,
    kind: PartKind,
    at: u32,
    node: PlanNode,
) -> Result<PlanNode, AllocError>
    ensures { IfOk result (λ n. n ≡ gather asking.now.engines.now asking.now.patterns.now kind at node) }
{
    let expr = expression(alloc, asking.patterns, Plan { at, node })?;
    let asked = asking.engines.copy()?;
    Ok(PlanNode::Gather { expr, kind, asked })
}

/// An instant selector, no stamped one, for its rows.
fn instant_part(
    alloc: Global,
    asking: &GatherSelectors<'_, '_, '_>,
    at: u32,
    rules: Items<Rule>,
    moment: Moment,
) -> Result<PlanNode, AllocError>
    ensures { IfOk result (λ n. n ≡ gather asking.now.engines.now asking.now.patterns.now Rows at (SelectNode rules moment false)) }
{
    let node = PlanNode::Select {
        rules,
        moment,
        stamped: false,
    };
    gather(alloc, asking, PartKind::Rows, at, node)
}

/// A range selector for its windows.
fn range_part(
    alloc: Global,
    asking: &GatherSelectors<'_, '_, '_>,
    at: u32,
    rules: Items<Rule>,
    moment: Moment,
    range: Ms,
) -> Result<PlanNode, AllocError>
    ensures { IfOk result (λ n. n ≡ gather asking.now.engines.now asking.now.patterns.now Windows at (RangeNode rules moment range)) }
{
    let node = PlanNode::Range {
        rules,
        moment,
        range,
    };
    gather(alloc, asking, PartKind::Windows, at, node)
}

/// Whether a plan is a selector whose samples' own times a timestamp reads.
fn is_stamped_selector(p: &Plan) -> bool
    ensures { result ≡ is_stamped_selector (out-PlanNode p.now.node) }
{
    match &p.node {
        PlanNode::Select { stamped, .. } => *stamped,
        _ => false,
    }
}

/// A timestamp over a plan.
fn timestamp_over(
    alloc: Global,
    asking: &GatherSelectors<'_, '_, '_>,
    at: u32,
    inner: Boxed<Plan>,
) -> Result<PlanNode, AllocError>
    ensures { IfOk result (λ n. n ≡ timestamp_over asking.now.engines.now asking.now.patterns.now at inner) }
{
    let is_part = is_stamped_selector(inner.get());
    let node = PlanNode::Stamp(inner);
    if is_part {
        gather(alloc, asking, PartKind::Rows, at, node)
    } else {
        Ok(node)
    }
}

/// A Once node over a plan.
fn once_over(inner: Boxed<Plan>) -> PlanNode
    ensures { result ≡ once_over inner }
{
    if is_stamped_selector(inner.get()) {
        let Plan { node, .. } = inner.into_inner();
        node
    } else {
        PlanNode::Once(inner)
    }
}

/// The numbers of so many engines, which rise from 0.
fn all_engines(alloc: Global, count: u32) -> Result<Items<u32>, AllocError>
    ensures { IfOk result (λ engines. engines ≡ all_engines count) }
{
    let mut engines = Items::new(alloc);
    for engine in 0..count {
        engines.push(engine)?;
    }
    Ok(engines)
}

/// A plan whose selectors are parts that all of so many engines are asked for: each instant selector and each timestamp of one for
/// its rows, each range selector for its windows, as the expressions that they are. Where the samples of a query are parted over
/// these engines by the labels that are declared to them, the plan means what it meant, rows, notes and marks, at every instant. The
/// only error is want of memory. (thanos-io/promql-engine, distributed queries.)
pub fn gather_selectors(
    alloc: Global,
    p: Plan,
    engines: u32,
    patterns: &Patterns<'_>,
) -> Result<Plan, AllocError>
    ensures plan { IfOk result (λ q. q ≡ gathered_selectors engines patterns.now p) }
    ensures means { IfOk result (λ q. MeanTheSameOver engines q p) }
{
    gathered_selectors_keep_meaning();
    let all = all_engines(alloc, engines)?;
    let asking = GatherSelectors {
        engines: &all,
        patterns,
    };
    let q = rewritten(alloc, &asking, p)?;
    Ok(q)
}
