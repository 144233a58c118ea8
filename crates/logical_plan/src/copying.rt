//! Copies of plans.
ghost use Rattle.std.specs.Prelude.{◌≡◌, IfOk};

use crate::nodes::{Plan, PlanNode};
use func_table::{Aggregate, SetOp};
use holders::{Boxed, Items, Text};
use label_set::{Grouping, Labels, Pairing, Relabel, Rule};
use promql_ast::{Expr, Moment};
use std::alloc::AllocError;
use step_table::PartKind;
use ticks::Ms;
use xfrac::PairOp;

fn labels_copied(labels: &Option<Labels>) -> Result<Option<Labels>, AllocError>
    ensures { IfOk result (λ copy. copy ≡ labels.now) }
{
    match labels {
        Some(labels) => Ok(Some(labels.copy()?)),
        None => Ok(None),
    }
}

impl Plan {
    ghost use Rattle.std.specs.Prelude.{◌≡◌, IfOk};

    /// An equal plan, on the allocators of this one. The only error is want of memory.
    #[cycle(copies)]
    pub fn copy(&self) -> Result<Plan, AllocError>
        ensures { IfOk result (λ p. p ≡ self.now) }
    {
        let node = node_copied(&self.node)?;
        Ok(Plan { at: self.at, node })
    }
}

#[cycle(copies)]
fn node_copied(node: &PlanNode) -> Result<PlanNode, AllocError>
    ensures { IfOk result (λ n. n ≡ node.now) }
{
    match node {
        PlanNode::Number(value) => Ok(PlanNode::Number(*value)),
        PlanNode::Time => Ok(PlanNode::Time),
        PlanNode::Select {
            rules,
            moment,
            stamped,
        } => select_copied(rules, *moment, *stamped),
        PlanNode::Range {
            rules,
            moment,
            range,
        } => range_copied(rules, *moment, *range),
        PlanNode::Subquery {
            inner,
            range,
            step,
            moment,
        } => Ok(PlanNode::Subquery {
            inner: copied(inner)?,
            range: *range,
            step: *step,
            moment: *moment,
        }),
        PlanNode::Element(f, inner, arguments) => {
            let inner = copied(inner)?;
            Ok(PlanNode::Element(*f, inner, all_copied(arguments)?))
        }
        PlanNode::Stamp(inner) => Ok(PlanNode::Stamp(copied(inner)?)),
        PlanNode::Window(f, inner, arguments) => {
            let inner = copied(inner)?;
            Ok(PlanNode::Window(*f, inner, all_copied(arguments)?))
        }
        PlanNode::Absent { labels, inner } => absent_over(labels, copied(inner)?),
        PlanNode::Buckets(quantile, inner) => {
            let quantile = copied(quantile)?;
            Ok(PlanNode::Buckets(quantile, copied(inner)?))
        }
        PlanNode::Relabel(rule, inner) => relabel_over(rule, copied(inner)?),
        PlanNode::Sort { down, inner } => Ok(PlanNode::Sort {
            down: *down,
            inner: copied(inner)?,
        }),
        PlanNode::ScalarOf(inner) => Ok(PlanNode::ScalarOf(copied(inner)?)),
        PlanNode::VectorOf(inner) => Ok(PlanNode::VectorOf(copied(inner)?)),
        PlanNode::Group(f, by, arguments, label) => {
            group_over(*f, by, all_copied(arguments)?, label)
        }
        PlanNode::Pair(op, left, right, pairing) => {
            let left = copied(left)?;
            pair_over(*op, left, copied(right)?, pairing)
        }
        PlanNode::Set(op, left, right, pairing) => {
            let left = copied(left)?;
            set_over(*op, left, copied(right)?, pairing)
        }
        PlanNode::Filter { base, rules } => filter_over(copied(base)?, rules),
        PlanNode::Ratio { sum, count } => {
            let sum = copied(sum)?;
            Ok(PlanNode::Ratio {
                sum,
                count: copied(count)?,
            })
        }
        PlanNode::Once(inner) => Ok(PlanNode::Once(copied(inner)?)),
        PlanNode::Gather { expr, kind, asked } => gather_copied(expr, kind, asked),
    }
}

fn select_copied(rules: &Items<Rule>, moment: Moment, stamped: bool) -> Result<PlanNode, AllocError>
    ensures { IfOk result (λ n. n ≡ PlanNode.Select rules.now moment stamped) }
{
    Ok(PlanNode::Select {
        rules: rules.copy()?,
        moment,
        stamped,
    })
}

fn range_copied(rules: &Items<Rule>, moment: Moment, range: Ms) -> Result<PlanNode, AllocError>
    ensures { IfOk result (λ n. n ≡ PlanNode.Range rules.now moment range) }
{
    Ok(PlanNode::Range {
        rules: rules.copy()?,
        moment,
        range,
    })
}

fn gather_copied(expr: &Expr, kind: &PartKind, asked: &Items<u32>) -> Result<PlanNode, AllocError>
    ensures { IfOk result (λ n. n ≡ PlanNode.Gather expr.now kind.now asked.now) }
{
    let expr = expr.copy()?;
    let kind = kind.copy()?;
    let asked = asked.copy()?;
    Ok(PlanNode::Gather { expr, kind, asked })
}

// ---- over copies of children

fn absent_over(labels: &Option<Labels>, inner: Boxed<Plan>) -> Result<PlanNode, AllocError>
    ensures { IfOk result (λ n. n ≡ PlanNode.Absent labels.now inner) }
{
    let labels = labels_copied(labels)?;
    Ok(PlanNode::Absent { labels, inner })
}

fn relabel_over(rule: &Relabel, inner: Boxed<Plan>) -> Result<PlanNode, AllocError>
    ensures { IfOk result (λ n. n ≡ PlanNode.Relabel rule.now inner) }
{
    Ok(PlanNode::Relabel(rule.copy()?, inner))
}

fn filter_over(base: Boxed<Plan>, rules: &Items<Rule>) -> Result<PlanNode, AllocError>
    ensures { IfOk result (λ n. n ≡ PlanNode.Filter base rules.now) }
{
    let rules = rules.copy()?;
    Ok(PlanNode::Filter { base, rules })
}

fn group_over(
    f: Aggregate,
    by: &Grouping,
    arguments: Items<Plan>,
    label: &Text,
) -> Result<PlanNode, AllocError>
    ensures { IfOk result (λ n. n ≡ PlanNode.Group f by.now arguments label.now) }
{
    let by = by.copy()?;
    Ok(PlanNode::Group(f, by, arguments, label.copy()?))
}

fn pair_over(
    op: PairOp,
    left: Boxed<Plan>,
    right: Boxed<Plan>,
    pairing: &Pairing,
) -> Result<PlanNode, AllocError>
    ensures { IfOk result (λ n. n ≡ PlanNode.Pair op left right pairing.now) }
{
    Ok(PlanNode::Pair(op, left, right, pairing.copy()?))
}

fn set_over(
    op: SetOp,
    left: Boxed<Plan>,
    right: Boxed<Plan>,
    pairing: &Pairing,
) -> Result<PlanNode, AllocError>
    ensures { IfOk result (λ n. n ≡ PlanNode.Set op left right pairing.now) }
{
    Ok(PlanNode::Set(op, left, right, pairing.copy()?))
}

#[cycle(copies)]
fn copied(p: &Boxed<Plan>) -> Result<Boxed<Plan>, AllocError>
    ensures { IfOk result (λ copy. copy ≡ p.now) }
{
    let copy = p.get().copy()?;
    Boxed::new(p.allocator(), copy)
}

#[cycle(copies)]
fn all_copied(plans: &Items<Plan>) -> Result<Items<Plan>, AllocError>
    ensures { IfOk result (λ copies. copies ≡ plans.now) }
{
    let mut copies = Items::new(plans.allocator());
    for p in plans.as_slice() {
        copies.push(p.copy()?)?;
    }
    Ok(copies)
}
