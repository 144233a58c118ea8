//! The leaves of a plan: its selectors, and filters over them.
ghost use Rattle.plan_bases.specs.Leaves.{all_leaves, alone, bare, filtered, leaves_of, reading};
ghost use Rattle.std.specs.Prelude.{◌≡◌, ◌++◌, ◌∷◌, [], false, map, IfOk, MatchOption, OnOk};

use holders::Items;
use label_set::Rule;
use logical_plan::{Plan, PlanNode};
use std::alloc::{AllocError, Global};

/// What is read of the samples: the rules of a selector, and those of each filter over it, from the selector up.
#[derive(Drop)]
pub struct Leaf {
    pub base: Items<Rule>,
    pub filters: Items<Items<Rule>>,
}

impl Leaf {
    /// A selector without filters. The only error is want of memory.
    fn of(alloc: Global, rules: &Items<Rule>) -> Result<Leaf, AllocError>
        ensures { IfOk result (λ leaf. leaf ≡ bare rules.now) }
    {
        Ok(Leaf {
            base: rules.copy()?,
            filters: Items::new(alloc),
        })
    }

    /// One filter more over a leaf. The only error is want of memory.
    fn filtered(self, more: &Items<Rule>) -> Result<Leaf, AllocError>
        ensures { IfOk result (λ leaf. leaf ≡ filtered self more.now) }
    {
        let mut filters = self.filters;
        filters.push(more.copy()?)?;
        Ok(Leaf {
            base: self.base,
            filters,
        })
    }
}

/// The leaf that a plan is, if it is one: a selector or a filter over one, but no filter over a selector whose own times a timestamp
/// reads. The only error is want of memory.
fn own_leaf(alloc: Global, p: &Plan) -> Result<Option<Leaf>, AllocError>
    ensures { IfOk result (λ o. MatchOption o ((reading p.now).is_leaf ≡ false) (λ leaf. reading p.now ≡ alone leaf)) }
{
    match &p.node {
        PlanNode::Select {
            rules,
            stamped: false,
            ..
        } => Ok(Some(Leaf::of(alloc, rules)?)),
        PlanNode::Range { rules, .. } => Ok(Some(Leaf::of(alloc, rules)?)),
        PlanNode::Filter { base, rules } => match own_leaf(alloc, base.get())? {
            Some(one) => Ok(Some(one.filtered(rules)?)),
            None => Ok(None),
        },
        _ => Ok(None),
    }
}

/// Puts the leaves of a plan behind those that are found, from left to right. The only error is want of memory.
#[cycle(finding)]
pub(crate) fn find(alloc: Global, found: &mut Vec<Leaf>, p: &Plan) -> Result<(), AllocError>
    ensures { OnOk result (found.new.items ≡ found.old.items ++ leaves_of p.now) }
{
    match &p.node {
        PlanNode::Number(_) | PlanNode::Time | PlanNode::Gather { .. } => Ok(()),
        PlanNode::Select { rules, .. } | PlanNode::Range { rules, .. } => {
            add(found, Leaf::of(alloc, rules)?)
        }
        PlanNode::Filter { base, .. } => match own_leaf(alloc, p)? {
            Some(one) => add(found, one),
            None => find(alloc, found, base.get()),
        },
        PlanNode::Subquery { inner, .. }
        | PlanNode::Stamp(inner)
        | PlanNode::Absent { inner, .. }
        | PlanNode::Relabel(_, inner)
        | PlanNode::Sort { inner, .. }
        | PlanNode::ScalarOf(inner)
        | PlanNode::VectorOf(inner)
        | PlanNode::Once(inner) => find(alloc, found, inner.get()),
        PlanNode::Element(_, inner, arguments) => {
            find(alloc, found, inner.get())?;
            find_all(alloc, found, arguments.as_slice())
        }
        PlanNode::Window(_, inner, arguments) => {
            find(alloc, found, inner.get())?;
            find_all(alloc, found, arguments.as_slice())
        }
        PlanNode::Group(_, _, arguments, _) => find_all(alloc, found, arguments.as_slice()),
        PlanNode::Buckets(a, b) | PlanNode::Ratio { sum: a, count: b } => {
            find(alloc, found, a.get())?;
            find(alloc, found, b.get())
        }
        PlanNode::Pair(_, a, b, _) => {
            find(alloc, found, a.get())?;
            find(alloc, found, b.get())
        }
        PlanNode::Set(_, a, b, _) => {
            find(alloc, found, a.get())?;
            find(alloc, found, b.get())
        }
    }
}

#[cycle(finding)]
fn find_all(alloc: Global, found: &mut Vec<Leaf>, plans: &[Plan]) -> Result<(), AllocError>
    ensures { OnOk result (found.new.items ≡ found.old.items ++ all_leaves (map reading plans.now)) }
{
    for p in plans {
        find(alloc, found, p)?;
    }
    Ok(())
}

fn add(found: &mut Vec<Leaf>, one: Leaf) -> Result<(), AllocError>
    ensures { OnOk result (found.new.items ≡ found.old.items ++ one ∷ []) }
{
    found.push(one)?;
    Ok(())
}
