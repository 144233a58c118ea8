//! How deep averages that were split stand in each other.
ghost use Rattle.opt_split_avg.specs.Averages.{deepest_of, most_nested, nested};
ghost use Rattle.std.specs.Prelude.{◌≡◌, ◌+◌, map, max, min};

use logical_plan::{Plan, PlanNode};

/// So many averages that stand in each other are split: the innermost ones.
pub(crate) const MOST_NESTED: u32 = 4;

fn deeper(depth: u32) -> u32
    ensures { result ≡ min most_nested (depth + 1) }
{
    if depth < MOST_NESTED {
        depth + 1
    } else {
        MOST_NESTED
    }
}

fn deepest(a: u32, b: u32) -> u32
    ensures { result ≡ max a b }
{
    a.max(b)
}

#[cycle(nesting)]
fn nested(p: &Plan) -> u32
    ensures { result ≡ nested p.now }
{
    match &p.node {
        PlanNode::Number(_) | PlanNode::Time => 0,
        PlanNode::Select { .. } | PlanNode::Range { .. } | PlanNode::Gather { .. } => 0,
        PlanNode::Subquery { inner, .. }
        | PlanNode::Stamp(inner)
        | PlanNode::Absent { inner, .. }
        | PlanNode::Relabel(_, inner)
        | PlanNode::Sort { inner, .. }
        | PlanNode::ScalarOf(inner)
        | PlanNode::VectorOf(inner)
        | PlanNode::Filter { base: inner, .. }
        | PlanNode::Once(inner) => nested(inner.get()),
        PlanNode::Element(_, inner, arguments) => {
            deepest(nested(inner.get()), all_nested(arguments.as_slice()))
        }
        PlanNode::Window(_, inner, arguments) => {
            deepest(nested(inner.get()), all_nested(arguments.as_slice()))
        }
        PlanNode::Group(_, _, arguments, _) => all_nested(arguments.as_slice()),
        PlanNode::Buckets(a, b) => deepest(nested(a.get()), nested(b.get())),
        PlanNode::Pair(_, a, b, _) => deepest(nested(a.get()), nested(b.get())),
        PlanNode::Set(_, a, b, _) => deepest(nested(a.get()), nested(b.get())),
        PlanNode::Ratio { sum, count } => {
            deeper(deepest(nested(sum.get()), nested(count.get())))
        }
    }
}

/// Of all the plans together. It takes no memory.
#[cycle(nesting)]
pub(crate) fn all_nested(plans: &[Plan]) -> u32
    ensures { result ≡ deepest_of (map nested plans.now) }
{
    let mut found = 0;
    for p in plans {
        found = deepest(found, nested(p));
    }
    found
}
