//! The selectors of a plan.
ghost use Rattle.opt_selects.specs.Selectors.{all_selectors, order_of_found, ordered, selectors};
ghost use Rattle.std.specs.Prelude.{◌≡◌, ◌++◌, ◌∷◌, [], map, IfOk, OnOk};

use holders::Items;
use label_set::Rule;
use logical_plan::{Plan, PlanNode};
use promql_ast::Moment;
use std::alloc::{AllocError, Global};
use std::cmp::Ordering;
use ticks::Ms;

/// A selector of a plan, no stamped one: its place, its rules, its moment, and of a range selector the length of the range in
/// milliseconds.
#[derive(Drop)]
pub(crate) struct Found {
    pub at: u32,
    pub rules: Items<Rule>,
    pub moment: Moment,
    pub range: Option<Ms>,
}

/// Puts the selectors of a plan behind those that are found, from left to right.
#[cycle(finding)]
fn find(found: &mut Vec<Found>, p: &Plan) -> Result<(), AllocError>
    ensures { OnOk result (found.new.items ≡ found.old.items ++ selectors p.now) }
{
    match &p.node {
        PlanNode::Number(_) | PlanNode::Time | PlanNode::Gather { .. } => Ok(()),
        PlanNode::Select {
            rules,
            moment,
            stamped,
        } => {
            if *stamped {
                return Ok(());
            }
            add(found, p.at, rules, *moment, None)
        }
        PlanNode::Range {
            rules,
            moment,
            range,
        } => add(found, p.at, rules, *moment, Some(*range)),
        PlanNode::Subquery { inner, .. }
        | PlanNode::Stamp(inner)
        | PlanNode::Absent { inner, .. }
        | PlanNode::Relabel(_, inner)
        | PlanNode::Sort { inner, .. }
        | PlanNode::ScalarOf(inner)
        | PlanNode::VectorOf(inner)
        | PlanNode::Filter { base: inner, .. }
        | PlanNode::Once(inner) => find(found, inner.get()),
        PlanNode::Element(_, inner, arguments) => {
            find(found, inner.get())?;
            find_all(found, arguments.as_slice())
        }
        PlanNode::Window(_, inner, arguments) => {
            find(found, inner.get())?;
            find_all(found, arguments.as_slice())
        }
        PlanNode::Group(_, _, arguments, _) => find_all(found, arguments.as_slice()),
        PlanNode::Buckets(a, b) | PlanNode::Ratio { sum: a, count: b } => {
            find(found, a.get())?;
            find(found, b.get())
        }
        PlanNode::Pair(_, a, b, _) => {
            find(found, a.get())?;
            find(found, b.get())
        }
        PlanNode::Set(_, a, b, _) => {
            find(found, a.get())?;
            find(found, b.get())
        }
    }
}

#[cycle(finding)]
fn find_all(found: &mut Vec<Found>, plans: &[Plan]) -> Result<(), AllocError>
    ensures { OnOk result (found.new.items ≡ found.old.items ++ all_selectors (map selectors plans.now)) }
{
    for p in plans {
        find(found, p)?;
    }
    Ok(())
}

fn add(
    found: &mut Vec<Found>,
    at: u32,
    rules: &Items<Rule>,
    moment: Moment,
    range: Option<Ms>,
) -> Result<(), AllocError>
    ensures { OnOk result (found.new.items ≡ found.old.items ++ record { at = at; rules = rules.now; moment = moment; range = range } ∷ []) }
{
    found.push(Found {
        at,
        rules: rules.copy()?,
        moment,
        range,
    })?;
    Ok(())
}

fn order(a: &Found, b: &Found) -> Ordering
    ensures { result ≡ order_of_found a.now b.now }
{
    let rules = a.rules.as_slice().len().cmp(&b.rules.as_slice().len());
    rules.then(a.at.cmp(&b.at))
}

fn sorted(found: Vec<Found>) -> Result<Vec<Found>, AllocError>
    ensures { IfOk result (λ sorted. sorted.items ≡ ordered found.items) }
{
    let mut sorted = found;
    sorted.sort_by(|a, b| order(a, b))?;
    Ok(sorted)
}

/// The selectors of a plan, those with the fewest rules first, then in the order of the text.
pub(crate) fn found_in(alloc: Global, p: &Plan) -> Result<Vec<Found>, AllocError>
    ensures { IfOk result (λ found. found.items ≡ ordered (selectors p.now)) }
{
    let mut found = Vec::new(alloc);
    find(&mut found, p)?;
    sorted(found)
}
