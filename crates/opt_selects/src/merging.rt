ghost use Rattle.opt_selects.specs.Bases.{HaveSameBases, base_among, merge_selects, over_base};
ghost use Rattle.opt_selects.specs.Selectors.{ordered, selectors};
ghost use Rattle.logical_plan.specs.declared.nodes.PlanNode.TheVariants.{Filter as FilterNode, Range as RangeNode, Select as SelectNode};
ghost use Rattle.logical_plan.specs.Lowering.{planned as planned_at};
ghost use Rattle.plan_rewrite.specs.Rebuilding.{MeanTheSame, rebuilt};
ghost use Rattle.std.specs.Prelude.{◌≡◌, false, Some, None, IfOk};

use crate::bases::lacking;
use crate::candidates::Candidates;
use crate::found::found_in;
use crate::keyed::with_keys;
use crate::kinds::first_of_each;
use holders::{Boxed, Items};
use label_set::Rule;
use logical_plan::{Plan, PlanNode};
use plan_rewrite::{Rewrite, rewritten};
use promql_ast::Moment;
use promql_meaning::laws::more_rules_filter;
use std::alloc::{AllocError, Global};
use ticks::Ms;

/// Selectors over those of fewer rules.
#[derive(Clone, Copy)]
struct MergeSelects<'f> {
    found: &'f Candidates,
}

impl<'f> Rewrite for MergeSelects<'f> {
    ghost rule = { λ s. merge_selects s.found.now };

    fn change(&self, alloc: Global, at: u32, node: PlanNode) -> Result<PlanNode, AllocError> {
        match node {
            PlanNode::Select {
                rules,
                moment,
                stamped: false,
            } => select_over_base(alloc, self.found, at, rules, moment),
            PlanNode::Range {
                rules,
                moment,
                range,
            } => range_over_base(alloc, self.found, at, rules, moment, range),
            node => Ok(node),
        }
    }
}

/// Selectors of a plan among which each selector has the base that it has among all.
fn candidates(alloc: Global, p: &Plan) -> Result<Candidates, AllocError>
    ensures { IfOk result (λ found. HaveSameBases found (ordered (selectors p.now))) }
{
    let found = with_keys(alloc, found_in(alloc, p)?)?;
    Candidates::of(alloc, first_of_each(alloc, found)?)
}

/// A filter of rules over a base at a place.
fn filter(
    alloc: Global,
    at: u32,
    base: PlanNode,
    rules: Items<Rule>,
) -> Result<PlanNode, AllocError>
    ensures { IfOk result (λ n. n ≡ FilterNode (planned_at at base) rules) }
{
    let base = Boxed::new(alloc, Plan { at, node: base })?;
    Ok(PlanNode::Filter { base, rules })
}

fn select_over_base(
    alloc: Global,
    found: &Candidates,
    at: u32,
    rules: Items<Rule>,
    moment: Moment,
) -> Result<PlanNode, AllocError>
    ensures { IfOk result (λ n. n ≡ over_base at (λ r. SelectNode r moment false) rules (base_among found.now rules moment None)) }
{
    match found.base_for(alloc, rules.as_slice(), &moment, None)? {
        None => Ok(PlanNode::Select {
            rules,
            moment,
            stamped: false,
        }),
        Some(base) => {
            let more = lacking(alloc, base.as_slice(), rules)?;
            let leaf = PlanNode::Select {
                rules: base.copy()?,
                moment,
                stamped: false,
            };
            filter(alloc, at, leaf, more)
        }
    }
}

fn range_over_base(
    alloc: Global,
    found: &Candidates,
    at: u32,
    rules: Items<Rule>,
    moment: Moment,
    range: Ms,
) -> Result<PlanNode, AllocError>
    ensures { IfOk result (λ n. n ≡ over_base at (λ r. RangeNode r moment range) rules (base_among found.now rules moment (Some range))) }
{
    match found.base_for(alloc, rules.as_slice(), &moment, Some(range))? {
        None => Ok(PlanNode::Range {
            rules,
            moment,
            range,
        }),
        Some(base) => {
            let more = lacking(alloc, base.as_slice(), rules)?;
            let leaf = PlanNode::Range {
                rules: base.copy()?,
                moment,
                range,
            };
            filter(alloc, at, leaf, more)
        }
    }
}

/// A plan in which each selector that has a base among the plan's selectors is a filter over it. A base has the same moment, the
/// same range or none, the same `=` rule on `__name__`, and a proper part of the rules; of several the one with the fewest
/// rules is taken, then the first in the text. The filter has the rules that the base lacks, and the base stands at the
/// selector's place. A selector whose own times a timestamp reads takes no part. The plan means what it meant, rows, notes and
/// marks, on every list of samples and at every instant. The only error is want of memory.
/// (thanos-io/promql-engine, the optimiser that merges selects.)
pub fn merge(alloc: Global, p: Plan) -> Result<Plan, AllocError>
    ensures plan { IfOk result (λ q. q ≡ rebuilt (merge_selects (ordered (selectors p))) p) }
    ensures means { IfOk result (λ q. MeanTheSame q p) }
{
    more_rules_filter();
    let found = candidates(alloc, &p)?;
    let q = rewritten(alloc, &MergeSelects { found: &found }, p)?;
    Ok(q)
}
