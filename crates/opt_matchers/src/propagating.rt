ghost use Rattle.opt_matchers.specs.Handing.{HaveLabelSets, hand_rules, handed as handed_by, pair_of};
ghost use Rattle.plan_rewrite.specs.Rebuilding.{rebuilt};
ghost use Rattle.logical_plan.specs.PlanMeaning.{plan_meaning};
ghost use Rattle.promql_meaning.specs.Selecting.{Asked};
ghost use Rattle.std.specs.Prelude.{◌≡◌, ℤ, IfOk};
ghost use Rattle.xfrac.specs.declared.value.PairOp.TheVariants.{Arith as Arithmetic};

use crate::handing::handed;
use holders::Boxed;
use label_set::Pairing;
use logical_plan::{Plan, PlanNode};
use plan_rewrite::{Rewrite, rewritten};
use promql_meaning::laws::more_rules_filter;
use std::alloc::{AllocError, Global};
use xfrac::{ArithOp, PairOp};

/// The sides of each arithmetic operator hand each other their rules.
struct HandRules;

impl Rewrite for HandRules {
    ghost rule = { λ s. hand_rules };

    fn change(&self, alloc: Global, at: u32, node: PlanNode) -> Result<PlanNode, AllocError> {
        match node {
            PlanNode::Pair(PairOp::Arith(op), left, right, pairing) => {
                pair(alloc, op, left, right, pairing)
            }
            node => Ok(node),
        }
    }
}

fn pair(
    alloc: Global,
    op: ArithOp,
    left: Boxed<Plan>,
    right: Boxed<Plan>,
    pairing: Pairing,
) -> Result<PlanNode, AllocError>
    ensures { IfOk result (λ n. n ≡ pair_of (Arithmetic op) left right pairing (handed_by pairing left right)) }
{
    let op = PairOp::Arith(op);
    match handed(left.get(), right.get(), &pairing)? {
        None => Ok(PlanNode::Pair(op, left, right, pairing)),
        Some((left, right)) => {
            let left = Boxed::new(alloc, left)?;
            let right = Boxed::new(alloc, right)?;
            Ok(PlanNode::Pair(op, left, right, pairing))
        }
    }
}

/// A plan in which the sides of each arithmetic operator hand each other their rules: where both are instant selectors, matched
/// one to one without `on` and `ignoring`, and each has exactly one rule on `__name__`, an `=` with a text that isn't empty, each
/// gets the other's rules on other labels that it lacks, behind its own and in the other's order. A selector whose own times a
/// timestamp reads takes no part. On every list of samples whose labels are label sets the plan means what it meant at every
/// instant, rows, notes and marks. The only error is want of memory.
/// (thanos-io/promql-engine, the optimiser that propagates matchers.)
pub fn propagate(alloc: Global, p: Plan) -> Result<Plan, AllocError>
    ensures plan { IfOk result (λ q. q ≡ rebuilt hand_rules p) }
    ensures means { IfOk result (λ q. (asked : Asked) (t : ℤ) → HaveLabelSets asked → plan_meaning asked q t ≡ plan_meaning asked p t) }
{
    more_rules_filter();
    let q = rewritten(alloc, &HandRules, p)?;
    Ok(q)
}
