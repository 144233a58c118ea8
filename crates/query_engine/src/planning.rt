//! The plan of a query, and the one that it is evaluated by.
ghost use Rattle.logical_plan.specs.Lowering.{PatternsArePlaced};
ghost use Rattle.logical_plan.specs.PlanMeaning.{plan_meaning};
ghost use Rattle.logical_plan.specs.PlanTypes.{IsTyped};
ghost use Rattle.logical_plan.specs.Shown.{shown};
ghost use Rattle.logical_plan.specs.Steadiness.{OncesAreSteady};
ghost use Rattle.logical_plan.specs.Validity.{IsValid, IsWithinLimits};
ghost use Rattle.opt_matchers.specs.Handing.{HaveLabelSets};
ghost use Rattle.opt_remote.specs.Engines.{ArePartedOver};
ghost use Rattle.opt_remote.specs.Gathering.{all_engines};
ghost use Rattle.opt_remote.specs.Parts.{is_gathered};
ghost use Rattle.promql_meaning.specs.Meaning.{meaning};
ghost use Rattle.promql_meaning.specs.Selecting.{Asked};
ghost use Rattle.promql_type.specs.TypedTrees.{placed_of, tree_of};
ghost use Rattle.query_engine.specs.Bounds.{evaluated_plan};
ghost use Rattle.query_engine.specs.Evaluating.{IsRefusedWith};
ghost use Rattle.query_engine.specs.Planning.{AsksAllWhereKept, GivesNumbers, HasPlan, IsServedOverWhereKept, IsServedWhereKept, MayRefuse, choices_of, gathered_plan, plan_of, plan_over};
ghost use Rattle.std.specs.Prelude.{◌≡◌, ℕ, ℤ, [], IfErr, IfOk, true};

use crate::options::Options;
use crate::reading::typed_tree;
use logical_plan::{Plan, lower};
use match_rule::Patterns;
use opt_remote::gather_selectors;
use opt_remote::laws::{
    gathered_plans_are_kept, gathered_plans_are_served, selectors_are_gathered,
};
use plan_serving::laws::{
    lowered_plans_are_served, lowered_plans_give_numbers, onces_keep_serving,
    served_plans_are_served_over,
};
use promql_lex::LexFault;
use promql_type::{TypeFault, Typed};
use std::alloc::{AllocError, Global};

/// The plan of a typed tree, behind the rewrites that are chosen. Over samples whose labels are label sets it means what the tree means.
/// It gives a scalar or a vector, each of its nodes is typed, within the limits of the language it is valid, and kernels serve it where
/// the patterns of the tree are kept. The only error is want of memory.
fn planned(
    alloc: Global,
    typed: &Typed,
    options: &Options,
    patterns: &Patterns<'_>,
) -> Result<Plan, AllocError>
    // where the pattern that stands at the place of a label_replace call is that call's own
    ensures means { IfOk result (λ p. (asked : Asked) (t : ℤ) → HaveLabelSets asked → PatternsArePlaced asked.kept (placed_of typed.now) (tree_of typed.now)
        → plan_meaning asked p t ≡ shown (meaning asked (tree_of typed.now) t)) }
    ensures plan { IfOk result (λ p. p ≡ plan_of (choices_of options.now) patterns.now (placed_of typed.now) (tree_of typed.now)) }
    ensures onces { IfOk result OncesAreSteady }
    ensures typed { IfOk result IsTyped }
    ensures valid { IfOk result (λ p. (longest latest : ℕ) → IsWithinLimits longest latest (tree_of typed.now) → IsValid longest latest p) }
    ensures numbers { IfOk result GivesNumbers }
    ensures served { IfOk result (IsServedWhereKept (placed_of typed.now) (tree_of typed.now)) }
{
    lowered_plans_are_served();
    lowered_plans_give_numbers();
    onces_keep_serving();
    let _ = typed.expr();
    let plan = lower(alloc, typed)?;
    plan_rewrites::rewritten(alloc, plan, options.choices(), patterns)
}

/// The plan that a typed tree is evaluated by over a store: behind the rewrites that are chosen, but that no average is split. Over
/// samples whose labels are label sets it means what the tree means. It gives a scalar or a vector, each of its nodes is typed, within
/// the limits of the language it is valid, and kernels serve it where the patterns of the tree are kept. The only error is want of
/// memory.
pub(crate) fn evaluated(
    alloc: Global,
    typed: &Typed,
    options: &Options,
    patterns: &Patterns<'_>,
) -> Result<Plan, AllocError>
    // where the pattern that stands at the place of a label_replace call is that call's own
    ensures means { IfOk result (λ p. (asked : Asked) (t : ℤ) → HaveLabelSets asked → PatternsArePlaced asked.kept (placed_of typed.now) (tree_of typed.now)
        → plan_meaning asked p t ≡ shown (meaning asked (tree_of typed.now) t)) }
    ensures plan { IfOk result (λ p. p ≡ evaluated_plan (choices_of options.now) patterns.now (placed_of typed.now) (tree_of typed.now)) }
    ensures onces { IfOk result OncesAreSteady }
    ensures typed { IfOk result IsTyped }
    ensures valid { IfOk result (λ p. (longest latest : ℕ) → IsWithinLimits longest latest (tree_of typed.now) → IsValid longest latest p) }
    ensures numbers { IfOk result GivesNumbers }
    ensures served { IfOk result (IsServedWhereKept (placed_of typed.now) (tree_of typed.now)) }
{
    lowered_plans_are_served();
    lowered_plans_give_numbers();
    onces_keep_serving();
    let _ = typed.expr();
    let plan = lower(alloc, typed)?;
    plan_rewrites::evaluated(alloc, plan, options.choices(), patterns)
}

/// The plan that a typed tree is evaluated by where so many engines hold the samples: behind the rewrites that are chosen, and with each
/// selector as a part that all of these engines are asked for, so that it reads no samples itself. Over samples that are parted over
/// the engines by the labels that are declared to them, and whose labels are label sets, it means what the tree means. It gives a
/// scalar or a vector, within the limits of the language it is valid, and kernels serve it where the patterns of the tree are kept. The
/// only error is want of memory.
pub(crate) fn gathered(
    alloc: Global,
    typed: &Typed,
    options: &Options,
    patterns: &Patterns<'_>,
    engines: u32,
) -> Result<Plan, AllocError>
    ensures means { IfOk result (λ p. (asked : Asked) (t : ℤ) → ArePartedOver engines asked → HaveLabelSets asked → PatternsArePlaced asked.kept (placed_of typed.now) (tree_of typed.now)
        → plan_meaning asked p t ≡ shown (meaning asked (tree_of typed.now) t)) }
    ensures plan { IfOk result (λ p. p ≡ gathered_plan engines (choices_of options.now) patterns.now (placed_of typed.now) (tree_of typed.now)) }
    ensures onces { IfOk result OncesAreSteady }
    ensures valid { IfOk result (λ p. (longest latest : ℕ) → IsWithinLimits longest latest (tree_of typed.now) → IsValid longest latest p) }
    ensures numbers { IfOk result GivesNumbers }
    ensures served { IfOk result (IsServedOverWhereKept (placed_of typed.now) (tree_of typed.now)) }
    // no selector is left, and each part is one that all engines are asked for
    ensures gathered { IfOk result (λ p. is_gathered p ≡ true) }
    ensures asked { IfOk result (AsksAllWhereKept (all_engines engines) (placed_of typed.now) (tree_of typed.now)) }
{
    selectors_are_gathered();
    gathered_plans_are_kept();
    gathered_plans_are_served();
    served_plans_are_served_over();
    let plan = planned(alloc, typed, options, patterns)?;
    gather_selectors(alloc, plan, engines, patterns)
}

/// The plan of a typed tree, behind the rewrites that are chosen; where engines are declared, with each selector as a part that all of them
/// are asked for. The only error is want of memory.
fn planned_over(
    alloc: Global,
    typed: &Typed,
    options: &Options,
    engines: u32,
    patterns: &Patterns<'_>,
) -> Result<Plan, AllocError>
    ensures { IfOk result (λ p. p ≡ plan_over engines (choices_of options.now) patterns.now (placed_of typed.now) (tree_of typed.now)) }
{
    if engines == 0 {
        planned(alloc, typed, options, patterns)
    } else {
        gathered(alloc, typed, options, patterns, engines)
    }
}

/// The plan of a query's text over so many engines, or over one store where there is none, behind the rewrites that are chosen; or the one
/// refusal of the text, with its place, counted in bytes from 0. No engine is called. The patterns of the query, of which there are none
/// before, are kept; after an error some may be. The only other error is want of memory. (The optimisers of thanos-io/promql-engine.)
pub fn rewritten(
    alloc: Global,
    text: &str,
    engines: u32,
    options: &Options,
    patterns: &mut Patterns,
) -> Result<Plan, LexFault>
    requires { patterns.old ≡ [] }
    ensures plan { IfOk result (HasPlan text.now engines (choices_of options.now) options.now.closed patterns.new) }
    ensures refused { IfErr result (MayRefuse (IsRefusedWith text.now)) }
{
    match typed_tree(alloc, text, options.closed, patterns) {
        Ok(typed) => Ok(planned_over(alloc, &typed, options, engines, patterns)?),
        Err(TypeFault::Refused(refusal)) => Err(LexFault::Refused(refusal)),
        Err(TypeFault::Memory) => Err(LexFault::Memory),
    }
}
