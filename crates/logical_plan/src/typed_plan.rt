//! The plan of a typed tree.
ghost use Rattle.logical_plan.specs.Lowering.{PatternsArePlaced, lowered};
ghost use Rattle.logical_plan.specs.Onces.{with_onces as plan_with_onces};
ghost use Rattle.logical_plan.specs.PlanMeaning.{plan_meaning};
ghost use Rattle.logical_plan.specs.PlanTypes.{IsTyped};
ghost use Rattle.logical_plan.specs.Shown.{shown};
ghost use Rattle.logical_plan.specs.Steadiness.{OncesAreSteady};
ghost use Rattle.logical_plan.specs.Validity.{IsValid, IsWithinLimits};
ghost use Rattle.promql_meaning.specs.Meaning.{meaning};
ghost use Rattle.promql_meaning.specs.Selecting.{Asked};
ghost use Rattle.promql_type.specs.TypedTrees.{placed_of, tree_of};
ghost use Rattle.std.specs.Prelude.{◌≡◌, ℕ, ℤ, IfOk};

use crate::lowering::lower_part;
use crate::nodes::Plan;
use crate::onces::with_onces;
use promql_type::{Typed, typed_trees_fit};
use std::alloc::{AllocError, Global};

/// The plan of a typed tree: a node for each of its nodes, parentheses dropped, and a Once node over each largest part that has
/// a selector and is the same at each instant. It means what the tree means, rows, notes and marks, on every list of samples,
/// at every instant and under every grid. Each of its nodes is typed. The only error is want of memory. (This project's own; the meaning is that of
/// Prometheus querying.)
#[tactic(auto, using(crate::proofs::Lowered::plan_is_steady))]
pub fn lower(alloc: Global, e: &Typed) -> Result<Plan, AllocError>
    ensures plan { IfOk result (λ p. p ≡ plan_with_onces (lowered (placed_of e.now) (tree_of e.now))) }
    // where the pattern that stands at the place of a label_replace call is that call's own
    ensures means { IfOk result (λ p. (asked : Asked) (t : ℤ) → PatternsArePlaced asked.kept (placed_of e.now) (tree_of e.now) → plan_meaning asked p t ≡ shown (meaning asked (tree_of e.now) t)) }
    ensures onces { IfOk result OncesAreSteady }
    ensures typed { IfOk result IsTyped }
    // where the tree is within the limits of the language
    ensures valid { IfOk result (λ p. (longest latest : ℕ) → IsWithinLimits longest latest (tree_of e.now) → IsValid longest latest p) }
{
    typed_trees_fit();
    let plain = lower_part(alloc, e, e.expr())?;
    let p = with_onces(alloc, plain)?;
    Ok(p)
}
