//! Rewrites that are chosen.
ghost use Rattle.logical_plan.specs.PlanMeaning.{plan_meaning};
ghost use Rattle.logical_plan.specs.PlanTypes.{IsTyped};
ghost use Rattle.logical_plan.specs.Steadiness.{OncesAreSteady};
ghost use Rattle.logical_plan.specs.Validity.{IsValid};
ghost use Rattle.opt_matchers.specs.Handing.{HaveLabelSets, hand_rules};
ghost use Rattle.opt_matchers.specs.RuleOrder.{order_rules};
ghost use Rattle.opt_selects.specs.Trimming.{trim as trim_plan};
ghost use Rattle.opt_split_avg.specs.Averages.{split_average};
ghost use Rattle.plan_rewrite.specs.Rebuilding.{MeanTheSame, rebuilt};
ghost use Rattle.plan_rewrites.specs.Rewriting.{chosen, evaluating, merged, rewrites};
ghost use Rattle.plan_serving.specs.Serving.{IsServed};
ghost use Rattle.promql_meaning.specs.Selecting.{Asked};
ghost use Rattle.promql_type.specs.Replacements.{Kept};
ghost use Rattle.rewrite_laws.specs.Keeping.{StaysTyped};
ghost use Rattle.std.specs.Prelude.{◌≡◌, ℕ, ℤ, IfOk};

use logical_plan::Plan;
use match_rule::Patterns;
use opt_matchers::{propagate, sort};
use opt_selects::{merge, trim};
use opt_split_avg::apply;
use rewrite_laws::laws::{
    rewritten_onces_are_steady, rewritten_plans_are_served, rewritten_plans_are_typed,
    rewritten_plans_are_valid,
};
use std::alloc::{AllocError, Global};

/// Which rewrites a plan goes through.
#[derive(Clone, Copy, Debug, PartialEq, Eq)]
pub struct Choices {
    /// The rules of each selector are ordered.
    pub sort: bool,
    /// The sides of an arithmetic operator hand each other their rules.
    pub propagate: bool,
    /// A selector stands over another one that has a part of its rules.
    pub merge: bool,
    /// Sorts that order nothing that is seen go.
    pub trim: bool,
    /// An average is a sum divided by a count.
    pub avg: bool,
}

fn sorted(alloc: Global, p: Plan, wanted: bool, patterns: &Patterns<'_>) -> Result<Plan, AllocError>
    ensures plan { IfOk result (λ q. q ≡ chosen wanted (rebuilt (order_rules patterns.now)) p) }
    ensures means { IfOk result (λ q. MeanTheSame q p) }
{
    if wanted {
        sort(alloc, p, patterns)
    } else {
        Ok(p)
    }
}

fn propagated(alloc: Global, p: Plan, wanted: bool) -> Result<Plan, AllocError>
    ensures plan { IfOk result (λ q. q ≡ chosen wanted (rebuilt hand_rules) p) }
    ensures means { IfOk result (λ q. (asked : Asked) (t : ℤ) → HaveLabelSets asked → plan_meaning asked q t ≡ plan_meaning asked p t) }
{
    if wanted { propagate(alloc, p) } else { Ok(p) }
}

fn merged(alloc: Global, p: Plan, wanted: bool) -> Result<Plan, AllocError>
    ensures plan { IfOk result (λ q. q ≡ chosen wanted merged p) }
    ensures means { IfOk result (λ q. MeanTheSame q p) }
{
    if wanted { merge(alloc, p) } else { Ok(p) }
}

fn trimmed(alloc: Global, p: Plan, wanted: bool) -> Result<Plan, AllocError>
    ensures plan { IfOk result (λ q. q ≡ chosen wanted trim_plan p) }
    ensures means { IfOk result (λ q. IsTyped p → MeanTheSame q p) }
{
    if wanted { trim(alloc, p) } else { Ok(p) }
}

fn split(alloc: Global, p: Plan, wanted: bool) -> Result<Plan, AllocError>
    ensures plan { IfOk result (λ q. q ≡ chosen wanted (rebuilt split_average) p) }
    ensures means { IfOk result (λ q. MeanTheSame q p) }
{
    if wanted { apply(alloc, p) } else { Ok(p) }
}

/// A plan behind the rewrites that are chosen, in this order: the rules of selectors are ordered, sides hand each other their
/// rules, selectors are merged, sorts go, averages are split. A plan's patterns are those that are kept under their numbers. A
/// typed plan means what it meant, rows, notes and marks, on every list of samples whose labels are label sets, at every instant;
/// it stays typed, a valid plan stays valid, what stands under Once nodes stays the same at each instant, and kernels serve what they
/// served. The only error is want of memory. (The optimisers of thanos-io/promql-engine; their order is this project's own.)
pub fn rewritten(
    alloc: Global,
    p: Plan,
    choices: Choices,
    patterns: &Patterns<'_>,
) -> Result<Plan, AllocError>
    ensures plan { IfOk result (λ q. q ≡ rewrites choices patterns.now p) }
    ensures means { IfOk result (λ q. (asked : Asked) (t : ℤ) → IsTyped p → HaveLabelSets asked → plan_meaning asked q t ≡ plan_meaning asked p t) }
    ensures typed { IfOk result (λ q. IsTyped p → StaysTyped p q) }
    ensures valid { IfOk result (λ q. (longest latest : ℕ) → IsValid longest latest p → IsValid longest latest q) }
    ensures onces { IfOk result (λ q. OncesAreSteady p → OncesAreSteady q) }
    ensures served { IfOk result (λ q. (kept : Kept) → IsServed kept p → IsServed kept q) }
{
    rewritten_plans_are_typed();
    rewritten_plans_are_valid();
    rewritten_onces_are_steady();
    rewritten_plans_are_served();
    let ordered = sorted(alloc, p, choices.sort, patterns)?;
    let handed = propagated(alloc, ordered, choices.propagate)?;
    let joined = merged(alloc, handed, choices.merge)?;
    let bare = trimmed(alloc, joined, choices.trim)?;
    let q = split(alloc, bare, choices.avg)?;
    Ok(q)
}

/// A plan as it is evaluated where one store holds all samples: behind the rewrites that are chosen but one. An average isn't split,
/// since the sum and the count would both be made of the same samples. Otherwise as with all rewrites that are chosen. The only error
/// is want of memory. (This project's own.)
pub fn evaluated(
    alloc: Global,
    p: Plan,
    choices: Choices,
    patterns: &Patterns<'_>,
) -> Result<Plan, AllocError>
    ensures plan { IfOk result (λ q. q ≡ rewrites (evaluating choices) patterns.now p) }
    ensures means { IfOk result (λ q. (asked : Asked) (t : ℤ) → IsTyped p → HaveLabelSets asked → plan_meaning asked q t ≡ plan_meaning asked p t) }
    ensures typed { IfOk result (λ q. IsTyped p → StaysTyped p q) }
    ensures valid { IfOk result (λ q. (longest latest : ℕ) → IsValid longest latest p → IsValid longest latest q) }
    ensures onces { IfOk result (λ q. OncesAreSteady p → OncesAreSteady q) }
    ensures served { IfOk result (λ q. (kept : Kept) → IsServed kept p → IsServed kept q) }
{
    let whole = Choices {
        sort: choices.sort,
        propagate: choices.propagate,
        merge: choices.merge,
        trim: choices.trim,
        avg: false,
    };
    rewritten(alloc, p, whole, patterns)
}
