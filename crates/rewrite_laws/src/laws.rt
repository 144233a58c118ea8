//! The functions do nothing: each stands for what its contract says.
ghost use Rattle.opt_matchers.specs.Handing.{hand_rules};
ghost use Rattle.opt_matchers.specs.RuleOrder.{order_rules};
ghost use Rattle.opt_pushdown.specs.Pushing.{push_filter};
ghost use Rattle.opt_selects.specs.Bases.{merge_selects};
ghost use Rattle.opt_selects.specs.Selectors.{ordered, selectors};
ghost use Rattle.opt_selects.specs.Trimming.{trim};
ghost use Rattle.opt_split_avg.specs.Averages.{split_average};
ghost use Rattle.plan_rewrite.specs.Rebuilding.{rebuilt};
ghost use Rattle.rewrite_laws.specs.Keeping.{KeepsOnces, KeepsServing, KeepsTypes, KeepsValidity};
ghost use Rattle.std.specs.Prelude.{ℕ, Bool, List};

/// A typed plan stays typed, and gives a scalar, a vector or windows as it did, where the rules of its selectors are ordered,
/// where sides hand each other their rules, where selectors are merged, where sorts go, and where averages are split.
pub fn rewritten_plans_are_typed()
    ensures ordered { (kept : List (Bool × List ℕ)) → KeepsTypes (rebuilt (order_rules kept)) }
    ensures handed { KeepsTypes (rebuilt hand_rules) }
    ensures merged { KeepsTypes (λ p. rebuilt (merge_selects (ordered (selectors p))) p) }
    ensures trimmed { KeepsTypes trim }
    ensures split { KeepsTypes (rebuilt split_average) }
{}

/// A valid plan stays valid under each of these.
pub fn rewritten_plans_are_valid()
    ensures ordered { (kept : List (Bool × List ℕ)) → KeepsValidity (rebuilt (order_rules kept)) }
    ensures handed { KeepsValidity (rebuilt hand_rules) }
    ensures merged { KeepsValidity (λ p. rebuilt (merge_selects (ordered (selectors p))) p) }
    ensures trimmed { KeepsValidity trim }
    ensures split { KeepsValidity (rebuilt split_average) }
{}

/// What stands under the Once nodes of a plan stays the same at each instant under each of these, and where filters go into the
/// selectors that they stand over.
pub fn rewritten_onces_are_steady()
    ensures ordered { (kept : List (Bool × List ℕ)) → KeepsOnces (rebuilt (order_rules kept)) }
    ensures handed { KeepsOnces (rebuilt hand_rules) }
    ensures merged { KeepsOnces (λ p. rebuilt (merge_selects (ordered (selectors p))) p) }
    ensures trimmed { KeepsOnces trim }
    ensures split { KeepsOnces (rebuilt split_average) }
    ensures pushed { KeepsOnces (rebuilt push_filter) }
{}

/// Kernels serve a plan that they served still under each of these, and where filters go into the selectors that they stand over.
pub fn rewritten_plans_are_served()
    ensures ordered { (order : List (Bool × List ℕ)) → KeepsServing (rebuilt (order_rules order)) }
    ensures handed { KeepsServing (rebuilt hand_rules) }
    ensures merged { KeepsServing (λ p. rebuilt (merge_selects (ordered (selectors p))) p) }
    ensures trimmed { KeepsServing trim }
    ensures split { KeepsServing (rebuilt split_average) }
    ensures pushed { KeepsServing (rebuilt push_filter) }
{}
