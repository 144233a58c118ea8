//! Laws of plans. The functions do nothing: each stands for what its contract says.
ghost use Rattle.logical_plan.specs.Laws.{PlanMeansItsTree};
ghost use Rattle.logical_plan.specs.Placements.{KeptPatternsArePlaced};
ghost use Rattle.logical_plan.specs.Onces.{OncesKeepMeanings, OncesStandOverSteady};
ghost use Rattle.logical_plan.specs.Steadiness.{SteadyPlanStays};
ghost use Rattle.logical_plan.specs.Validity.{CheckedTreesAreWithinLimits, OncesKeepValidity};

use promql_type::typed_trees_fit;

/// The plan of a tree means what the tree means, on every list of samples, at every instant and under every grid.
pub fn plans_mean_their_trees()
    ensures { PlanMeansItsTree }
{}

/// A plan whose selectors and subqueries have fixed times, and in which nothing reads the instant, means the same at each instant.
pub fn steady_plans_stay()
    ensures { SteadyPlanStays }
{}

/// A plan with its Once nodes means what it means without them, and they stand over what means the same at each instant.
pub fn onces_keep_meanings()
    ensures meanings { OncesKeepMeanings }
    ensures steady { OncesStandOverSteady }
{}

/// The patterns that checking a tree keeps are found at the places of its label_replace calls, where calls at one place have
/// one pattern.
pub fn kept_patterns_are_placed()
    ensures { KeptPatternsArePlaced }
{
    typed_trees_fit();
}

/// The typed tree of a tree that was read and not refused is within the limits that make its plan valid.
pub fn checked_trees_are_within_limits()
    ensures { CheckedTreesAreWithinLimits }
{}

/// A plan with its Once nodes is valid where it is valid without them.
pub fn onces_keep_validity()
    ensures { OncesKeepValidity }
{}
