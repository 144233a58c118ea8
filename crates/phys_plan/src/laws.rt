//! A law of trees of plans. The function does nothing: it stands for what its contract says.
ghost use Rattle.phys_plan.specs.Laws.{SteadyOncesStay};

use logical_plan::steady_plans_stay;

/// What stands below the Once nodes of a plan that was lowered gives the same at all instants, as its tree relies on.
pub fn steady_onces_stay()
    ensures { SteadyOncesStay }
{
    steady_plans_stay();
}
