//! The functions do nothing: each stands for what its contract says.
ghost use Rattle.plan_serving.specs.ServingLaws.{LoweredPlansAreServed, LoweredPlansGiveNumbers, OncesKeepServing, ServedPlansAreServedOver};

use promql_type::typed_trees_fit;

/// Kernels serve the plan of a tree that isn't refused and whose patterns are kept, and no filter stands in it.
pub fn lowered_plans_are_served()
    ensures { LoweredPlansAreServed }
{
    typed_trees_fit();
}

/// They serve it with its Once nodes too.
pub fn onces_keep_serving()
    ensures { OncesKeepServing }
{}

/// The plan of a tree that gives a scalar or a vector gives one, with its Once nodes.
pub fn lowered_plans_give_numbers()
    ensures { LoweredPlansGiveNumbers }
{}

/// What kernels serve without engines they serve over engines too.
pub fn served_plans_are_served_over()
    ensures { ServedPlansAreServedOver }
{}
