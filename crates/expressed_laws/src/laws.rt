//! Laws of the expressions of plans. The functions do nothing: each stands for what its contract says.
ghost use Rattle.expressed_laws.specs.Expressions.{ExpressionsAreAsSteady, ExpressionsAreUnrefused, ExpressionsAreWithin, ExpressionsHaveNoSelector, ExpressionsMean, ScalarsGiveScalars, VectorsAreParts};

use logical_plan::plans_mean_their_trees;

/// The expression of a plan means what the plan means, rows, notes and marks, on every list of samples, at every instant and under every
/// grid.
pub fn expressions_mean_their_plans()
    ensures { ExpressionsMean }
{
    plans_mean_their_trees();
}

/// The expression of a plan gives what the plan gives, a scalar, a vector or windows, and nothing in it is refused; its subqueries have few
/// enough points where those of the plan have; and its patterns are those of the plan. So engines can be asked for the rows of a plan that
/// gives a vector, and for their groups.
pub fn expressions_are_unrefused()
    ensures unrefused { ExpressionsAreUnrefused }
    ensures vectors { VectorsAreParts }
{}

/// The expression of a plan is within the limits that the plan is within, and no deeper; it is the same at each instant where the plan is
/// known to be; a selector stands in it only where one stands in the plan; and that of a plan that gives a scalar gives a scalar.
pub fn expressions_are_no_more()
    ensures within { ExpressionsAreWithin }
    ensures steady { ExpressionsAreAsSteady }
    ensures selectors { ExpressionsHaveNoSelector }
    ensures scalars { ScalarsGiveScalars }
{}
