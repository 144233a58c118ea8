//! Laws of aggregations on which users rely that go over rows in an order of their own. The functions do nothing: each stands for
//! what its contract says.
ghost use Rattle.op_aggregate.specs.Laws.{AggregateIgnoresOrder};

use window_fn::laws::order_doesnt_matter;
use xfrac::laws::{arithmetic_gives_numbers, sum_ignores_order, sums_are_numbers};

/// What an aggregation makes of the values of a group doesn't depend on their order.
pub fn aggregates_ignore_order()
    ensures { AggregateIgnoresOrder }
{
    order_doesnt_matter();
    sum_ignores_order();
    arithmetic_gives_numbers();
    sums_are_numbers();
}
