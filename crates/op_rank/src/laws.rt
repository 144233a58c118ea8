//! A law of what is kept of a group while its rows come. The function does nothing: it stands for what its contract says.
ghost use Rattle.op_rank.specs.Laws.{BestAreFirst};

use xfrac::laws::order_is_total;

/// The k best of rows that don't tie are, in some order, the first k of the sorted list.
pub fn best_are_first()
    ensures { BestAreFirst }
{
    order_is_total();
}
