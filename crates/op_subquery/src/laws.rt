//! Laws of the ring. The functions do nothing: each stands for what its contract says.
ghost use Rattle.op_subquery.specs.Walked.{LentAreMeant, ReadyIsExact};

use promql_meaning::laws::multiples_are_all;
use ticks::walks_are_listed;

/// A kernel that was fed the first instants of its walk is ready for an outer instant exactly where none of the walk's instants in
/// that window is still to be fed.
pub fn ready_is_exact()
    ensures { ReadyIsExact }
{}

/// And then the windows that it lends there are those that the subquery means.
pub fn lent_are_meant()
    ensures { LentAreMeant }
{
    walks_are_listed();
    multiples_are_all();
}
