//! A law of parts. The function does nothing: it stands for what its contract says.
ghost use Rattle.plan_parts.specs.Laws.{GathersAreMeant};

use op_gather::laws::sets_stay;
use promql_meaning::laws::meanings_are_well_formed;
use step_table::laws::unions_are_sets;

/// Over engines that hold what a query says, a tree's gathers give what those of its plan do.
pub fn gathers_are_meant()
    ensures { GathersAreMeant }
{
    meanings_are_well_formed();
    unions_are_sets();
    sets_stay();
}
