//! Laws of operators between vectors. The functions do nothing: each stands for what its contract says.
ghost use Rattle.op_match.specs.Apart.{PairsAreTaken};

use step_table::laws::steps_are_well_formed;

/// Where no two rows of the one side share a signature, no two pairs labels and without a group word none a signature, the
/// rows of an operator are those of its pairs.
pub fn pairs_are_taken()
    ensures { PairsAreTaken }
{
    steps_are_well_formed();
}
