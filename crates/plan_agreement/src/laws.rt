//! Laws of plans that agree. The functions do nothing: each stands for what its contract says.
ghost use Rattle.plan_agreement.specs.AgreementLaws.{AgreeingMeaningsAgree, AgreeingPlansEndAlike, DescentIsByNode, DescentsKeepAgreement, NodesKeepAgreement, NothingReplacedIsItself, PlansHaveSets};
ghost use Rattle.plan_agreement.specs.DescentLaws.{DescentsKeepOnces, DescentsKeepTypes, DescentsKeepValidity, PartsOfValidAreValid, ValidDescentsKeepAgreement, ValidIsValidPart};

use parting_laws::laws::agreeing_steps_end_alike;
use promql_meaning::laws::meanings_are_well_formed;
use step_table::laws::unions_are_sets;

/// A node over children that agree agrees, whatever its kind: the marks of the children that it reads are united into its own, and
/// Overflow is never lost.
pub fn nodes_keep_agreement()
    ensures { NodesKeepAgreement }
{
    unions_are_sets();
}

/// A plan in which parts are replaced by plans that agree with them agrees with what it was; of a valid plan it is enough that the
/// replacements of valid parts agree.
pub fn descents_keep_agreement()
    ensures any { DescentsKeepAgreement }
    ensures valid { ValidDescentsKeepAgreement }
{
    unions_are_sets();
}

/// What becomes of a plan in which parts are replaced is the plan that is put in its place, or else its node over what becomes of its
/// children; where nothing is replaced it is left as it is.
pub fn descents_go_down()
    ensures node { DescentIsByNode }
    ensures nothing { NothingReplacedIsItself }
{}

/// A typed plan stays typed and gives what it gave, where what is put in the place of its parts fits in there.
pub fn descents_keep_types()
    ensures { DescentsKeepTypes }
{}

/// The children of a valid plan are valid, but for selectors with a stamp, and so are all parts.
pub fn parts_of_valid_plans_are_valid()
    ensures parts { PartsOfValidAreValid }
    ensures whole { ValidIsValidPart }
{}

/// A valid plan stays valid and gives what it gave, where what is put in the place of its parts fits in there and is no more than these.
pub fn descents_keep_validity()
    ensures { DescentsKeepValidity }
{}

/// What stands under Once nodes stays the same at each instant, where what is put in the place of parts is as steady as these.
pub fn descents_keep_onces()
    ensures { DescentsKeepOnces }
{}

/// The notes and marks of what a plan gives are sets.
pub fn plans_have_sets()
    ensures { PlansHaveSets }
{
    unions_are_sets();
    meanings_are_well_formed();
}

/// Evaluations of plans that agree come to the same: the same answer, or the same failure at the same instant. Plans whose meanings agree
/// do.
pub fn agreeing_plans_end_alike()
    ensures ends { AgreeingPlansEndAlike }
    ensures meanings { AgreeingMeaningsAgree }
{
    plans_have_sets();
    agreeing_steps_end_alike();
}
