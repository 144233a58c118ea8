//! Laws of kernels, for those that build trees of them. The functions do nothing: each stands for what its contract says.
ghost use Rattle.step_kernels.specs.Laws.{BinariesGoOver, BinariesKeepSets, BinariesStayScalars, ElementsKeepSets, FewRowsAreScalars, PointsKeepSets, SidesAreTogether, UnariesGoOver, UnariesKeepSets, UnariesMakeScalars, UnariesStayScalars, WindowsKeepSets};

use step_batch::laws::lent_steps_are_tables;
use step_table::laws::unions_are_sets;

/// What is made of steps that are told for each instant is told for each instant too, and two parts that were fed the same
/// instants are together.
pub fn steps_go_over()
    ensures unary { UnariesGoOver }
    ensures binary { BinariesGoOver }
    ensures sides { SidesAreTogether }
{}

/// Steps of at most one row each are lent as a scalar.
pub fn few_rows_are_scalars()
    ensures { FewRowsAreScalars }
{
    lent_steps_are_tables();
}

/// Of one row at most the kernels that go row by row make one at most; of any rows `scalar` and `absent` do.
pub fn scalars_stay()
    ensures unary { UnariesStayScalars }
    ensures binary { BinariesStayScalars }
    ensures made { UnariesMakeScalars }
{}

/// Marks and notes stay sets: those of what a kernel makes, of a function of windows, and of the windows of a subquery.
pub fn marks_stay_sets()
    ensures unary { UnariesKeepSets }
    ensures binary { BinariesKeepSets }
    ensures elements { ElementsKeepSets }
    ensures windows { WindowsKeepSets }
    ensures points { PointsKeepSets }
{
    unions_are_sets();
}
