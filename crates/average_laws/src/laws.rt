//! The functions do nothing: each stands for what its contract says.
ghost use Rattle.average_laws.specs.Keeping.{KeepsAverages};
ghost use Rattle.opt_split_avg.specs.Averages.{split_average};
ghost use Rattle.plan_rewrite.specs.Rebuilding.{rebuilt};

/// Where each ratio of a plan is a sum divided by the count of equal arguments by the same grouping, as it is where there is none, each is
/// one after averages were split.
pub fn split_averages_are_averages()
    ensures { KeepsAverages (rebuilt split_average) }
{}
