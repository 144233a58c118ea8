//! Laws of what is collected. The functions do nothing: each stands for what its contract says.
ghost use Rattle.result_rows.specs.Judged.{CollectedIsJudged, StoppedIsJudged};

/// The answer of what was collected of all steps of an expression is its result.
pub fn collected_is_judged()
    ensures { CollectedIsJudged }
{}

/// The outcome of the first instant that ends an evaluation is its result, whatever comes behind it.
pub fn stopped_is_judged()
    ensures { StoppedIsJudged }
{}
