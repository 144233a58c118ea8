//! Laws of what is read. The functions do nothing: each stands for what its contract says.
ghost use Rattle.promql_meaning.specs.Selecting.{lookback};
ghost use Rattle.series_marks.specs.Reaches.{FetchedIsBounded, ProbedIsBounded};

/// Over any list of feeds, which rise by what each clause of `feed` says, the samples that are read are no more than the bound of
/// the leaf, whatever the batches; and no more than 64 times are looked at for a series.
pub fn feeds_are_bounded()
    ensures fetched { FetchedIsBounded lookback }
    ensures probed { ProbedIsBounded lookback }
{
    series_marks::laws::feeds_are_bounded();
}
