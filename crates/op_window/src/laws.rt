//! Laws of functions of windows. The functions do nothing: each stands for what its contract says.
ghost use Rattle.op_window.specs.Rules.{RulesAreNotRead};
ghost use Rattle.series_marks.specs.Reaches.{FetchedIsBounded, ProbedIsBounded};
ghost use Rattle.std.specs.Prelude.{ℤ, ◌<ℤ◌, pos};

/// The rules by which windows were selected make no difference.
pub fn rules_are_not_read()
    ensures { RulesAreNotRead }
{}

/// Over any list of feeds, which rise by what each clause of `feed_store` says, the samples that are read are no more than the bound
/// of the leaf, whatever the batches and however many windows a sample lies in; and no more than 64 times are looked at for a series.
pub fn feeds_are_bounded()
    ensures fetched { (range : ℤ) → pos 0 <ℤ range → FetchedIsBounded range }
    ensures probed { (range : ℤ) → ProbedIsBounded range }
{
    series_marks::laws::feeds_are_bounded();
}
