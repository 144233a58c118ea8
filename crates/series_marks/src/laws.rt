//! Laws of marks. The functions do nothing: each stands for what its contract says.
ghost use Rattle.sample_store.specs.Samples.{Samples};
ghost use Rattle.series_marks.specs.Reaches.{FetchedIsBounded, ProbedIsBounded};
ghost use Rattle.series_marks.specs.Reads.{Rises, read_at, span_bound};
ghost use Rattle.std.specs.Prelude.{◌<ℤ◌, ◌≤◌, ◌≤ℤ◌, ℤ, None, pos};

/// What is read of a series is within its bound: the samples of the span, and one more where none stands at its right end.
pub fn reads_are_bounded()
    ensures { (e m : ℤ) (samples : Samples) → Rises None samples → e <ℤ m → read_at e m samples ≤ span_bound e m samples }
{}

/// No less is read up to a later moment.
#[tactic(auto, using(crate::specs::Walked::reads_later))]
pub fn reads_rise()
    ensures { (e a b : ℤ) (samples : Samples) → a ≤ℤ b → read_at e a samples ≤ read_at e b samples }
{}

/// Over any list of feeds, which rise by what a kernel reads more, the samples that are read are no more than the bound of the
/// leaf, whatever the batches; and no more than 64 times are looked at for a series.
#[tactic(auto, using(crate::specs::Spent::fetched_bounded, crate::specs::Spent::probed_bounded))]
pub fn feeds_are_bounded()
    ensures fetched { (back : ℤ) → pos 0 <ℤ back → FetchedIsBounded back }
    ensures probed { (back : ℤ) → ProbedIsBounded back }
{}
