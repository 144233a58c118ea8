//! What the samples of loads are put into.
ghost use Rattle.remote_api.specs.Seen.{EngineSeen};
ghost use Rattle.sample_store.specs.Samples.{AllSeries};
ghost use Rattle.script_read.specs.Series.{LabelList};
ghost use Rattle.std.specs.Borrow.{GName};
ghost use Rattle.std.specs.Prelude.{◌≡◌, ℕ, Bool, List, [], IfSome, length, true};
ghost use Rattle.test_runner.specs.Loading.{HasPut, MayPut};
ghost use Rattle.test_runner.specs.Loads.{is_placed, sample_put};
ghost use Rattle.test_runner.specs.Parts.{AreServed, HasGone};

use crate::fault::RunnerFault;
use label_set::Labels;
use ticks::Ms;
use xfrac::Held;

/// A series that samples are put into: the labels that engines have declared, its line, its labels, the time between its places, and
/// how many samples it may have room for.
#[derive(Clone, Copy)]
pub(crate) struct Target<'a> {
    pub declared: &'a [Labels],
    pub line: u32,
    pub labels: &'a Labels,
    pub interval: Ms,
    pub room: u32,
}

/// Takes the samples of loads, one by one.
pub(crate) trait Loaded {
    /// Where engines have declared these labels, these series may be what it holds: just these where it tells what it holds.
    ghost holds: { Self → List LabelList → AllSeries → Type 0 };

    /// Whether it judges what is put; else only what isn't refused may be put.
    ghost judges: { Bool };

    /// Where engines have declared these labels, a number is that of the series with some labels.
    ghost knows: { Self → List LabelList → LabelList → ℕ → Type 0 };

    /// What is seen of the engines that it keeps.
    ghost engines: { Self → List EngineSeen };

    /// Which references it keeps, which stay the same.
    ghost names: { Self → List GName };

    /// Puts a sample of a series that has its place. The number of the series may be known; then the labels aren't looked up.
    fn put(
        &mut self,
        target: Target<'_>,
        number: &mut Option<u32>,
        at: Ms,
        held: &Held,
    ) -> Result<(), RunnerFault>
        requires may { MayPut judges (holds self.old target.declared.now) (sample_put target.line target.labels.now at held.now) }
        requires place { is_placed target.declared.now target.labels.now ≡ true }
        requires known { IfSome number.old (knows self.old target.declared.now target.labels.now) }
        ensures put { HasPut judges (holds self.old target.entry.declared.now) (holds self.new target.entry.declared.now) (sample_put target.entry.line target.entry.labels.now at held.now) result }
        ensures known { IfSome number.new (knows self.new target.entry.declared.now target.entry.labels.now) }
        ensures gone { HasGone (length target.entry.declared.now) result (engines self.old) (engines self.new) }
        ensures names { names self.new ≡ names self.old };

    /// Drops all samples. It takes no memory.
    fn clear(&mut self, declared: &[Labels])
        requires { (series : AllSeries) × holds self.old declared.now series }
        ensures empty { holds self.new declared.now [] }
        ensures gone { AreServed (length declared.now) (engines self.old) (engines self.new) }
        ensures names { names self.new ≡ names self.old };
}
