//! An engine that doesn't do what it is asked.
ghost use Rattle.written_engines.specs.Untold.{IsLate, seen_untold};
ghost use Rattle.remote_api.specs.Seen.{HasPulled, MayPull};
ghost use Rattle.std.specs.Ordering.{int_eq};
ghost use Rattle.std.specs.Prelude.{◌≡◌, ◌≤◌, ℕ, List, [], false, length, slice_get, Some};
ghost use Rattle.step_table.specs.declared.cells.StepCells.{StepCells};

use engine_local::LocalEngine;
use label_set::{Items, Labels};
use match_rule::Patterns;
use promql_meaning::no_marks;
use remote_api::{Engine, EngineFail, Frame, Part, Pulled, Stray};
use std::alloc::Global;
use step_table::StepCells;
use ticks::{Grid, Ms, Walk};
use xfrac::Held;

/// An engine over samples that it doesn't tell. Behind some pulls it fails, or gives a step without rows at another instant than the
/// one that is to come.
#[derive(Drop)]
pub struct Faulty {
    alloc: Global,
    inner: LocalEngine,
    good: u32,
    fails: bool,
    faults: u64,
    strays: u64,
    stray: Option<Stray>,
}

/// Another instant.
fn other(t: Ms) -> Ms
    ensures { int_eq t.0 result.0 ≡ false }
{
    if t.0 == 0 { Ms(1) } else { Ms(0) }
}

/// The instant of the first step.
fn first_at(steps: &Items<StepCells>) -> Ms
    requires { 1 ≤ length steps.now }
    ensures { (step : StepCells) → slice_get steps.now 0 ≡ Some step → result ≡ step.at }
{
    steps.as_slice()[0].at
}

impl Faulty {
    /// It has the samples of an engine, and its first pulls are as they ought to be.
    pub fn new(alloc: Global, inner: LocalEngine, good: u32, fails: bool) -> Faulty {
        Faulty {
            alloc,
            inner,
            good,
            fails,
            faults: 0,
            strays: 0,
            stray: None,
        }
    }

    /// Puts a step at another instant in the place of the first one.
    fn go_astray(&mut self, frame: &mut Frame)
        requires { 1 ≤ length frame.old.steps }
        ensures late { IsLate frame.old.steps frame.new.steps self.old.strays self.new.strays self.new.stray }
        ensures inner { self.new.inner ≡ self.old.inner }
        ensures faults { self.new.faults ≡ self.old.faults }
    {
        let expected = first_at(&frame.steps);
        let got = other(expected);
        let late = StepCells {
            at: got,
            rows: Items::new(self.alloc),
            marks: no_marks(self.alloc),
        };
        let _ = frame.steps.replace(0, late);
        self.strays = self.strays.saturating_add(1);
        self.stray = Some(Stray::OutOfStep {
            expected: Some(expected),
            got: Some(got),
        });
    }

    /// Gives what its engine gives.
    fn pass_on(
        &mut self,
        ask: usize,
        most: u32,
        patterns: &mut Patterns<'_>,
        frame: &mut Frame,
    ) -> Result<Pulled, EngineFail>
        requires may { MayPull ask patterns.old (seen_untold self.old.inner self.old.faults self.old.strays self.old.stray) }
        requires some { 1 ≤ most }
        requires empty { frame.old.steps ≡ [] }
        ensures same { patterns.new ≡ patterns.old }
        ensures pulled { HasPulled ask most frame.new.steps result (seen_untold self.old.inner self.old.faults self.old.strays self.old.stray) (seen_untold self.new.inner self.new.faults self.new.strays self.new.stray) }
    {
        self.inner.pull(ask, most, patterns, frame)
    }

    /// Gives nothing.
    fn fail(&mut self) -> Result<Pulled, EngineFail>
        ensures { (place most : ℕ) (steps : List StepCells) → steps ≡ [] → HasPulled place most steps result (seen_untold self.old.inner self.old.faults self.old.strays self.old.stray) (seen_untold self.new.inner self.new.faults self.new.strays self.new.stray) }
    {
        self.faults = self.faults.saturating_add(1);
        Err(EngineFail::Failed)
    }

    /// Gives what its engine gives, but for the instant and the rows of the first step.
    fn pull_late(
        &mut self,
        ask: usize,
        most: u32,
        patterns: &mut Patterns<'_>,
        frame: &mut Frame,
    ) -> Result<Pulled, EngineFail>
        requires may { MayPull ask patterns.old (seen_untold self.old.inner self.old.faults self.old.strays self.old.stray) }
        requires some { 1 ≤ most }
        requires empty { frame.old.steps ≡ [] }
        ensures same { patterns.new ≡ patterns.old }
        ensures pulled { HasPulled ask most frame.new.steps result (seen_untold self.old.inner self.old.faults self.old.strays self.old.stray) (seen_untold self.new.inner self.new.faults self.new.strays self.new.stray) }
    {
        match self.inner.pull(ask, most, patterns, frame) {
            Ok(Pulled::Frame) => {
                self.go_astray(frame);
                Ok(Pulled::Frame)
            }
            Ok(Pulled::End) => Ok(Pulled::End),
            Err(failed) => Err(failed),
        }
    }
}

impl Engine for Faulty {
    ghost seen = { λ f. seen_untold f.inner f.faults f.strays f.stray };

    fn declare(&mut self, _labels: &Labels) -> Result<(), EngineFail> {
        Ok(())
    }

    fn load(&mut self, _labels: &Labels, _at: Ms, _held: &Held) -> Result<(), EngineFail> {
        Ok(())
    }

    fn clear(&mut self) {}

    fn begin(&mut self) {
        self.inner.begin();
    }

    fn ask(
        &mut self,
        part: &Part,
        walk: &Walk,
        span: &Grid,
        patterns: &mut Patterns<'_>,
    ) -> Result<usize, EngineFail> {
        self.inner.ask(part, walk, span, patterns)
    }

    fn pull(
        &mut self,
        ask: usize,
        most: u32,
        patterns: &mut Patterns<'_>,
        frame: &mut Frame,
    ) -> Result<Pulled, EngineFail> {
        if self.good > 0 {
            self.good -= 1;
            return self.pass_on(ask, most, patterns, frame);
        }
        if self.fails {
            return self.fail();
        }
        self.pull_late(ask, most, patterns, frame)
    }
}
