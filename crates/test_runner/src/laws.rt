//! Laws of loading and judging that users rely on. The functions do nothing: each stands for what its contract says.
ghost use Rattle.test_runner.specs.Lines.{failed_in, passed_in};
ghost use Rattle.test_runner.specs.Loads.{IsSaid, Stands, line_put, samples_left};
ghost use Rattle.test_runner.specs.Verdicts.{AreVerdicts, Judged, evaluation_lines};
ghost use Rattle.script_check.specs.Verdicts.{PatternList};
ghost use Rattle.script_read.specs.Series.{LabelList};
ghost use Rattle.script_read.specs.declared.script.Command.{Command};
ghost use Rattle.script_read.specs.declared.script.Script.{Script};
ghost use Rattle.script_read.specs.declared.script.SeriesLine.{SeriesLine};
ghost use Rattle.sample_store.specs.Samples.{AllSeries};
ghost use Rattle.std.specs.Prelude.{◌≡◌, ◌+◌, ◌↔◌, ◌⊎◌, ℕ, Bool, List, [], Ok, length, map};
ghost use Rattle.ticks.specs.declared.moment.Ms.{Ms};
ghost use Rattle.xfrac.specs.declared.value.Held.{Held};

/// Where a line of a load is taken, those samples stand that stood before and those that the line says, and no others.
pub fn loads_put_their_samples()
    ensures { (declared : List LabelList) (interval : Ms) (line : SeriesLine) (before now : AllSeries) → line_put declared interval line before ≡ Ok now → (labels : LabelList) (at : Ms) (held : Held) →
        Stands now labels at held ↔ (Stands before labels at held ⊎ IsSaid interval line labels at held) }
{}

/// Where no load of a script is refused, its loads leave the same samples, whichever engines are declared.
pub fn engines_leave_the_same()
    ensures { (declared : List LabelList) (script : Script) (series : AllSeries) → samples_left declared script ≡ Ok series → samples_left [] script ≡ Ok series }
{}

/// Commands have one verdict for each of their evaluations, in order, and each of these is a pass or a fail.
pub fn each_evaluation_has_one_verdict()
    ensures lines { (closed : Bool) (declared : List LabelList) (kept : PatternList) (series : AllSeries) (commands : List Command) (verdicts : List Judged) → AreVerdicts closed declared kept series commands verdicts →
        map (λ judged. judged.line) verdicts ≡ evaluation_lines commands }
    ensures totals { (closed : Bool) (declared : List LabelList) (kept : PatternList) (series : AllSeries) (commands : List Command) (verdicts : List Judged) → AreVerdicts closed declared kept series commands verdicts →
        passed_in verdicts + failed_in verdicts ≡ length (evaluation_lines commands) }
{}
