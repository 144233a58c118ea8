//! Judging an evaluation: the line of its verdict.
ghost use Rattle.query_engine.specs.Batches.{IsBatch};
ghost use Rattle.script_check.specs.Verdicts.{HasPatterns};
ghost use Rattle.std.specs.Prelude.{◌≡◌, IfOk};
ghost use Rattle.test_runner.specs.Lines.{is_pass};
ghost use Rattle.test_runner.specs.Spending.{EvaluationSpends};
ghost use Rattle.test_runner.specs.Steps.{IsJudgementOn, IsLine};
ghost use Rattle.test_runner.specs.Verdicts.{judgement};

use crate::alone::evaluate_alone;
use crate::batch::options_over;
use crate::text::verdict_line;
use holders::Text;
use match_rule::Patterns;
use promql_meaning::Outcome;
use query_engine::Options;
use sample_store::Store;
use script_check::{Verdict, append_outcome, judge};
use script_read::Expectations;
use std::alloc::{AllocError, Global};
use std::sync::ledger::Ledger;
use ticks::{Grid, Work};

/// An evaluation of a script, with its line, counted from 1, and what is chosen for it.
#[derive(Clone, Copy)]
pub struct Evaluation<'a> {
    pub line: u32,
    pub options: &'a Options,
    pub grid: &'a Grid,
    pub instant: bool,
    pub text: &'a Text,
    pub expected: &'a Expectations,
}

/// The line of a verdict, and whether that is a pass.
#[derive(Drop)]
pub struct VerdictLine {
    pub text: Vec<u8>,
    pub passed: bool,
}

fn is_pass(verdict: &Verdict) -> bool
    ensures { result ≡ is_pass verdict.now }
{
    match verdict {
        Verdict::Pass => true,
        Verdict::Fail(_) => false,
    }
}

/// An outcome against what is expected of it. The only error is want of memory.
pub(crate) fn judge_outcome(
    alloc: Global,
    path: &str,
    asked: Evaluation<'_>,
    outcome: &Outcome,
    searches: &mut Patterns,
) -> Result<VerdictLine, AllocError>
    requires { HasPatterns searches.old asked.expected.now }
    ensures line { IfOk result (λ line. IsLine path.now (λ judged. judged ≡ judgement searches.old asked.entry.line asked.entry.instant asked.entry.expected.now outcome.now) line.text.items line.passed) }
    ensures same { searches.new ≡ searches.old }
{
    let verdict = judge(alloc, asked.expected, asked.instant, outcome, searches)?;
    let mut told = Vec::new(alloc);
    append_outcome(alloc, outcome, &mut told)?;
    let text = verdict_line(alloc, path, asked.line, asked.instant, &told, &verdict)?;
    Ok(VerdictLine {
        text,
        passed: is_pass(&verdict),
    })
}

/// What an evaluation comes to over the samples of a store, against what is expected of it. Its batch is lowered for many
/// series. On any answer the counters rise by at most what its plan costs. The only error is want of memory.
pub fn judge_evaluation<W: Ledger>(
    alloc: Global,
    path: &str,
    asked: Evaluation<'_>,
    store: &Store,
    searches: &mut Patterns,
    work: &mut Work<W>,
) -> Result<VerdictLine, AllocError>
    requires kept { HasPatterns searches.old asked.expected.now }
    requires batch { IsBatch asked.options.now.batch }
    ensures line { IfOk result (λ line. IsLine path.now (IsJudgementOn searches.old store.now asked.entry) line.text.items line.passed) }
    ensures same { searches.new ≡ searches.old }
    ensures bounded { EvaluationSpends store.now asked.entry work.old work.new }
{
    let text = asked.text.as_str();
    let options = options_over(asked.options, store);
    let outcome = evaluate_alone(
        alloc,
        text,
        asked.grid,
        asked.instant,
        &options,
        store,
        work,
    )?;
    judge_outcome(alloc, path, asked, &outcome, searches)
}
