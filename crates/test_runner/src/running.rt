//! Running a script over a store: each evaluation is judged over the samples that were loaded before it, and its line is written.
ghost use Rattle.edge_io.specs.Causes.{HasCause};
ghost use Rattle.query_engine.specs.Batches.{IsBatch};
ghost use Rattle.script_check.specs.Verdicts.{HasItsPatterns, HasPatterns, KeepsPatterns};
ghost use Rattle.std.specs.Prelude.{◌≡◌, ◌<◌, ◌+◌, ◌^◌, [], ◌∷◌, Ok, length, IfErr, IfOk, IsErrOf};
ghost use Rattle.test_runner.specs.Boxes.{IsNoRun};
ghost use Rattle.test_runner.specs.Begun.{HasBegun};
ghost use Rattle.test_runner.specs.Loads.{left_by, samples_left};
ghost use Rattle.test_runner.specs.Running.{AnswersLoads, CarriedOut, HasRun, IfCut, IfOfLoads, WasCut, WasCutOff};
ghost use Rattle.test_runner.specs.Spending.{CommandSpends, CommandsSpend, EvaluationSpends};
ghost use Rattle.test_runner.specs.Steps.{IsJudgementOn, WroteLess, WroteLine};

use crate::begun::{Begun, begin};
use crate::evaluation::{Evaluation, judge_evaluation};
use crate::fault::RunnerFault;
use crate::storing::change_store;
use crate::totals::Totals;
use edge_io::{Sink, SinkFail, write_all};
use match_rule::Patterns;
use query_engine::Options;
use sample_store::Store;
use script_read::{Command, Script, What};
use std::alloc::Global;
use std::sync::ledger::Ledger;
use ticks::Work;

/// Judges an evaluation, writes the line of its verdict, and answers whether that is a pass.
fn run_evaluation<S: Sink, W: Ledger>(
    alloc: Global,
    path: &str,
    asked: Evaluation<'_>,
    store: &Store,
    searches: &mut Patterns,
    out: &mut S,
    work: &mut Work<W>,
) -> Result<bool, SinkFail>
    requires kept { HasPatterns searches.old asked.expected.now }
    requires batch { IsBatch asked.options.now.batch }
    ensures ran { IfOk result (WroteLine path.now (IsJudgementOn searches.old store.now asked.entry) (S.written out.old) (S.written out.new)) }
    ensures cut { IfErr result (λ _. WroteLess path.now (IsJudgementOn searches.old store.now asked.entry) (S.written out.old) (S.written out.new)) }
    ensures cause { HasCause (S.faults out.old) (S.faults out.new) (IsErrOf result SinkFail.Failed) }
    ensures never { S.sound out.old → IsErrOf result SinkFail.Failed → ⊥ }
    ensures sound { S.sound out.old → S.sound out.new }
    ensures same { searches.new ≡ searches.old }
    ensures bounded { EvaluationSpends store.now asked.entry work.old work.new }
{
    let line = judge_evaluation(alloc, path, asked, store, searches, work)?;
    write_all(out, &line.text)?;
    Ok(line.passed)
}

/// Carries out a command, and answers the totals of its evaluation, if it is one.
fn run_command<S: Sink, W: Ledger>(
    alloc: Global,
    path: &str,
    command: &Command,
    options: &Options,
    store: &mut Store,
    searches: &mut Patterns,
    out: &mut S,
    work: &mut Work<W>,
) -> Result<Totals, RunnerFault>
    requires kept { HasItsPatterns searches.old command.now.what }
    requires batch { IsBatch options.now.batch }
    ensures left { IfOk result (λ _. left_by [] command.now.what store.old ≡ Ok store.new) }
    ensures rests { IfOk result (λ totals. totals.passed + totals.failed ≡ 0 → work.new ≡ work.old) }
    ensures ran { IfOk result (CarriedOut options.now.closed [] searches.old path.now store.old (command.now ∷ []) (S.written out.old) (S.written out.new)) }
    ensures cut { IfErr result (λ fault. IfCut fault (WasCutOff options.now.closed [] searches.old path.now store.old (command.now ∷ []) (S.written out.old) (S.written out.new))) }
    ensures explained { IfErr result (IfOfLoads (left_by [] command.now.what store.old)) }
    ensures cause { HasCause (S.faults out.old) (S.faults out.new) (IsErrOf result RunnerFault.Write) }
    ensures never { S.sound out.old → IsErrOf result RunnerFault.Write → ⊥ }
    ensures sound { S.sound out.old → S.sound out.new }
    ensures same { searches.new ≡ searches.old }
    ensures sure { IsNoRun result }
    ensures bounded { CommandSpends options.now store.old command.now.what work.old work.new }
{
    match &command.what {
        What::Eval {
            grid,
            instant,
            text,
            expected,
        } => {
            let asked = Evaluation {
                line: command.line,
                options,
                grid,
                instant: *instant,
                text,
                expected,
            };
            let passed = run_evaluation(alloc, path, asked, store, searches, out, work)?;
            Ok(Totals::of_one(passed))
        }
        What::Clear | What::Load { .. } => {
            change_store(store, &command.what)?;
            Ok(Totals::NONE)
        }
    }
}

/// Carries out the commands of a script but for those in front, which evaluate nothing and left a store, and answers the totals of its
/// evaluations.
fn run_commands<S: Sink, W: Ledger>(
    alloc: Global,
    path: &str,
    script: &Script,
    begun: Begun,
    searches: &mut Patterns,
    options: &Options,
    out: &mut S,
    work: &mut Work<W>,
) -> Result<Totals, RunnerFault>
    requires kept { KeepsPatterns searches.old script.now }
    requires few { length script.now.commands < 2 ^ 32 }
    requires begun { HasBegun script.now.commands begun.store begun.done }
    requires batch { IsBatch options.now.batch }
    ensures ran { IfOk result (HasRun options.now.closed [] searches.old path.now script.now (S.written out.old) (S.written out.new)) }
    ensures rests { IfOk result (λ totals. totals.passed + totals.failed ≡ 0 → work.new ≡ work.old) }
    ensures cut { IfErr result (λ fault. IfCut fault (WasCut options.now.closed [] searches.old path.now script.now (S.written out.old) (S.written out.new))) }
    ensures explained { IfErr result (IfOfLoads (samples_left [] script.now)) }
    ensures cause { HasCause (S.faults out.old) (S.faults out.new) (IsErrOf result RunnerFault.Write) }
    ensures never { S.sound out.old → IsErrOf result RunnerFault.Write → ⊥ }
    ensures sound { S.sound out.old → S.sound out.new }
    ensures same { searches.new ≡ searches.old }
    ensures sure { IsNoRun result }
    ensures bounded { CommandsSpend options.now [] script.now.commands work.old work.new }
{
    let Begun { mut store, done } = begun;
    let mut totals = Totals::NONE;
    let commands = script.commands.as_slice();
    for i in done..commands.len() {
        let command = &commands[i];
        let more = run_command(
            alloc, path, command, options, &mut store, searches, out, work,
        )?;
        totals = totals.plus(more);
    }
    Ok(totals)
}

/// Runs a script over a store.
pub(crate) fn run_alone<S: Sink, W: Ledger>(
    alloc: Global,
    path: &str,
    script: &Script,
    searches: &mut Patterns,
    options: &Options,
    out: &mut S,
    work: &mut Work<W>,
) -> Result<Totals, RunnerFault>
    requires kept { KeepsPatterns searches.old script.now }
    requires few { length script.now.commands < 2 ^ 32 }
    requires batch { IsBatch options.now.batch }

    // Each evaluation's verdict was written, and these are their numbers. Nothing is counted but by evaluations.
    ensures ran { IfOk result (HasRun options.now.closed [] searches.old path.now script.now (S.written out.old) (S.written out.new)) }
    ensures rests { IfOk result (λ totals. totals.passed + totals.failed ≡ 0 → work.new ≡ work.old) }

    // A refusal of loads comes exactly where they are refused; then nothing was written or evaluated.
    ensures refused { AnswersLoads (samples_left [] script.now) result }
    ensures explained { IfErr result (IfOfLoads (samples_left [] script.now)) }
    ensures untouched { IfErr (samples_left [] script.now) (λ _. (out.new ≡ out.old) × (work.new ≡ work.old)) }

    // `Write` comes only from the sink. After it, and after want of memory, a front was written.
    ensures cause { HasCause (S.faults out.old) (S.faults out.new) (IsErrOf result RunnerFault.Write) }
    ensures never { S.sound out.old → IsErrOf result RunnerFault.Write → ⊥ }
    ensures sound { S.sound out.old → S.sound out.new }
    ensures cut { IfErr result (λ fault. IfCut fault (WasCut options.now.closed [] searches.old path.now script.now (S.written out.old) (S.written out.new))) }
    ensures same { searches.new ≡ searches.old }
    ensures sure { IsNoRun result }

    // The counters rise by at most what the plans of the evaluations cost, each over the samples that stand then.
    ensures bounded { CommandsSpend options.now [] script.now.commands work.old work.new }
{
    let begun = begin(alloc, script)?;
    run_commands(alloc, path, script, begun, searches, options, out, work)
}
