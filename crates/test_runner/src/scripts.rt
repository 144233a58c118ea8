//! Running a script: over a store, or over the engines that are declared.
ghost use Rattle.edge_io.specs.Causes.{HasCause};
ghost use Rattle.query_engine.specs.Batches.{IsBatch};
ghost use Rattle.exchange.specs.Calls.{Each};
ghost use Rattle.query_engine.specs.Engines.{DoNotRise};
ghost use Rattle.remote_api.specs.Seen.{KeepsStrays};
ghost use Rattle.script_check.specs.Verdicts.{KeepsPatterns};
ghost use Rattle.std.specs.Prelude.{◌≡◌, ◌<◌, ◌+◌, ◌^◌, [], length, map, take, IfErr, IfOk, IsErrOf, OnOk};
ghost use Rattle.test_runner.specs.Boxes.{AllTell, AreReady, AreSound, IfRun, IsNoRun, LeavesServing, RunFaulted, StoppedAt};
ghost use Rattle.test_runner.specs.Loads.{samples_left};
ghost use Rattle.test_runner.specs.Running.{AnswersLoads, HasRun, IfCut, IfOfLoads, WasCut};
ghost use Rattle.test_runner.specs.Spending.{CommandsSpend};

use crate::fault::RunnerFault;
use crate::over::run_over;
use crate::placing::are_none;
use crate::running::run_alone;
use crate::totals::Totals;
use edge_io::Sink;
use holders::Items;
use label_set::Labels;
use match_rule::Patterns;
use query_engine::Options;
use remote_api::{Courier, Engine};
use script_read::Script;
use std::alloc::Global;
use std::sync::ledger::Ledger;
use ticks::Work;

/// Runs a script under a path: first all its loads are judged, then its commands are carried out in order, and each
/// evaluation's line is written as it ends. All are evaluated with the same options, but for the batch, which is lowered where many
/// series are loaded into a store. `searches` keeps the patterns that the script names. `Refused` and `Range` come
/// exactly where a load is refused, with the first refusal; then nothing was evaluated or written. After `Write`, which
/// comes only where a write failed, and after want of memory, a front of the lines of the script's first evaluations was
/// written.
///
/// With no engine declared it runs over a store; no box is touched, and on any answer the counters rise by at most what the plans of its
/// evaluations cost.
///
/// Else it runs over the declared engines, which are the first boxes; no counter rises. Where an evaluation follows, their asks are
/// forgotten and their samples of before are dropped, and then each load and clear that an evaluation follows is carried out: a sample is
/// put into the engine that has its series' labels. `Run` comes where an engine failed or strayed, counted from 0: its declared labels
/// went, its box stands behind all others, which stay in their order, and the lines of the evaluations before were written. After every
/// other answer boxes and declared labels stand in their order. The lines are those of the script where each declared engine tells what it
/// holds, whichever the courier picks. (The files of promqltest; the engines are those of thanos-io/promql-engine's distributed queries.)
pub fn run<S: Sink, C: Courier, W: Ledger>(
    alloc: Global,
    path: &str,
    script: &Script,
    searches: &mut Patterns,
    options: &Options,
    engines: &mut Vec<Box<dyn Engine>>,
    declared: &mut Items<Labels>,
    courier: &mut C,
    out: &mut S,
    work: &mut Work<W>,
) -> Result<Totals, RunnerFault>
    requires kept { KeepsPatterns searches.old script.now }
    requires few { length script.now.commands < 2 ^ 32 }
    requires batch { IsBatch options.now.batch }
    requires ready { AreReady declared.old (map (λ b. seen b) engines.old.items) }

    // Each evaluation's verdict was written, and these are their numbers. Nothing is counted but by evaluations.
    ensures ran { AllTell (length declared.old) (map (λ b. seen b) engines.old.items) → IfOk result (HasRun options.now.closed declared.old searches.old path.now script.now (S.written out.old) (S.written out.new)) }
    ensures rests { IfOk result (λ totals. totals.passed + totals.failed ≡ 0 → work.new ≡ work.old) }

    // A refusal of loads comes exactly where they are refused; then nothing was written or evaluated, and no box was touched.
    ensures refused { AnswersLoads (samples_left declared.old script.now) result }
    ensures explained { IfErr result (IfOfLoads (samples_left declared.old script.now)) }
    ensures untouched { IfErr (samples_left declared.old script.now) (λ _. (out.new ≡ out.old) × (work.new ≡ work.old) × (engines.new.items ≡ engines.old.items) × (declared.new ≡ declared.old)) }

    // `Write` comes only from the sink. After it, and after want of memory, a front was written.
    ensures cause { HasCause (S.faults out.old) (S.faults out.new) (IsErrOf result RunnerFault.Write) }
    ensures never { S.sound out.old → IsErrOf result RunnerFault.Write → ⊥ }
    ensures sound { S.sound out.old → S.sound out.new }
    ensures cut { AllTell (length declared.old) (map (λ b. seen b) engines.old.items) → IfErr result (λ fault. IfCut fault (WasCut options.now.closed declared.old searches.old path.now script.now (S.written out.old) (S.written out.new))) }
    ensures same { searches.new ≡ searches.old }

    // The counters rise by at most what the plans of the evaluations cost, each over the samples that stand then; over engines none rises.
    ensures bounded { declared.old ≡ [] → CommandsSpend options.now [] script.now.commands work.old work.new }
    ensures unmoved { 0 < length declared.old → DoNotRise work.old work.new }

    // An engine that failed or strayed was lost, and the lines of the evaluations before stand; else none has strayed. Engines that are sound and tell are never.
    ensures boxes { LeavesServing result declared.old declared.new (map (λ b. seen b) engines.old.items) (map (λ b. seen b) engines.new.items) }
    ensures faulted { RunFaulted result (map (λ b. seen b) engines.old.items) (map (λ b. seen b) engines.new.items) }
    ensures calm { OnOk result (Each KeepsStrays (map (λ b. seen b) engines.old.items) (map (λ b. seen b) engines.new.items)) }
    ensures stopped { AllTell (length declared.old) (map (λ b. seen b) engines.old.items) → IfRun result (StoppedAt options.now.closed searches.old path.now declared.old script.now (S.written out.old) (S.written out.new)) }
    ensures alone { declared.old ≡ [] → engines.new.items ≡ engines.old.items }
    ensures alone_sure { declared.old ≡ [] → IsNoRun result }
    ensures sure { AllTell (length declared.old) (map (λ b. seen b) engines.old.items) → AreSound (take (length declared.old) (map (λ b. seen b) engines.old.items)) → IsNoRun result }
{
    if are_none(declared.as_slice()) {
        return run_alone(alloc, path, script, searches, options, out, work);
    }
    run_over(
        alloc, path, script, searches, options, engines, declared, courier, out, work,
    )
}
