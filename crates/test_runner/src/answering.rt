//! Answering an expression over the samples of a script: over a store, or over the engines that are declared.
ghost use Rattle.query_engine.specs.Batches.{IsBatch};
ghost use Rattle.query_engine.specs.Bounds.{Spends};
ghost use Rattle.exchange.specs.Calls.{Each};
ghost use Rattle.query_engine.specs.Engines.{DoNotRise};
ghost use Rattle.remote_api.specs.Seen.{KeepsStrays};
ghost use Rattle.query_engine.specs.Evaluating.{ComesTo};
ghost use Rattle.query_engine.specs.Planning.{choices_of};
ghost use Rattle.sample_store.specs.Samples.{AllSeries};
ghost use Rattle.std.specs.Prelude.{◌≡◌, ◌<◌, Ok, [], length, map, take, IfErr, IfOk, IsOk, OnOk};
ghost use Rattle.test_runner.specs.Boxes.{AllTell, AreReady, AreSound, IsNoRun, IsOwnFault, LeavesServing, RunFaulted};
ghost use Rattle.test_runner.specs.Loads.{left_by_all, samples_left};
ghost use Rattle.test_runner.specs.Running.{AnswersLoads, IfOfLoads, IsAnswerOver};
ghost use Rattle.test_runner.specs.declared.fault.RunnerFault.TheVariants.{Write};

use crate::alone::evaluate_alone;
use crate::batch::options_over;
use crate::fault::RunnerFault;
use crate::over::{evaluate_over, judge_loads, put_anew};
use crate::placing::are_none;
use crate::storing::load_all;
use holders::Items;
use label_set::Labels;
use promql_meaning::Outcome;
use query_engine::Options;
use remote_api::{Courier, Engine};
use script_read::{Command, Script};
use std::alloc::Global;
use std::sync::ledger::Ledger;
use ticks::{Grid, Work};

/// What the text of a query comes to over a store of the samples that a script's commands leave.
fn answer_alone<W: Ledger>(
    alloc: Global,
    script: &Script,
    text: &str,
    grid: &Grid,
    instant: bool,
    options: &Options,
    work: &mut Work<W>,
) -> Result<Outcome, RunnerFault>
    requires batch { IsBatch options.now.batch }
    ensures answered { IfOk result (IsAnswerOver [] script.now text.now grid.now instant options.now.closed) }
    ensures refused { AnswersLoads (samples_left [] script.now) result }
    ensures explained { IfErr result (IfOfLoads (samples_left [] script.now)) }
    ensures unwritten { IfErr result (λ fault. fault ≡ Write → ⊥) }
    ensures idle { IfErr (samples_left [] script.now) (λ _. work.new ≡ work.old) }
    ensures bounded { IfOk (samples_left [] script.now) (λ series. Spends text.now series grid.now (choices_of options.now) options.now.closed work.old work.new) }
    ensures sure { IsNoRun result }
{
    let store = load_all(alloc, &[], script)?;
    let options = options_over(options, &store);
    let outcome = evaluate_alone(alloc, text, grid, instant, &options, &store, work)?;
    Ok(outcome)
}

/// What the text of a query comes to over the engines that are declared, into which the samples are put that commands leave.
fn answer_loaded<C: Courier, W: Ledger>(
    alloc: Global,
    commands: &[Command],
    text: &str,
    grid: &Grid,
    instant: bool,
    options: &Options,
    engines: &mut Vec<Box<dyn Engine>>,
    declared: &mut Items<Labels>,
    courier: &mut C,
    work: &mut Work<W>,
) -> Result<Outcome, RunnerFault>
    requires batch { IsBatch options.now.batch }
    requires ready { AreReady declared.old (map (λ b. seen b) engines.old.items) }
    requires some { 0 < length declared.old }
    requires taken { IsOk (left_by_all declared.old commands.now []) }
    ensures answered { AllTell (length declared.old) (map (λ b. seen b) engines.old.items) → (series : AllSeries) → left_by_all declared.old commands.now [] ≡ Ok series → IfOk result (ComesTo text.now series grid.now instant options.now.closed) }
    ensures own { IfErr result IsOwnFault }
    ensures unmoved { DoNotRise work.old work.new }
    ensures boxes { LeavesServing result declared.old declared.new (map (λ b. seen b) engines.old.items) (map (λ b. seen b) engines.new.items) }
    ensures faulted { RunFaulted result (map (λ b. seen b) engines.old.items) (map (λ b. seen b) engines.new.items) }
    ensures calm { OnOk result (Each KeepsStrays (map (λ b. seen b) engines.old.items) (map (λ b. seen b) engines.new.items)) }
    ensures sure { AllTell (length declared.old) (map (λ b. seen b) engines.old.items) → AreSound (take (length declared.old) (map (λ b. seen b) engines.old.items)) → IsNoRun result }
{
    match put_anew(engines, declared, commands) {
        Ok(()) => evaluate_over(
            alloc, text, grid, instant, options, engines, declared, courier, work,
        ),
        Err(fault) => Err(fault),
    }
}

/// What the text of a query comes to over the engines that are declared.
fn answer_over<C: Courier, W: Ledger>(
    alloc: Global,
    script: &Script,
    text: &str,
    grid: &Grid,
    instant: bool,
    options: &Options,
    engines: &mut Vec<Box<dyn Engine>>,
    declared: &mut Items<Labels>,
    courier: &mut C,
    work: &mut Work<W>,
) -> Result<Outcome, RunnerFault>
    requires batch { IsBatch options.now.batch }
    requires ready { AreReady declared.old (map (λ b. seen b) engines.old.items) }
    requires some { 0 < length declared.old }
    ensures answered { AllTell (length declared.old) (map (λ b. seen b) engines.old.items) → IfOk result (IsAnswerOver declared.old script.now text.now grid.now instant options.now.closed) }
    ensures refused { AnswersLoads (samples_left declared.old script.now) result }
    ensures explained { IfErr result (IfOfLoads (samples_left declared.old script.now)) }
    ensures unwritten { IfErr result (λ fault. fault ≡ Write → ⊥) }
    ensures idle { IfErr (samples_left declared.old script.now) (λ _. (work.new ≡ work.old) × (engines.new.items ≡ engines.old.items) × (declared.new ≡ declared.old)) }
    ensures unmoved { DoNotRise work.old work.new }
    ensures boxes { LeavesServing result declared.old declared.new (map (λ b. seen b) engines.old.items) (map (λ b. seen b) engines.new.items) }
    ensures faulted { RunFaulted result (map (λ b. seen b) engines.old.items) (map (λ b. seen b) engines.new.items) }
    ensures calm { OnOk result (Each KeepsStrays (map (λ b. seen b) engines.old.items) (map (λ b. seen b) engines.new.items)) }
    ensures sure { AllTell (length declared.old) (map (λ b. seen b) engines.old.items) → AreSound (take (length declared.old) (map (λ b. seen b) engines.old.items)) → IsNoRun result }
{
    let commands = script.commands.as_slice();
    let sets = declared.as_slice();
    match judge_loads(alloc, sets, script) {
        Ok(()) => answer_loaded(
            alloc, commands, text, grid, instant, options, engines, declared, courier, work,
        ),
        Err(fault) => Err(fault),
    }
}

/// What the text of a query comes to at the instants of a grid, or at its first where `instant` is told, over the samples
/// that the `clear` and `load` commands of a script leave; its evaluations aren't run. `Refused` and `Range` come exactly
/// where a load is refused, with the first refusal; then nothing was evaluated, and no box was touched. `Write` never comes.
///
/// With no engine declared it goes over a store; no box is touched, and on any answer the counters rise by at most what the plan of the
/// text costs over these samples. The batch is lowered where many series are loaded. The only other error is want of memory.
///
/// Else it goes over the declared engines, which are the first boxes; no counter rises. Their asks are forgotten and their samples of before
/// are dropped, and then the commands are carried out. `Run` comes where an engine failed or strayed, counted from 0: its declared labels
/// went, and its box stands behind all others, which stay in their order. After every other answer boxes and declared labels stand in
/// their order. The outcome is that of the text where each declared engine tells what it holds, whichever the courier picks. (The queries
/// of promtool; the engines are those of thanos-io/promql-engine's distributed queries.)
pub fn answer<C: Courier, W: Ledger>(
    alloc: Global,
    script: &Script,
    text: &str,
    grid: &Grid,
    instant: bool,
    options: &Options,
    engines: &mut Vec<Box<dyn Engine>>,
    declared: &mut Items<Labels>,
    courier: &mut C,
    work: &mut Work<W>,
) -> Result<Outcome, RunnerFault>
    requires batch { IsBatch options.now.batch }
    requires ready { AreReady declared.old (map (λ b. seen b) engines.old.items) }
    ensures answered { AllTell (length declared.old) (map (λ b. seen b) engines.old.items) → IfOk result (IsAnswerOver declared.old script.now text.now grid.now instant options.now.closed) }
    ensures refused { AnswersLoads (samples_left declared.old script.now) result }
    ensures explained { IfErr result (IfOfLoads (samples_left declared.old script.now)) }
    ensures unwritten { IfErr result (λ fault. fault ≡ Write → ⊥) }
    ensures idle { IfErr (samples_left declared.old script.now) (λ _. (work.new ≡ work.old) × (engines.new.items ≡ engines.old.items) × (declared.new ≡ declared.old)) }
    ensures bounded { declared.old ≡ [] → IfOk (samples_left [] script.now) (λ series. Spends text.now series grid.now (choices_of options.now) options.now.closed work.old work.new) }
    ensures unmoved { 0 < length declared.old → DoNotRise work.old work.new }
    ensures boxes { LeavesServing result declared.old declared.new (map (λ b. seen b) engines.old.items) (map (λ b. seen b) engines.new.items) }
    ensures faulted { RunFaulted result (map (λ b. seen b) engines.old.items) (map (λ b. seen b) engines.new.items) }
    ensures calm { OnOk result (Each KeepsStrays (map (λ b. seen b) engines.old.items) (map (λ b. seen b) engines.new.items)) }
    ensures alone { declared.old ≡ [] → engines.new.items ≡ engines.old.items }
    ensures alone_sure { declared.old ≡ [] → IsNoRun result }
    ensures sure { AllTell (length declared.old) (map (λ b. seen b) engines.old.items) → AreSound (take (length declared.old) (map (λ b. seen b) engines.old.items)) → IsNoRun result }
{
    if are_none(declared.as_slice()) {
        return answer_alone(alloc, script, text, grid, instant, options, work);
    }
    answer_over(
        alloc, script, text, grid, instant, options, engines, declared, courier, work,
    )
}
