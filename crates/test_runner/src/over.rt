//! Running a script over the engines that are declared, once its loads were judged.
ghost use Rattle.edge_io.specs.Causes.{HasCause};
ghost use Rattle.edge_io.specs.Written.{WroteFront, appended};
ghost use Rattle.exchange.specs.Calls.{Each};
ghost use Rattle.query_engine.specs.Batches.{IsBatch};
ghost use Rattle.query_engine.specs.Engines.{DoNotRise};
ghost use Rattle.query_engine.specs.Evaluating.{ComesTo};
ghost use Rattle.remote_api.specs.Seen.{KeepsStrays};
ghost use Rattle.sample_store.specs.Samples.{AllSeries};
ghost use Rattle.script_check.specs.Verdicts.{HasItsPatterns, HasPatterns, KeepsPatterns};
ghost use Rattle.script_read.specs.declared.script.Command.{Command};
ghost use Rattle.std.specs.List.{AllByRecursion};
ghost use Rattle.std.specs.Prelude.{◌≡◌, ◌<◌, ◌≤◌, ◌+◌, ◌^◌, [], ◌∷◌, Ok, drop, length, map, take, IfErr, IfOk, IsErrOf, IsOk, OnErr, OnOk, false, if◌then◌else◌};
ghost use Rattle.test_runner.specs.Boxes.{AllTell, AreReady, AreSound, Carry, IfRun, IsCutFault, IsNoLoadFault, IsNoRun, IsOwnFault, LeavesServing, RunFaulted, StoodBy, StoppedAt, ran_into};
ghost use Rattle.test_runner.specs.Loading.{MayPut};
ghost use Rattle.test_runner.specs.Loads.{left_by, left_by_all, samples_left};
ghost use Rattle.test_runner.specs.Parts.{HoldParts, Stays};
ghost use Rattle.test_runner.specs.Running.{AnswersLoads, CarriedOut, HasRun, IfCut, IfOfLoads, WasCut, WasCutOff};
ghost use Rattle.test_runner.specs.Steps.{IsJudgementOn, IsLine, WroteCounted, WroteLess};
ghost use Rattle.test_runner.specs.Verdicts.{IsNoEvaluation, judgement};
ghost use Rattle.test_runner.specs.declared.fault.RunnerFault.TheVariants.{Memory, Write};

use crate::begun::is_evaluation;
use crate::boxes::{carry_out, carry_out_one, drop_all};
use crate::evaluation::{Evaluation, VerdictLine, judge_outcome};
use crate::fault::RunnerFault;
use crate::lost::lose;
use crate::storing::load_all;
use crate::totals::Totals;
use edge_io::{Sink, SinkFail, write_all};
use exchange::RunFault;
use holders::Items;
use label_set::Labels;
use match_rule::Patterns;
use promql_meaning::Outcome;
use query_engine::{Options, evaluate};
use remote_api::{Courier, Engine};
use sample_store::Store;
use script_read::{Command, Script, What};
use std::alloc::Global;
use std::sync::ledger::Ledger;
use ticks::{Grid, Work};

/// Judges all loads of a script in a store, which is dropped then. `Refused` and `Range` come exactly where a load is refused, with the
/// first refusal; the only other error is want of memory.
pub(crate) fn judge_loads(
    alloc: Global,
    declared: &[Labels],
    script: &Script,
) -> Result<(), RunnerFault>
    ensures taken { OnOk result (IsOk (samples_left declared.now script.now)) }
    ensures refused { AnswersLoads (samples_left declared.now script.now) result }
    ensures explained { IfErr result (IfOfLoads (samples_left declared.now script.now)) }
    ensures unwritten { IfErr result (λ fault. fault ≡ Write → ⊥) }
    ensures sure { IsNoRun result }
{
    load_all(alloc, declared, script)?;
    Ok(())
}

// ---- what is put into engines

/// Clears or loads where a command says so, as its loads are taken. An engine that fails is lost.
fn change_over(
    engines: &mut [Box<dyn Engine>],
    declared: &mut Items<Labels>,
    what: &What,
) -> Result<(), RunnerFault>
    requires { MayPut false (HoldParts declared.old (map (λ b. seen b) engines.old)) (left_by declared.old what.now) }
    ensures carried { OnOk result (Carry declared.old (map (λ b. seen b) engines.old) (map (λ b. seen b) engines.new) (left_by declared.old what.now)) }
    ensures own { IfErr result IsOwnFault }
    ensures boxes { LeavesServing result declared.old declared.new (map (λ b. seen b) engines.old) (map (λ b. seen b) engines.new) }
    ensures faulted { RunFaulted result (map (λ b. seen b) engines.old) (map (λ b. seen b) engines.new) }
    ensures calm { OnOk result (Each KeepsStrays (map (λ b. seen b) engines.old) (map (λ b. seen b) engines.new)) }
    ensures sure { AllTell (length declared.old) (map (λ b. seen b) engines.old) → AreSound (take (length declared.old) (map (λ b. seen b) engines.old)) → IsNoRun result }
{
    match carry_out_one(engines, declared.as_slice(), what) {
        Ok(()) => Ok(()),
        Err(fault) => {
            lose(engines, declared, &fault);
            Err(fault)
        }
    }
}

/// The same of many commands.
fn change_over_by_all(
    engines: &mut [Box<dyn Engine>],
    declared: &mut Items<Labels>,
    commands: &[Command],
) -> Result<(), RunnerFault>
    requires { MayPut false (HoldParts declared.old (map (λ b. seen b) engines.old)) (left_by_all declared.old commands.now) }
    ensures carried { OnOk result (Carry declared.old (map (λ b. seen b) engines.old) (map (λ b. seen b) engines.new) (left_by_all declared.old commands.now)) }
    ensures own { IfErr result IsOwnFault }
    ensures boxes { LeavesServing result declared.old declared.new (map (λ b. seen b) engines.old) (map (λ b. seen b) engines.new) }
    ensures faulted { RunFaulted result (map (λ b. seen b) engines.old) (map (λ b. seen b) engines.new) }
    ensures calm { OnOk result (Each KeepsStrays (map (λ b. seen b) engines.old) (map (λ b. seen b) engines.new)) }
    ensures sure { AllTell (length declared.old) (map (λ b. seen b) engines.old) → AreSound (take (length declared.old) (map (λ b. seen b) engines.old)) → IsNoRun result }
{
    match carry_out(engines, declared.as_slice(), commands) {
        Ok(()) => Ok(()),
        Err(fault) => {
            lose(engines, declared, &fault);
            Err(fault)
        }
    }
}

/// Lets the engines forget their asks and drop their samples of before.
#[tactic(auto, using(crate::proofs::Engines::ready_boxes))]
fn drop_before(engines: &mut Vec<Box<dyn Engine>>, declared: &[Labels])
    requires some { 0 < length declared.now }
    requires ready { AreReady declared.now (map (λ b. seen b) engines.old.items) }
    ensures empty { HoldParts declared.now (map (λ b. seen b) engines.new.items) [] }
    ensures stays { Each Stays (map (λ b. seen b) engines.old.items) (map (λ b. seen b) engines.new.items) }
    ensures many { length (map (λ b. seen b) engines.new.items) ≡ length (map (λ b. seen b) engines.old.items) }
{
    drop_all(engines.as_mut_slice(), declared);
}

/// Puts the samples that commands leave into the engines, as their loads are taken. Samples of before are dropped. An engine that fails is
/// lost.
pub(crate) fn put_anew(
    engines: &mut Vec<Box<dyn Engine>>,
    declared: &mut Items<Labels>,
    commands: &[Command],
) -> Result<(), RunnerFault>
    requires some { 0 < length declared.old }
    requires ready { AreReady declared.old (map (λ b. seen b) engines.old.items) }
    requires taken { IsOk (left_by_all declared.old commands.now []) }
    ensures held { OnOk result ((series : AllSeries) → left_by_all declared.old commands.now [] ≡ Ok series → HoldParts declared.old (map (λ b. seen b) engines.new.items) series) }
    ensures own { IfErr result IsOwnFault }
    ensures boxes { LeavesServing result declared.old declared.new (map (λ b. seen b) engines.old.items) (map (λ b. seen b) engines.new.items) }
    ensures faulted { RunFaulted result (map (λ b. seen b) engines.old.items) (map (λ b. seen b) engines.new.items) }
    ensures calm { OnOk result (Each KeepsStrays (map (λ b. seen b) engines.old.items) (map (λ b. seen b) engines.new.items)) }
    ensures sure { AllTell (length declared.old) (map (λ b. seen b) engines.old.items) → AreSound (take (length declared.old) (map (λ b. seen b) engines.old.items)) → IsNoRun result }
{
    drop_before(engines, declared.as_slice());
    change_over_by_all(engines.as_mut_slice(), declared, commands)
}

// ---- evaluations

/// What comes of a fault of engines.
fn ran_into(fault: RunFault) -> RunnerFault
    ensures { result ≡ ran_into fault }
{
    match fault {
        RunFault::Memory => RunnerFault::Memory,
        RunFault::EngineFault { .. } | RunFault::OutOfStep { .. } | RunFault::WrongCell { .. } => {
            RunnerFault::Run(fault)
        }
    }
}

/// What the text of a query comes to over the samples that the declared engines hold. No counter rises. An engine that fails or strays is
/// lost; the only other error is want of memory.
pub(crate) fn evaluate_over<C: Courier, W: Ledger>(
    alloc: Global,
    text: &str,
    grid: &Grid,
    instant: bool,
    options: &Options,
    engines: &mut Vec<Box<dyn Engine>>,
    declared: &mut Items<Labels>,
    courier: &mut C,
    work: &mut Work<W>,
) -> Result<Outcome, RunnerFault>
    requires batch { IsBatch options.now.batch }
    requires some { 0 < length declared.old }
    requires few { length engines.old.items < 2 ^ 32 }
    requires many { length declared.old ≤ length engines.old.items }
    ensures outcome { (series : AllSeries) → HoldParts declared.old (map (λ b. seen b) engines.old.items) series → AllTell (length declared.old) (map (λ b. seen b) engines.old.items) → IfOk result (ComesTo text.now series grid.now instant options.now.closed) }
    ensures unmoved { DoNotRise work.old work.new }
    ensures held { OnOk result ((series : AllSeries) → HoldParts declared.old (map (λ b. seen b) engines.old.items) series → HoldParts declared.old (map (λ b. seen b) engines.new.items) series) }
    ensures own { IfErr result IsOwnFault }
    ensures boxes { LeavesServing result declared.old declared.new (map (λ b. seen b) engines.old.items) (map (λ b. seen b) engines.new.items) }
    ensures faulted { RunFaulted result (map (λ b. seen b) engines.old.items) (map (λ b. seen b) engines.new.items) }
    ensures calm { OnOk result (Each KeepsStrays (map (λ b. seen b) engines.old.items) (map (λ b. seen b) engines.new.items)) }
    ensures sure { AllTell (length declared.old) (map (λ b. seen b) engines.old.items) → AreSound (take (length declared.old) (map (λ b. seen b) engines.old.items)) → IsNoRun result }
{
    let store = Store::new(alloc);
    match evaluate(
        alloc, text, grid, instant, options, &store, engines, declared, courier, work,
    ) {
        Ok(outcome) => Ok(outcome),
        Err(fault) => Err(ran_into(fault)),
    }
}

/// The line of an outcome against what is expected of it. The only error is want of memory.
fn line_of(
    alloc: Global,
    path: &str,
    asked: Evaluation<'_>,
    outcome: &Outcome,
    searches: &mut Patterns,
) -> Result<VerdictLine, RunnerFault>
    requires { HasPatterns searches.old asked.expected.now }
    ensures line { IfOk result (λ line. IsLine path.now (λ judged. judged ≡ judgement searches.old asked.entry.line asked.entry.instant asked.entry.expected.now outcome.now) line.text.items line.passed) }
    ensures fault { IfErr result (λ fault. fault ≡ Memory) }
    ensures same { searches.new ≡ searches.old }
{
    match judge_outcome(alloc, path, asked, outcome, searches) {
        Ok(line) => Ok(line),
        Err(_) => Err(RunnerFault::Memory),
    }
}

/// What an evaluation comes to over the samples that the declared engines hold, against what is expected of it.
fn judge_over<C: Courier, W: Ledger>(
    alloc: Global,
    path: &str,
    asked: Evaluation<'_>,
    engines: &mut Vec<Box<dyn Engine>>,
    declared: &mut Items<Labels>,
    courier: &mut C,
    searches: &mut Patterns,
    work: &mut Work<W>,
) -> Result<VerdictLine, RunnerFault>
    requires kept { HasPatterns searches.old asked.expected.now }
    requires batch { IsBatch asked.options.now.batch }
    requires some { 0 < length declared.old }
    requires few { length engines.old.items < 2 ^ 32 }
    requires many { length declared.old ≤ length engines.old.items }
    ensures line { (series : AllSeries) → HoldParts declared.old (map (λ b. seen b) engines.old.items) series → AllTell (length declared.old) (map (λ b. seen b) engines.old.items) → IfOk result (λ line. IsLine path.now (IsJudgementOn searches.old series asked.entry) line.text.items line.passed) }
    ensures same { searches.new ≡ searches.old }
    ensures unmoved { DoNotRise work.old work.new }
    ensures held { OnOk result ((series : AllSeries) → HoldParts declared.old (map (λ b. seen b) engines.old.items) series → HoldParts declared.old (map (λ b. seen b) engines.new.items) series) }
    ensures own { IfErr result IsOwnFault }
    ensures boxes { LeavesServing result declared.old declared.new (map (λ b. seen b) engines.old.items) (map (λ b. seen b) engines.new.items) }
    ensures faulted { RunFaulted result (map (λ b. seen b) engines.old.items) (map (λ b. seen b) engines.new.items) }
    ensures calm { OnOk result (Each KeepsStrays (map (λ b. seen b) engines.old.items) (map (λ b. seen b) engines.new.items)) }
    ensures sure { AllTell (length declared.old) (map (λ b. seen b) engines.old.items) → AreSound (take (length declared.old) (map (λ b. seen b) engines.old.items)) → IsNoRun result }
{
    let text = asked.text.as_str();
    match evaluate_over(
        alloc,
        text,
        asked.grid,
        asked.instant,
        asked.options,
        engines,
        declared,
        courier,
        work,
    ) {
        Ok(outcome) => line_of(alloc, path, asked, &outcome, searches),
        Err(fault) => Err(fault),
    }
}

/// Writes the line of a verdict, and counts it.
fn write_line<S: Sink>(out: &mut S, line: &VerdictLine) -> Result<Totals, RunnerFault>
    ensures written { OnOk result (S.written out.new ≡ appended (S.written out.old) line.now.text.items) }
    ensures counted { IfOk result (λ totals. (totals.passed ≡ (if line.now.passed then 1 else 0)) × (totals.failed ≡ (if line.now.passed then 0 else 1))) }
    ensures cut { OnErr result (WroteFront (S.written out.old) (S.written out.new) line.now.text.items) }
    ensures fault { IfErr result IsCutFault }
    ensures cause { HasCause (S.faults out.old) (S.faults out.new) (IsErrOf result RunnerFault.Write) }
    ensures never { S.sound out.old → IsErrOf result RunnerFault.Write → ⊥ }
    ensures sound { S.sound out.old → S.sound out.new }
{
    match write_all(out, &line.text) {
        Ok(()) => Ok(Totals::of_one(line.passed)),
        Err(SinkFail::Failed) => Err(RunnerFault::Write),
        Err(SinkFail::Memory) => Err(RunnerFault::Memory),
    }
}

/// Judges an evaluation, writes the line of its verdict, and counts it.
fn run_evaluation_over<S: Sink, C: Courier, W: Ledger>(
    alloc: Global,
    path: &str,
    asked: Evaluation<'_>,
    engines: &mut Vec<Box<dyn Engine>>,
    declared: &mut Items<Labels>,
    courier: &mut C,
    searches: &mut Patterns,
    out: &mut S,
    work: &mut Work<W>,
) -> Result<Totals, RunnerFault>
    requires kept { HasPatterns searches.old asked.expected.now }
    requires batch { IsBatch asked.options.now.batch }
    requires some { 0 < length declared.old }
    requires few { length engines.old.items < 2 ^ 32 }
    requires many { length declared.old ≤ length engines.old.items }
    ensures ran { (series : AllSeries) → HoldParts declared.old (map (λ b. seen b) engines.old.items) series → AllTell (length declared.old) (map (λ b. seen b) engines.old.items) → IfOk result (WroteCounted path.now (IsJudgementOn searches.old series asked.entry) (S.written out.old) (S.written out.new)) }
    ensures one { IfOk result (λ totals. totals.passed + totals.failed ≡ 1) }
    ensures cut { (series : AllSeries) → HoldParts declared.old (map (λ b. seen b) engines.old.items) series → AllTell (length declared.old) (map (λ b. seen b) engines.old.items) → IfErr result (λ fault. IfCut fault (WroteLess path.now (IsJudgementOn searches.old series asked.entry) (S.written out.old) (S.written out.new))) }
    ensures stopped { IfRun result (S.written out.new ≡ S.written out.old) }
    ensures own { IfErr result IsNoLoadFault }
    ensures cause { HasCause (S.faults out.old) (S.faults out.new) (IsErrOf result RunnerFault.Write) }
    ensures never { S.sound out.old → IsErrOf result RunnerFault.Write → ⊥ }
    ensures sound { S.sound out.old → S.sound out.new }
    ensures same { searches.new ≡ searches.old }
    ensures unmoved { DoNotRise work.old work.new }
    ensures held { OnOk result ((series : AllSeries) → HoldParts declared.old (map (λ b. seen b) engines.old.items) series → HoldParts declared.old (map (λ b. seen b) engines.new.items) series) }
    ensures boxes { LeavesServing result declared.old declared.new (map (λ b. seen b) engines.old.items) (map (λ b. seen b) engines.new.items) }
    ensures faulted { RunFaulted result (map (λ b. seen b) engines.old.items) (map (λ b. seen b) engines.new.items) }
    ensures calm { OnOk result (Each KeepsStrays (map (λ b. seen b) engines.old.items) (map (λ b. seen b) engines.new.items)) }
    ensures sure { AllTell (length declared.old) (map (λ b. seen b) engines.old.items) → AreSound (take (length declared.old) (map (λ b. seen b) engines.old.items)) → IsNoRun result }
{
    match judge_over(
        alloc, path, asked, engines, declared, courier, searches, work,
    ) {
        Ok(line) => write_line(out, &line),
        Err(fault) => Err(fault),
    }
}

// ---- commands

/// Clears or loads where a command says so, which counts nothing.
fn change_counted(
    engines: &mut Vec<Box<dyn Engine>>,
    declared: &mut Items<Labels>,
    what: &What,
) -> Result<Totals, RunnerFault>
    requires { MayPut false (HoldParts declared.old (map (λ b. seen b) engines.old.items)) (left_by declared.old what.now) }
    ensures carried { OnOk result (Carry declared.old (map (λ b. seen b) engines.old.items) (map (λ b. seen b) engines.new.items) (left_by declared.old what.now)) }
    ensures none { IfOk result (λ totals. (totals.passed ≡ 0) × (totals.failed ≡ 0)) }
    ensures own { IfErr result IsOwnFault }
    ensures boxes { LeavesServing result declared.old declared.new (map (λ b. seen b) engines.old.items) (map (λ b. seen b) engines.new.items) }
    ensures faulted { RunFaulted result (map (λ b. seen b) engines.old.items) (map (λ b. seen b) engines.new.items) }
    ensures calm { OnOk result (Each KeepsStrays (map (λ b. seen b) engines.old.items) (map (λ b. seen b) engines.new.items)) }
    ensures sure { AllTell (length declared.old) (map (λ b. seen b) engines.old.items) → AreSound (take (length declared.old) (map (λ b. seen b) engines.old.items)) → IsNoRun result }
{
    match change_over(engines.as_mut_slice(), declared, what) {
        Ok(()) => Ok(Totals::NONE),
        Err(fault) => Err(fault),
    }
}

/// Carries out a command, and answers the totals of its evaluation, if it is one.
fn run_command_over<S: Sink, C: Courier, W: Ledger>(
    alloc: Global,
    path: &str,
    command: &Command,
    options: &Options,
    engines: &mut Vec<Box<dyn Engine>>,
    declared: &mut Items<Labels>,
    courier: &mut C,
    searches: &mut Patterns,
    out: &mut S,
    work: &mut Work<W>,
) -> Result<Totals, RunnerFault>
    requires kept { HasItsPatterns searches.old command.now.what }
    requires batch { IsBatch options.now.batch }
    requires some { 0 < length declared.old }
    requires few { length engines.old.items < 2 ^ 32 }
    requires many { length declared.old ≤ length engines.old.items }
    requires may { MayPut false (HoldParts declared.old (map (λ b. seen b) engines.old.items)) (left_by declared.old command.now.what) }
    ensures carried { OnOk result (Carry declared.old (map (λ b. seen b) engines.old.items) (map (λ b. seen b) engines.new.items) (left_by declared.old command.now.what)) }
    ensures few { IfOk result (λ totals. totals.passed + totals.failed ≤ 1) }
    ensures rests { IfOk result (λ totals. totals.passed + totals.failed ≡ 0 → work.new ≡ work.old) }
    ensures ran { (series : AllSeries) → HoldParts declared.old (map (λ b. seen b) engines.old.items) series → AllTell (length declared.old) (map (λ b. seen b) engines.old.items) → IsOk (left_by declared.old command.now.what series) → IfOk result (CarriedOut options.now.closed declared.old searches.old path.now series (command.now ∷ []) (S.written out.old) (S.written out.new)) }
    ensures cut { (series : AllSeries) → HoldParts declared.old (map (λ b. seen b) engines.old.items) series → AllTell (length declared.old) (map (λ b. seen b) engines.old.items) → IfErr result (λ fault. IfCut fault (WasCutOff options.now.closed declared.old searches.old path.now series (command.now ∷ []) (S.written out.old) (S.written out.new))) }
    ensures stopped { IfRun result (S.written out.new ≡ S.written out.old) }
    ensures own { IfErr result IsNoLoadFault }
    ensures cause { HasCause (S.faults out.old) (S.faults out.new) (IsErrOf result RunnerFault.Write) }
    ensures never { S.sound out.old → IsErrOf result RunnerFault.Write → ⊥ }
    ensures sound { S.sound out.old → S.sound out.new }
    ensures same { searches.new ≡ searches.old }
    ensures unmoved { DoNotRise work.old work.new }
    ensures boxes { LeavesServing result declared.old declared.new (map (λ b. seen b) engines.old.items) (map (λ b. seen b) engines.new.items) }
    ensures faulted { RunFaulted result (map (λ b. seen b) engines.old.items) (map (λ b. seen b) engines.new.items) }
    ensures calm { OnOk result (Each KeepsStrays (map (λ b. seen b) engines.old.items) (map (λ b. seen b) engines.new.items)) }
    ensures sure { AllTell (length declared.old) (map (λ b. seen b) engines.old.items) → AreSound (take (length declared.old) (map (λ b. seen b) engines.old.items)) → IsNoRun result }
{
    match &command.what {
        What::Eval {
            grid,
            instant,
            text,
            expected,
        } => {
            let asked = Evaluation {
                line: command.line,
                options,
                grid,
                instant: *instant,
                text,
                expected,
            };
            run_evaluation_over(
                alloc, path, asked, engines, declared, courier, searches, out, work,
            )
        }
        What::Clear | What::Load { .. } => change_counted(engines, declared, &command.what),
    }
}

/// How many commands stand before the place behind the last evaluation.
fn count_to_last(commands: &[Command]) -> usize
    ensures within { result ≤ length commands.now }
    ensures quiet { AllByRecursion (λ (one : Command). IsNoEvaluation one.what) (drop result commands.now) }
{
    let count = commands.len();
    for k in 0..count {
        let last = count - 1 - k;
        if is_evaluation(&commands[last].what) {
            return last + 1;
        }
    }
    0
}

/// Carries out the first so many commands of a list, behind which no evaluation stands, and answers the totals of its evaluations. No
/// sample stands as it begins.
fn run_commands_over<S: Sink, C: Courier, W: Ledger>(
    alloc: Global,
    path: &str,
    commands: &[Command],
    count: usize,
    options: &Options,
    engines: &mut Vec<Box<dyn Engine>>,
    declared: &mut Items<Labels>,
    courier: &mut C,
    searches: &mut Patterns,
    out: &mut S,
    work: &mut Work<W>,
) -> Result<Totals, RunnerFault>
    requires kept { AllByRecursion (λ (command : Command). HasItsPatterns searches.old command.what) commands.now }
    requires short { length commands.now < 2 ^ 32 }
    requires within { count ≤ length commands.now }
    requires quiet { AllByRecursion (λ (one : Command). IsNoEvaluation one.what) (drop count commands.now) }
    requires batch { IsBatch options.now.batch }
    requires some { 0 < length declared.old }
    requires few { length engines.old.items < 2 ^ 32 }
    requires many { length declared.old ≤ length engines.old.items }
    requires empty { HoldParts declared.old (map (λ b. seen b) engines.old.items) [] }
    requires taken { IsOk (left_by_all declared.old commands.now []) }
    ensures ran { AllTell (length declared.old) (map (λ b. seen b) engines.old.items) → IfOk result (CarriedOut options.now.closed declared.old searches.old path.now [] commands.now (S.written out.old) (S.written out.new)) }
    ensures rests { IfOk result (λ totals. totals.passed + totals.failed ≡ 0 → work.new ≡ work.old) }
    ensures cut { AllTell (length declared.old) (map (λ b. seen b) engines.old.items) → IfErr result (λ fault. IfCut fault (WasCutOff options.now.closed declared.old searches.old path.now [] commands.now (S.written out.old) (S.written out.new))) }
    ensures stopped { AllTell (length declared.old) (map (λ b. seen b) engines.old.items) → IfRun result (StoodBy options.now.closed declared.old searches.old path.now commands.now (S.written out.old) (S.written out.new)) }
    ensures own { IfErr result IsNoLoadFault }
    ensures cause { HasCause (S.faults out.old) (S.faults out.new) (IsErrOf result RunnerFault.Write) }
    ensures never { S.sound out.old → IsErrOf result RunnerFault.Write → ⊥ }
    ensures sound { S.sound out.old → S.sound out.new }
    ensures same { searches.new ≡ searches.old }
    ensures unmoved { DoNotRise work.old work.new }
    ensures boxes { LeavesServing result declared.old declared.new (map (λ b. seen b) engines.old.items) (map (λ b. seen b) engines.new.items) }
    ensures faulted { RunFaulted result (map (λ b. seen b) engines.old.items) (map (λ b. seen b) engines.new.items) }
    ensures calm { OnOk result (Each KeepsStrays (map (λ b. seen b) engines.old.items) (map (λ b. seen b) engines.new.items)) }
    ensures sure { AllTell (length declared.old) (map (λ b. seen b) engines.old.items) → AreSound (take (length declared.old) (map (λ b. seen b) engines.old.items)) → IsNoRun result }
{
    let mut totals = Totals::NONE;
    for i in 0..count {
        match run_command_over(
            alloc,
            path,
            &commands[i],
            options,
            engines,
            declared,
            courier,
            searches,
            out,
            work,
        ) {
            Ok(more) => totals = totals.plus(more),
            Err(fault) => return Err(fault),
        }
    }
    Ok(totals)
}

/// Carries out the commands of a script whose loads are taken. The engines are touched only where it has an evaluation.
fn run_taken<S: Sink, C: Courier, W: Ledger>(
    alloc: Global,
    path: &str,
    commands: &[Command],
    options: &Options,
    engines: &mut Vec<Box<dyn Engine>>,
    declared: &mut Items<Labels>,
    courier: &mut C,
    searches: &mut Patterns,
    out: &mut S,
    work: &mut Work<W>,
) -> Result<Totals, RunnerFault>
    requires kept { AllByRecursion (λ (command : Command). HasItsPatterns searches.old command.what) commands.now }
    requires short { length commands.now < 2 ^ 32 }
    requires batch { IsBatch options.now.batch }
    requires some { 0 < length declared.old }
    requires ready { AreReady declared.old (map (λ b. seen b) engines.old.items) }
    requires taken { IsOk (left_by_all declared.old commands.now []) }
    ensures ran { AllTell (length declared.old) (map (λ b. seen b) engines.old.items) → IfOk result (CarriedOut options.now.closed declared.old searches.old path.now [] commands.now (S.written out.old) (S.written out.new)) }
    ensures rests { IfOk result (λ totals. totals.passed + totals.failed ≡ 0 → work.new ≡ work.old) }
    ensures cut { AllTell (length declared.old) (map (λ b. seen b) engines.old.items) → IfErr result (λ fault. IfCut fault (WasCutOff options.now.closed declared.old searches.old path.now [] commands.now (S.written out.old) (S.written out.new))) }
    ensures stopped { AllTell (length declared.old) (map (λ b. seen b) engines.old.items) → IfRun result (StoodBy options.now.closed declared.old searches.old path.now commands.now (S.written out.old) (S.written out.new)) }
    ensures own { IfErr result IsNoLoadFault }
    ensures cause { HasCause (S.faults out.old) (S.faults out.new) (IsErrOf result RunnerFault.Write) }
    ensures never { S.sound out.old → IsErrOf result RunnerFault.Write → ⊥ }
    ensures sound { S.sound out.old → S.sound out.new }
    ensures same { searches.new ≡ searches.old }
    ensures unmoved { DoNotRise work.old work.new }
    ensures boxes { LeavesServing result declared.old declared.new (map (λ b. seen b) engines.old.items) (map (λ b. seen b) engines.new.items) }
    ensures faulted { RunFaulted result (map (λ b. seen b) engines.old.items) (map (λ b. seen b) engines.new.items) }
    ensures calm { OnOk result (Each KeepsStrays (map (λ b. seen b) engines.old.items) (map (λ b. seen b) engines.new.items)) }
    ensures sure { AllTell (length declared.old) (map (λ b. seen b) engines.old.items) → AreSound (take (length declared.old) (map (λ b. seen b) engines.old.items)) → IsNoRun result }
{
    let count = count_to_last(commands);
    if count == 0 {
        return Ok(Totals::NONE);
    }
    drop_before(engines, declared.as_slice());
    run_commands_over(
        alloc, path, commands, count, options, engines, declared, courier, searches, out, work,
    )
}

/// Runs a script over the engines that are declared.
pub(crate) fn run_over<S: Sink, C: Courier, W: Ledger>(
    alloc: Global,
    path: &str,
    script: &Script,
    searches: &mut Patterns,
    options: &Options,
    engines: &mut Vec<Box<dyn Engine>>,
    declared: &mut Items<Labels>,
    courier: &mut C,
    out: &mut S,
    work: &mut Work<W>,
) -> Result<Totals, RunnerFault>
    requires kept { KeepsPatterns searches.old script.now }
    requires few { length script.now.commands < 2 ^ 32 }
    requires batch { IsBatch options.now.batch }
    requires some { 0 < length declared.old }
    requires ready { AreReady declared.old (map (λ b. seen b) engines.old.items) }
    ensures ran { AllTell (length declared.old) (map (λ b. seen b) engines.old.items) → IfOk result (HasRun options.now.closed declared.old searches.old path.now script.now (S.written out.old) (S.written out.new)) }
    ensures rests { IfOk result (λ totals. totals.passed + totals.failed ≡ 0 → work.new ≡ work.old) }
    ensures refused { AnswersLoads (samples_left declared.old script.now) result }
    ensures explained { IfErr result (IfOfLoads (samples_left declared.old script.now)) }
    ensures untouched { IfErr (samples_left declared.old script.now) (λ _. (out.new ≡ out.old) × (work.new ≡ work.old) × (engines.new.items ≡ engines.old.items) × (declared.new ≡ declared.old)) }
    ensures cut { AllTell (length declared.old) (map (λ b. seen b) engines.old.items) → IfErr result (λ fault. IfCut fault (WasCut options.now.closed declared.old searches.old path.now script.now (S.written out.old) (S.written out.new))) }
    ensures stopped { AllTell (length declared.old) (map (λ b. seen b) engines.old.items) → IfRun result (StoppedAt options.now.closed searches.old path.now declared.old script.now (S.written out.old) (S.written out.new)) }
    ensures cause { HasCause (S.faults out.old) (S.faults out.new) (IsErrOf result RunnerFault.Write) }
    ensures never { S.sound out.old → IsErrOf result RunnerFault.Write → ⊥ }
    ensures sound { S.sound out.old → S.sound out.new }
    ensures same { searches.new ≡ searches.old }
    ensures unmoved { DoNotRise work.old work.new }
    ensures boxes { LeavesServing result declared.old declared.new (map (λ b. seen b) engines.old.items) (map (λ b. seen b) engines.new.items) }
    ensures faulted { RunFaulted result (map (λ b. seen b) engines.old.items) (map (λ b. seen b) engines.new.items) }
    ensures calm { OnOk result (Each KeepsStrays (map (λ b. seen b) engines.old.items) (map (λ b. seen b) engines.new.items)) }
    ensures sure { AllTell (length declared.old) (map (λ b. seen b) engines.old.items) → AreSound (take (length declared.old) (map (λ b. seen b) engines.old.items)) → IsNoRun result }
{
    let commands = script.commands.as_slice();
    let sets = declared.as_slice();
    match judge_loads(alloc, sets, script) {
        Ok(()) => run_taken(
            alloc, path, commands, options, engines, declared, courier, searches, out, work,
        ),
        Err(fault) => Err(fault),
    }
}
