//! Running a file: its script is read, and each of its evaluations is judged.
ghost use Rattle.edge_io.specs.Causes.{HasCause, Rose};
ghost use Rattle.promql_tool.specs.Boxes.{IfLost, LeavesBoxes, LosesNone};
ghost use Rattle.promql_tool.specs.Chosen.{under};
ghost use Rattle.promql_tool.specs.Found.{IsFound, Just};
ghost use Rattle.promql_tool.specs.Runs.{ComesTo, FileEnds, IsCutFile, IsCutScript, IsStoppedFile, IsStoppedScript, RestsIfNone, ScriptComesTo, ScriptEnds};
ghost use Rattle.promql_tool.specs.Spending.{FileSpends};
ghost use Rattle.promql_tool.specs.declared.fault.Stop.TheVariants.{Gone};
ghost use Rattle.promql_tool.specs.declared.judge.FileEnd.TheVariants.{Stopped};
ghost use Rattle.query_engine.specs.Batches.{IsBatch};
ghost use Rattle.query_engine.specs.Engines.{DoNotRise};
ghost use Rattle.script_check.specs.Verdicts.{KeepsPatterns};
ghost use Rattle.std.specs.Prelude.{◌≡◌, ◌≤◌, ◌<◌, ◌^◌, [], length, map, take, IfOk, OnErr, OnOk, IsErrOf};
ghost use Rattle.test_runner.specs.Boxes.{AllTell, AreReady, AreSound};
ghost use Rattle.test_runner.specs.Spending.{CommandsSpend};

use crate::fault::{Cut, Refusal, Stop};
use crate::fetch::{File, fetch_file, read_script};
use edge_io::{Library, Sink};
use holders::Items;
use label_set::Labels;
use match_rule::{PatternRoom, Patterns};
use query_engine::Options;
use remote_api::{Courier, Engine};
use script_read::{ReadFault, Script};
use std::alloc::Global;
use std::sync::ledger::Ledger;
use test_runner::{RunnerFault, Totals, run};
use ticks::Work;

/// What a file came to.
#[derive(Clone, Copy)]
pub enum FileEnd {
    /// It was run: so many of its evaluations pass and fail.
    Judged(Totals),
    /// It isn't run.
    Stopped(Stop),
}

fn refused(refusal: Refusal) -> FileEnd
    ensures { result ≡ Stopped (Stop.Refused refusal) }
{
    FileEnd::Stopped(Stop::Refused(refusal))
}

/// Runs a script under a path. The engines are those that are declared, if any is; where one is lost, the lines of the evaluations before
/// stand. After another error, a write that failed or want of memory, a front of the lines of its first evaluations was written.
fn run_script<S: Sink, C: Courier, W: Ledger>(
    alloc: Global,
    path: &str,
    script: &Script,
    searches: &mut Patterns,
    options: &Options,
    engines: &mut Vec<Box<dyn Engine>>,
    declared: &mut Items<Labels>,
    courier: &mut C,
    out: &mut S,
    work: &mut Work<W>,
) -> Result<FileEnd, Cut>
    requires kept { KeepsPatterns searches.old script.now }
    requires few { length script.now.commands < 2 ^ 32 }
    requires batch { IsBatch options.now.batch }
    requires ready { AreReady declared.old (map (λ b. seen b) engines.old.items) }
    ensures came { IfOk result (ScriptEnds (under options.now.closed declared.old) script.now (S.written out.old) (S.written out.new) (work.new ≡ work.old)) }
    ensures rests { IfOk result (RestsIfNone (work.new ≡ work.old)) }
    ensures cause { HasCause (S.faults out.old) (S.faults out.new) (IsErrOf result Cut.Write) }
    ensures sound { S.sound out.old → S.sound out.new }
    ensures never { S.sound out.old → IsErrOf result Cut.Write → ⊥ }
    // where each declared engine tells what it holds
    ensures ran { AllTell (length declared.old) (map (λ b. seen b) engines.old.items) → IfOk result (ScriptComesTo (under options.now.closed declared.old) searches.old path.now script.now (S.written out.old) (S.written out.new) (work.new ≡ work.old)) }
    ensures cut { AllTell (length declared.old) (map (λ b. seen b) engines.old.items) → OnErr result (IsCutScript (under options.now.closed declared.old) searches.old path.now script.now (S.written out.old) (S.written out.new)) }
    ensures stopped { AllTell (length declared.old) (map (λ b. seen b) engines.old.items) → IfLost result (λ _. IsStoppedScript (under options.now.closed declared.old) searches.old path.now script.now (S.written out.old) (S.written out.new)) }
    ensures bounded { declared.old ≡ [] → CommandsSpend options.now [] script.now.commands work.old work.new }
    ensures unmoved { 0 < length declared.old → DoNotRise work.old work.new }
    ensures boxes { LeavesBoxes result (map (λ b. seen b) engines.old.items) (map (λ b. seen b) engines.new.items) }
    ensures labels { OnOk result (declared.new ≡ declared.old) }
    ensures ready { OnOk result (AreReady declared.old (map (λ b. seen b) engines.new.items)) }
    ensures sure { AllTell (length declared.old) (map (λ b. seen b) engines.old.items) → AreSound (take (length declared.old) (map (λ b. seen b) engines.old.items)) → LosesNone result }
{
    match run(
        alloc, path, script, searches, options, engines, declared, courier, out, work,
    ) {
        Ok(totals) => Ok(FileEnd::Judged(totals)),
        Err(RunnerFault::Refused(refusal)) => Ok(refused(Refusal::Load(refusal))),
        Err(RunnerFault::Range(line)) => Ok(refused(Refusal::Range(line))),
        Err(RunnerFault::Run(fault)) => Err(Cut::of(fault)),
        Err(RunnerFault::Write) => Err(Cut::Write),
        Err(RunnerFault::Memory) => Err(Cut::Memory),
    }
}

/// Runs the bytes of a file over the engines that are declared, if any is. Where one is lost, the lines of the evaluations before stand.
/// After another error, a write that failed or want of memory, a front of the lines of its first evaluations was written.
pub fn run_bytes<S: Sink, C: Courier, W: Ledger>(
    alloc: Global,
    path: &str,
    bytes: &[u8],
    options: &Options,
    engines: &mut Vec<Box<dyn Engine>>,
    declared: &mut Items<Labels>,
    courier: &mut C,
    out: &mut S,
    work: &mut Work<W>,
) -> Result<FileEnd, Cut>
    requires batch { IsBatch options.now.batch }
    requires ready { AreReady declared.old (map (λ b. seen b) engines.old.items) }
    ensures came { IfOk result (FileEnds (under options.now.closed declared.old) (Just bytes.now) path.now (S.written out.old) (S.written out.new) (work.new ≡ work.old)) }
    ensures rests { IfOk result (RestsIfNone (work.new ≡ work.old)) }
    ensures cause { HasCause (S.faults out.old) (S.faults out.new) (IsErrOf result Cut.Write) }
    ensures sound { S.sound out.old → S.sound out.new }
    ensures never { S.sound out.old → IsErrOf result Cut.Write → ⊥ }
    // where each declared engine tells what it holds
    ensures ran { AllTell (length declared.old) (map (λ b. seen b) engines.old.items) → IfOk result (ComesTo (under options.now.closed declared.old) (Just bytes.now) path.now (S.written out.old) (S.written out.new) (work.new ≡ work.old)) }
    ensures cut { AllTell (length declared.old) (map (λ b. seen b) engines.old.items) → OnErr result (IsCutFile (under options.now.closed declared.old) (Just bytes.now) path.now (S.written out.old) (S.written out.new)) }
    ensures stopped { AllTell (length declared.old) (map (λ b. seen b) engines.old.items) → IfLost result (λ _. IsStoppedFile (under options.now.closed declared.old) (Just bytes.now) path.now (S.written out.old) (S.written out.new)) }
    ensures bounded { declared.old ≡ [] → FileSpends options.now (Just bytes.now) path.now work.old work.new }
    ensures unmoved { 0 < length declared.old → DoNotRise work.old work.new }
    ensures boxes { LeavesBoxes result (map (λ b. seen b) engines.old.items) (map (λ b. seen b) engines.new.items) }
    ensures labels { OnOk result (declared.new ≡ declared.old) }
    ensures ready { OnOk result (AreReady declared.old (map (λ b. seen b) engines.new.items)) }
    ensures sure { AllTell (length declared.old) (map (λ b. seen b) engines.old.items) → AreSound (take (length declared.old) (map (λ b. seen b) engines.old.items)) → LosesNone result }
{
    let mut room = PatternRoom::new(alloc)?;
    let mut searches = Patterns::new(alloc, &mut room);
    match read_script(alloc, bytes, &mut searches) {
        Ok(script) => run_script(
            alloc,
            path,
            &script,
            &mut searches,
            options,
            engines,
            declared,
            courier,
            out,
            work,
        ),
        Err(ReadFault::Refused(refusal)) => Ok(refused(Refusal::Script(refusal))),
        Err(ReadFault::Memory) => Err(Cut::Memory),
    }
}

/// Fetches a file and runs it from empty samples, over the engines that are declared, if any is. Where one is lost, the lines of the
/// evaluations before stand. After another error, a write that failed or want of memory, a front of the lines of its first evaluations was
/// written.
pub fn run_file<L: Library, S: Sink, C: Courier, W: Ledger>(
    alloc: Global,
    path: &str,
    options: &Options,
    library: &mut L,
    engines: &mut Vec<Box<dyn Engine>>,
    declared: &mut Items<Labels>,
    courier: &mut C,
    out: &mut S,
    work: &mut Work<W>,
) -> Result<FileEnd, Cut>
    requires batch { IsBatch options.now.batch }
    requires ready { AreReady declared.old (map (λ b. seen b) engines.old.items) }
    ensures fetched { L.fetches library.old path.now library.new }
    ensures told { L.told library.new ≡ L.told library.old }
    ensures library_sound { L.sound library.old → L.sound library.new }
    ensures later { L.faults library.old ≤ L.faults library.new }
    ensures gone { IfOk result (λ end. end ≡ Stopped Gone → Rose (L.faults library.old) (L.faults library.new)) }
    ensures came { IfOk result (FileEnds (under options.now.closed declared.old) (IsFound (L.told library.old) (L.sound library.old)) path.now (S.written out.old) (S.written out.new) (work.new ≡ work.old)) }
    ensures rests { IfOk result (RestsIfNone (work.new ≡ work.old)) }
    ensures cause { HasCause (S.faults out.old) (S.faults out.new) (IsErrOf result Cut.Write) }
    ensures sound { S.sound out.old → S.sound out.new }
    ensures never { S.sound out.old → IsErrOf result Cut.Write → ⊥ }
    // where each declared engine tells what it holds
    ensures ran { AllTell (length declared.old) (map (λ b. seen b) engines.old.items) → IfOk result (ComesTo (under options.now.closed declared.old) (IsFound (L.told library.old) (L.sound library.old)) path.now (S.written out.old) (S.written out.new) (work.new ≡ work.old)) }
    ensures cut { AllTell (length declared.old) (map (λ b. seen b) engines.old.items) → OnErr result (IsCutFile (under options.now.closed declared.old) (IsFound (L.told library.old) (L.sound library.old)) path.now (S.written out.old) (S.written out.new)) }
    ensures stopped { AllTell (length declared.old) (map (λ b. seen b) engines.old.items) → IfLost result (λ _. IsStoppedFile (under options.now.closed declared.old) (IsFound (L.told library.old) (L.sound library.old)) path.now (S.written out.old) (S.written out.new)) }
    ensures bounded { declared.old ≡ [] → FileSpends options.now (IsFound (L.told library.old) (L.sound library.old)) path.now work.old work.new }
    ensures unmoved { 0 < length declared.old → DoNotRise work.old work.new }
    ensures boxes { LeavesBoxes result (map (λ b. seen b) engines.old.items) (map (λ b. seen b) engines.new.items) }
    ensures labels { OnOk result (declared.new ≡ declared.old) }
    ensures ready { OnOk result (AreReady declared.old (map (λ b. seen b) engines.new.items)) }
    ensures sure { AllTell (length declared.old) (map (λ b. seen b) engines.old.items) → AreSound (take (length declared.old) (map (λ b. seen b) engines.old.items)) → LosesNone result }
{
    match fetch_file(alloc, path, library)? {
        File::Bytes(bytes) => run_bytes(
            alloc,
            path,
            bytes.as_slice(),
            options,
            engines,
            declared,
            courier,
            out,
            work,
        ),
        File::Stopped(stop) => Ok(FileEnd::Stopped(stop)),
    }
}
