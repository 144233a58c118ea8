//! Running files, one after another.
ghost use Rattle.edge_io.specs.Causes.{HasCause, Rose};
ghost use Rattle.edge_io.specs.Fetches.{FetchesFront};
ghost use Rattle.promql_tool.specs.Boxes.{IfLost, LeavesBoxes, LosesNone};
ghost use Rattle.promql_tool.specs.Chosen.{under};
ghost use Rattle.promql_tool.specs.Ended.{EndsFiles};
ghost use Rattle.promql_tool.specs.Found.{IsFound, Just};
ghost use Rattle.promql_tool.specs.Reached.{ReachesFiles, status_of};
ghost use Rattle.promql_tool.specs.Runs.{Ends, IsCutFiles, IsStoppedFiles, ReportsFiles};
ghost use Rattle.promql_tool.specs.Spending.{FileSpends, FilesSpend};
ghost use Rattle.query_engine.specs.Batches.{IsBatch};
ghost use Rattle.query_engine.specs.Engines.{DoNotRise};
ghost use Rattle.std.specs.Prelude.{◌≡◌, ◌+◌, ◌<◌, ◌^◌, [], ◌∷◌, length, map, take, IfOk, OnOk, IsErrOf};
ghost use Rattle.test_runner.specs.Boxes.{AllTell, AreReady, AreSound};

use crate::fault::Cut;
use crate::judge::{FileEnd, run_bytes, run_file};
use crate::print::{Status, or_cut, print_stop, print_totals};
use edge_io::{Library, Sink};
use holders::{Items, Text};
use label_set::Labels;
use query_engine::Options;
use remote_api::{Courier, Engine};
use std::alloc::Global;
use std::sync::ledger::Ledger;
use test_runner::Totals;
use ticks::Work;

/// How many evaluations of all files pass and fail.
#[derive(Clone, Copy)]
pub struct Tally {
    pub passed: u128,
    pub failed: u128,
}

impl Tally {
    /// The totals of one more file.
    fn with(self, totals: Totals) -> Tally
        requires passed { self.passed < 2 ^ 100 }
        requires failed { self.failed < 2 ^ 100 }
        ensures passed { result.passed ≡ self.passed + totals.passed }
        ensures failed { result.failed ≡ self.failed + totals.failed }
        ensures few_passed { result.passed < self.passed + 2 ^ 32 }
        ensures few_failed { result.failed < self.failed + 2 ^ 32 }
    {
        Tally {
            passed: self.passed + u128::from(totals.passed),
            failed: self.failed + u128::from(totals.failed),
        }
    }
}

/// Runs files up to the first that isn't run, over the engines that are declared, if any is, and prints the last line: the totals of all,
/// or the file that isn't run. Where an engine is lost, the lines of the files and evaluations before stand. The other errors are a write
/// that failed and want of memory; after them a front was written of the lines of the files before, and of the first evaluations of the one
/// that was running.
pub fn run_files<L: Library, S: Sink, C: Courier, W: Ledger>(
    alloc: Global,
    files: &[Text],
    options: &Options,
    library: &mut L,
    engines: &mut Vec<Box<dyn Engine>>,
    declared: &mut Items<Labels>,
    courier: &mut C,
    out: &mut S,
    work: &mut Work<W>,
) -> Result<Status, Cut>
    requires batch { IsBatch options.now.batch }
    requires ready { AreReady declared.old (map (λ b. seen b) engines.old.items) }
    ensures fetched { FetchesFront L.fetches files.now library.old library.new }
    ensures told { L.told library.new ≡ L.told library.old }
    ensures library_sound { L.sound library.old → L.sound library.new }
    ensures gone { IfOk result (λ status. status.0 ≡ 3 → Rose (L.faults library.old) (L.faults library.new)) }
    ensures came { IfOk result (λ status. EndsFiles (under options.now.closed declared.old) (IsFound (L.told library.old) (L.sound library.old)) files.now (work.new ≡ work.old) (S.written out.new) status.0) }
    ensures cause { HasCause (S.faults out.old) (S.faults out.new) (IsErrOf result Cut.Write) }
    ensures sound { S.sound out.old → S.sound out.new }
    ensures never { S.sound out.old → IsErrOf result Cut.Write → ⊥ }
    // where each declared engine tells what it holds
    ensures reached { AllTell (length declared.old) (map (λ b. seen b) engines.old.items) → ReachesFiles L.fetches (under options.now.closed declared.old) (IsFound (L.told library.old) (L.sound library.old)) files.now library.old library.new (S.written out.old) (S.written out.new) (work.new ≡ work.old) (status_of result) }
    ensures ends { AllTell (length declared.old) (map (λ b. seen b) engines.old.items) → Ends (ReportsFiles (under options.now.closed declared.old) (IsFound (L.told library.old) (L.sound library.old)) files.now (work.new ≡ work.old)) (IsCutFiles (under options.now.closed declared.old) (IsFound (L.told library.old) (L.sound library.old)) files.now (S.written out.old) (S.written out.new)) (S.written out.old) (S.written out.new) result }
    ensures stopped { AllTell (length declared.old) (map (λ b. seen b) engines.old.items) → IfLost result (λ _. IsStoppedFiles (under options.now.closed declared.old) (IsFound (L.told library.old) (L.sound library.old)) files.now (S.written out.old) (S.written out.new)) }
    ensures bounded { declared.old ≡ [] → FilesSpend options.now (IsFound (L.told library.old) (L.sound library.old)) files.now work.old work.new }
    ensures unmoved { 0 < length declared.old → DoNotRise work.old work.new }
    ensures boxes { LeavesBoxes result (map (λ b. seen b) engines.old.items) (map (λ b. seen b) engines.new.items) }
    ensures sure { AllTell (length declared.old) (map (λ b. seen b) engines.old.items) → AreSound (take (length declared.old) (map (λ b. seen b) engines.old.items)) → LosesNone result }
{
    let mut tally = Tally {
        passed: 0,
        failed: 0,
    };
    for file in files {
        let path = file.as_str();
        match run_file(
            alloc, path, options, library, engines, declared, courier, out, work,
        )? {
            FileEnd::Judged(totals) => tally = tally.with(totals),
            FileEnd::Stopped(stop) => return or_cut(print_stop(alloc, path, &stop, out)),
        }
    }
    or_cut(print_totals(alloc, tally.passed, tally.failed, out))
}

/// Runs a text under a path, over the engines that are declared, if any is, and prints the last line: its totals, or its refusal. Where an
/// engine is lost, the lines of the evaluations before stand. The other errors are a write that failed and want of memory; after them a
/// front was written of the lines of its first evaluations.
pub fn run_text<S: Sink, C: Courier, W: Ledger>(
    alloc: Global,
    path: &str,
    text: &[u8],
    options: &Options,
    engines: &mut Vec<Box<dyn Engine>>,
    declared: &mut Items<Labels>,
    courier: &mut C,
    out: &mut S,
    work: &mut Work<W>,
) -> Result<Status, Cut>
    requires batch { IsBatch options.now.batch }
    requires ready { AreReady declared.old (map (λ b. seen b) engines.old.items) }
    ensures came { IfOk result (λ status. EndsFiles (under options.now.closed declared.old) (Just text.now) (path.now ∷ []) (work.new ≡ work.old) (S.written out.new) status.0) }
    ensures cause { HasCause (S.faults out.old) (S.faults out.new) (IsErrOf result Cut.Write) }
    ensures sound { S.sound out.old → S.sound out.new }
    ensures never { S.sound out.old → IsErrOf result Cut.Write → ⊥ }
    // where each declared engine tells what it holds
    ensures ends { AllTell (length declared.old) (map (λ b. seen b) engines.old.items) → Ends (ReportsFiles (under options.now.closed declared.old) (Just text.now) (path.now ∷ []) (work.new ≡ work.old)) (IsCutFiles (under options.now.closed declared.old) (Just text.now) (path.now ∷ []) (S.written out.old) (S.written out.new)) (S.written out.old) (S.written out.new) result }
    ensures stopped { AllTell (length declared.old) (map (λ b. seen b) engines.old.items) → IfLost result (λ _. IsStoppedFiles (under options.now.closed declared.old) (Just text.now) (path.now ∷ []) (S.written out.old) (S.written out.new)) }
    ensures bounded { declared.old ≡ [] → FileSpends options.now (Just text.now) path.now work.old work.new }
    ensures unmoved { 0 < length declared.old → DoNotRise work.old work.new }
    ensures boxes { LeavesBoxes result (map (λ b. seen b) engines.old.items) (map (λ b. seen b) engines.new.items) }
    ensures sure { AllTell (length declared.old) (map (λ b. seen b) engines.old.items) → AreSound (take (length declared.old) (map (λ b. seen b) engines.old.items)) → LosesNone result }
{
    match run_bytes(
        alloc, path, text, options, engines, declared, courier, out, work,
    )? {
        FileEnd::Judged(totals) => {
            let Totals { passed, failed } = totals;
            or_cut(print_totals(alloc, u128::from(passed), u128::from(failed), out))
        }
        FileEnd::Stopped(stop) => or_cut(print_stop(alloc, path, &stop, out)),
    }
}
