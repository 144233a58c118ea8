//! Running a workload.
ghost use Rattle.edge_io.specs.Causes.{HasCause};
ghost use Rattle.promql_tool.specs.Boxes.{IfLost, LeavesBoxes, LosesNone};
ghost use Rattle.promql_tool.specs.Chosen.{under};
ghost use Rattle.promql_tool.specs.Ended.{EndsFiles};
ghost use Rattle.promql_tool.specs.Found.{Just};
ghost use Rattle.promql_tool.specs.Runs.{Ends, IsCutWorkload, IsStoppedWorkload, ReportsWorkload};
ghost use Rattle.promql_tool.specs.Spending.{FileSpends};
ghost use Rattle.promql_tool.specs.Workload.{workload_path, workload_text};
ghost use Rattle.query_engine.specs.Batches.{IsBatch};
ghost use Rattle.query_engine.specs.Engines.{DoNotRise};
ghost use Rattle.std.specs.Prelude.{◌≡◌, ◌≤◌, ◌<◌, [], ◌∷◌, length, map, take, IfOk, IsErrOf};
ghost use Rattle.test_runner.specs.Boxes.{AllTell, AreReady, AreSound};

use crate::fault::Cut;
use crate::files::run_text;
use crate::print::{Status, print_loaded};
use crate::workload::workload_text;
use edge_io::Sink;
use holders::Items;
use label_set::Labels;
use query_engine::Options;
use remote_api::{Courier, Engine};
use std::alloc::Global;
use std::sync::ledger::Ledger;
use ticks::Work;

/// Makes the script of so many series and runs it over the engines that are declared, if any is, behind the line of how much it loads.
/// Where an engine is lost, that line and those of the evaluations before stand. The other errors are a write that failed and want of
/// memory; after them a front of that line and of the lines of its first evaluations was written.
pub fn run_workload<S: Sink, C: Courier, W: Ledger>(
    alloc: Global,
    series: u32,
    options: &Options,
    engines: &mut Vec<Box<dyn Engine>>,
    declared: &mut Items<Labels>,
    courier: &mut C,
    out: &mut S,
    work: &mut Work<W>,
) -> Result<Status, Cut>
    requires some { 1 ≤ series }
    requires few { series ≤ 20000 }
    requires batch { IsBatch options.now.batch }
    requires ready { AreReady declared.old (map (λ b. seen b) engines.old.items) }
    ensures came { IfOk result (λ status. EndsFiles (under options.now.closed declared.old) (Just (workload_text series)) (workload_path ∷ []) (work.new ≡ work.old) (S.written out.new) status.0) }
    ensures cause { HasCause (S.faults out.old) (S.faults out.new) (IsErrOf result Cut.Write) }
    ensures sound { S.sound out.old → S.sound out.new }
    ensures never { S.sound out.old → IsErrOf result Cut.Write → ⊥ }
    // where each declared engine tells what it holds
    ensures ends { AllTell (length declared.old) (map (λ b. seen b) engines.old.items) → Ends (ReportsWorkload (under options.now.closed declared.old) series (work.new ≡ work.old)) (IsCutWorkload (under options.now.closed declared.old) series (S.written out.old) (S.written out.new)) (S.written out.old) (S.written out.new) result }
    ensures stopped { AllTell (length declared.old) (map (λ b. seen b) engines.old.items) → IfLost result (λ _. IsStoppedWorkload (under options.now.closed declared.old) series (S.written out.old) (S.written out.new)) }
    ensures bounded { declared.old ≡ [] → FileSpends options.now (Just (workload_text series)) workload_path work.old work.new }
    ensures unmoved { 0 < length declared.old → DoNotRise work.old work.new }
    ensures boxes { LeavesBoxes result (map (λ b. seen b) engines.old.items) (map (λ b. seen b) engines.new.items) }
    ensures sure { AllTell (length declared.old) (map (λ b. seen b) engines.old.items) → AreSound (take (length declared.old) (map (λ b. seen b) engines.old.items)) → LosesNone result }
{
    let text = workload_text(alloc, series)?;
    print_loaded(alloc, series, out)?;
    run_text(
        alloc, "workload", &text, options, engines, declared, courier, out, work,
    )
}
