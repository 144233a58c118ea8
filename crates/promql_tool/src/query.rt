//! Answering an expression over the samples of a file.
ghost use Rattle.edge_io.specs.Causes.{HasCause, Rose};
ghost use Rattle.promql_tool.specs.Boxes.{IfLost, LeavesBoxes, LosesNone};
ghost use Rattle.promql_tool.specs.Chosen.{under};
ghost use Rattle.promql_tool.specs.Ended.{EndsFiles};
ghost use Rattle.promql_tool.specs.Found.{IsFound, Just};
ghost use Rattle.promql_tool.specs.Query.{Queried};
ghost use Rattle.promql_tool.specs.Runs.{AnswersFile, AnswersScript, Ends, FileAnswers, IsCutReport, ReportsAnswered, ReportsQuery, ScriptAnswers};
ghost use Rattle.promql_tool.specs.Spending.{QuerySpends};
ghost use Rattle.promql_tool.specs.declared.fault.Stop.TheVariants.{Gone};
ghost use Rattle.promql_tool.specs.declared.query.Answered.TheVariants.{Stopped};
ghost use Rattle.query_engine.specs.Batches.{IsBatch};
ghost use Rattle.query_engine.specs.Bounds.{Spends};
ghost use Rattle.query_engine.specs.Engines.{DoNotRise};
ghost use Rattle.query_engine.specs.Planning.{choices_of};
ghost use Rattle.std.specs.Prelude.{◌≡◌, ◌<◌, ℕ, List, [], ◌∷◌, length, map, take, IfErr, IfOk, IsErrOf};
ghost use Rattle.test_runner.specs.Boxes.{AllTell, AreReady, AreSound};
ghost use Rattle.test_runner.specs.Loads.{samples_left};

use crate::fault::{Cut, Refusal, Stop};
use crate::fetch::{File, fetch_file, read_script};
use crate::print::{Status, or_cut, print_outcome, print_stop};
use crate::text::note_lines;
use edge_io::{Library, Sink, SinkFail};
use holders::Items;
use label_set::Labels;
use match_rule::{PatternRoom, Patterns};
use promql_meaning::Outcome;
use query_engine::Options;
use remote_api::{Courier, Engine};
use script_read::{ReadFault, Script};
use std::alloc::Global;
use std::sync::ledger::Ledger;
use test_runner::{RunnerFault, answer};
use ticks::{Grid, Work};

/// An expression and the instants of a grid, or its first one where `instant` is told, and what is chosen for it.
#[derive(Clone, Copy)]
pub struct Question<'a> {
    pub expr: &'a str,
    pub grid: &'a Grid,
    pub instant: bool,
    pub options: &'a Options,
}

/// What a question over a file came to.
#[derive(Drop)]
pub enum Answered {
    /// The expression has this outcome.
    Outcome(Outcome),
    /// The file isn't run.
    Stopped(Stop),
}

fn refused(refusal: Refusal) -> Answered
    ensures { result ≡ Stopped (Stop.Refused refusal) }
{
    Answered::Stopped(Stop::Refused(refusal))
}

/// Answers a question over the samples of a script, and over the engines that are declared, if any is. One of them may be lost; the only
/// other error is want of memory.
fn answer_script<C: Courier, W: Ledger>(
    alloc: Global,
    script: &Script,
    question: Question<'_>,
    engines: &mut Vec<Box<dyn Engine>>,
    declared: &mut Items<Labels>,
    courier: &mut C,
    work: &mut Work<W>,
) -> Result<Answered, Cut>
    requires batch { IsBatch question.options.now.batch }
    requires ready { AreReady declared.old (map (λ b. seen b) engines.old.items) }
    ensures came { IfOk result (ScriptAnswers (under question.entry.options.now.closed declared.old) script.now (work.new ≡ work.old)) }
    ensures answered { AllTell (length declared.old) (map (λ b. seen b) engines.old.items) → IfOk result (AnswersScript (under question.entry.options.now.closed declared.old) script.now question.entry.expr.now question.entry.grid.now question.entry.instant (work.new ≡ work.old)) }
    ensures unwritten { IsErrOf result Cut.Write → ⊥ }
    ensures idle { IfErr (samples_left declared.old script.now) (λ _. work.new ≡ work.old) }
    ensures bounded { declared.old ≡ [] → IfOk (samples_left [] script.now) (λ series. Spends question.entry.expr.now series question.entry.grid.now (choices_of question.entry.options.now) question.entry.options.now.closed work.old work.new) }
    ensures unmoved { 0 < length declared.old → DoNotRise work.old work.new }
    ensures boxes { LeavesBoxes result (map (λ b. seen b) engines.old.items) (map (λ b. seen b) engines.new.items) }
    ensures sure { AllTell (length declared.old) (map (λ b. seen b) engines.old.items) → AreSound (take (length declared.old) (map (λ b. seen b) engines.old.items)) → LosesNone result }
{
    let Question {
        expr,
        grid,
        instant,
        options,
    } = question;
    match answer(
        alloc, script, expr, grid, instant, options, engines, declared, courier, work,
    ) {
        Ok(outcome) => Ok(Answered::Outcome(outcome)),
        Err(RunnerFault::Refused(refusal)) => Ok(refused(Refusal::Load(refusal))),
        Err(RunnerFault::Range(line)) => Ok(refused(Refusal::Range(line))),
        Err(RunnerFault::Run(fault)) => Err(Cut::of(fault)),
        Err(RunnerFault::Write) => Err(Cut::Memory),
        Err(RunnerFault::Memory) => Err(Cut::Memory),
    }
}

/// Answers a question over the bytes of a file, and over the engines that are declared, if any is. One of them may be lost; the only other
/// error is want of memory.
fn answer_bytes<C: Courier, W: Ledger>(
    alloc: Global,
    bytes: &[u8],
    question: Question<'_>,
    engines: &mut Vec<Box<dyn Engine>>,
    declared: &mut Items<Labels>,
    courier: &mut C,
    work: &mut Work<W>,
) -> Result<Answered, Cut>
    requires batch { IsBatch question.options.now.batch }
    requires ready { AreReady declared.old (map (λ b. seen b) engines.old.items) }
    ensures came { (path : List ℕ) → IfOk result (FileAnswers (under question.entry.options.now.closed declared.old) (Just bytes.now) path (work.new ≡ work.old)) }
    ensures answered { AllTell (length declared.old) (map (λ b. seen b) engines.old.items) → (path : List ℕ) → IfOk result (AnswersFile (under question.entry.options.now.closed declared.old) (Just bytes.now) path question.entry.expr.now question.entry.grid.now question.entry.instant (work.new ≡ work.old)) }
    ensures unwritten { IsErrOf result Cut.Write → ⊥ }
    ensures bounded { declared.old ≡ [] → (path : List ℕ) → QuerySpends question.entry.options.now (Just bytes.now) path question.entry.expr.now question.entry.grid.now work.old work.new }
    ensures unmoved { 0 < length declared.old → DoNotRise work.old work.new }
    ensures boxes { LeavesBoxes result (map (λ b. seen b) engines.old.items) (map (λ b. seen b) engines.new.items) }
    ensures sure { AllTell (length declared.old) (map (λ b. seen b) engines.old.items) → AreSound (take (length declared.old) (map (λ b. seen b) engines.old.items)) → LosesNone result }
{
    let mut room = PatternRoom::new(alloc)?;
    let mut searches = Patterns::new(alloc, &mut room);
    match read_script(alloc, bytes, &mut searches) {
        Ok(script) => answer_script(alloc, &script, question, engines, declared, courier, work),
        Err(ReadFault::Refused(refusal)) => Ok(refused(Refusal::Script(refusal))),
        Err(ReadFault::Memory) => Err(Cut::Memory),
    }
}

/// Fetches a file and answers a question over it, and over the engines that are declared, if any is. One of them may be lost; the only
/// other error is want of memory.
fn answer_file<L: Library, C: Courier, W: Ledger>(
    alloc: Global,
    path: &str,
    question: Question<'_>,
    library: &mut L,
    engines: &mut Vec<Box<dyn Engine>>,
    declared: &mut Items<Labels>,
    courier: &mut C,
    work: &mut Work<W>,
) -> Result<Answered, Cut>
    requires batch { IsBatch question.options.now.batch }
    requires ready { AreReady declared.old (map (λ b. seen b) engines.old.items) }
    ensures fetched { L.fetches library.old path.now library.new }
    ensures told { L.told library.new ≡ L.told library.old }
    ensures sound { L.sound library.old → L.sound library.new }
    ensures gone { IfOk result (λ answered. answered ≡ Stopped Gone → Rose (L.faults library.old) (L.faults library.new)) }
    ensures came { IfOk result (FileAnswers (under question.entry.options.now.closed declared.old) (IsFound (L.told library.old) (L.sound library.old)) path.now (work.new ≡ work.old)) }
    ensures answered { AllTell (length declared.old) (map (λ b. seen b) engines.old.items) → IfOk result (AnswersFile (under question.entry.options.now.closed declared.old) (IsFound (L.told library.old) (L.sound library.old)) path.now question.entry.expr.now question.entry.grid.now question.entry.instant (work.new ≡ work.old)) }
    ensures unwritten { IsErrOf result Cut.Write → ⊥ }
    ensures bounded { declared.old ≡ [] → QuerySpends question.entry.options.now (IsFound (L.told library.old) (L.sound library.old)) path.now question.entry.expr.now question.entry.grid.now work.old work.new }
    ensures unmoved { 0 < length declared.old → DoNotRise work.old work.new }
    ensures boxes { LeavesBoxes result (map (λ b. seen b) engines.old.items) (map (λ b. seen b) engines.new.items) }
    ensures sure { AllTell (length declared.old) (map (λ b. seen b) engines.old.items) → AreSound (take (length declared.old) (map (λ b. seen b) engines.old.items)) → LosesNone result }
{
    match fetch_file(alloc, path, library)? {
        File::Bytes(bytes) => answer_bytes(
            alloc,
            bytes.as_slice(),
            question,
            engines,
            declared,
            courier,
            work,
        ),
        File::Stopped(stop) => Ok(Answered::Stopped(stop)),
    }
}

/// Prints what a question came to: the sorted notes are made before the first line is printed.
fn print_answered<S: Sink>(
    alloc: Global,
    path: &str,
    answered: &Answered,
    out: &mut S,
) -> Result<Status, SinkFail>
    ensures ends { Ends (ReportsAnswered path.now answered.now) (IsCutReport (ReportsAnswered path.now answered.now) (S.written out.old) (S.written out.new))
        (S.written out.old) (S.written out.new) result }
    ensures cause { HasCause (S.faults out.old) (S.faults out.new) (IsErrOf result SinkFail.Failed) }
    ensures sound { S.sound out.old → S.sound out.new }
    ensures never { S.sound out.old → IsErrOf result SinkFail.Failed → ⊥ }
{
    match answered {
        Answered::Outcome(outcome) => {
            let notes = note_lines(alloc, outcome)?;
            print_outcome(alloc, outcome, &notes, out)
        }
        Answered::Stopped(stop) => print_stop(alloc, path, stop, out),
    }
}

/// Answers a question over the samples that a file loads, and over the engines that are declared, if any is, and prints what it comes to.
/// Where an engine is lost nothing was printed. The other errors are a write that failed and want of memory.
pub fn run_query<L: Library, S: Sink, C: Courier, W: Ledger>(
    alloc: Global,
    path: &str,
    question: Question<'_>,
    library: &mut L,
    engines: &mut Vec<Box<dyn Engine>>,
    declared: &mut Items<Labels>,
    courier: &mut C,
    out: &mut S,
    work: &mut Work<W>,
) -> Result<Status, Cut>
    requires batch { IsBatch question.options.now.batch }
    requires ready { AreReady declared.old (map (λ b. seen b) engines.old.items) }
    ensures fetched { L.fetches library.old path.now library.new }
    ensures told { L.told library.new ≡ L.told library.old }
    ensures library_sound { L.sound library.old → L.sound library.new }
    ensures gone { IfOk result (λ status. status.0 ≡ 3 → Rose (L.faults library.old) (L.faults library.new)) }
    ensures came { IfOk result (λ status. EndsFiles (under question.entry.options.now.closed declared.old) (IsFound (L.told library.old) (L.sound library.old)) (path.now ∷ []) (work.new ≡ work.old) (S.written out.new) status.0) }
    ensures cause { HasCause (S.faults out.old) (S.faults out.new) (IsErrOf result Cut.Write) }
    ensures sound { S.sound out.old → S.sound out.new }
    ensures never { S.sound out.old → IsErrOf result Cut.Write → ⊥ }
    ensures stopped { IfLost result (λ _. S.written out.new ≡ S.written out.old) }
    // where each declared engine tells what it holds
    ensures ends { AllTell (length declared.old) (map (λ b. seen b) engines.old.items) → Ends (ReportsQuery (under question.entry.options.now.closed declared.old) (IsFound (L.told library.old) (L.sound library.old)) path.now question.entry.expr.now question.entry.grid.now question.entry.instant (work.new ≡ work.old))
        (IsCutReport (Queried (under question.entry.options.now.closed declared.old) (IsFound (L.told library.old) (L.sound library.old)) path.now question.entry.expr.now question.entry.grid.now question.entry.instant) (S.written out.old) (S.written out.new))
        (S.written out.old) (S.written out.new) result }
    ensures bounded { declared.old ≡ [] → QuerySpends question.entry.options.now (IsFound (L.told library.old) (L.sound library.old)) path.now question.entry.expr.now question.entry.grid.now work.old work.new }
    ensures unmoved { 0 < length declared.old → DoNotRise work.old work.new }
    ensures boxes { LeavesBoxes result (map (λ b. seen b) engines.old.items) (map (λ b. seen b) engines.new.items) }
    ensures sure { AllTell (length declared.old) (map (λ b. seen b) engines.old.items) → AreSound (take (length declared.old) (map (λ b. seen b) engines.old.items)) → LosesNone result }
{
    let answered = answer_file(
        alloc, path, question, library, engines, declared, courier, work,
    )?;
    or_cut(print_answered(alloc, path, &answered, out))
}
