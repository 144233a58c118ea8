//! The whole program, over the words after its name.
ghost use Rattle.edge_io.specs.Causes.{HasCause, Rose};
ghost use Rattle.edge_io.specs.Fetches.{FetchesFront};
ghost use Rattle.edge_io.specs.Written.{appended};
ghost use Rattle.promql_tool.specs.Boxes.{AreFresh, DeclaredSound, HasLostOne, IfLost, IsLostLast, KeepsBoxes, KeepsCalm, LeavesBoxes, LosesNone};
ghost use Rattle.promql_tool.specs.Chosen.{DeclaredTell, declared_of, terms_of};
ghost use Rattle.promql_tool.specs.Ended.{EndsWords, HasItsFiles, IsGoneLast, IsRefusedLast};
ghost use Rattle.promql_tool.specs.Ends.{IfFirst, IfMade, IsCut, IsGone, IsOneOf, IsRefused, IsStoppedWords, IsUnrun, Reports};
ghost use Rattle.promql_tool.specs.Found.{Have, IsFound};
ghost use Rattle.promql_tool.specs.Reached.{Reaches, status_of};
ghost use Rattle.promql_tool.specs.Reading.{IsNoScript};
ghost use Rattle.promql_tool.specs.Report.{AsksToPrint, HasReport, files_of};
ghost use Rattle.promql_tool.specs.Runs.{Ends, ReportsWords};
ghost use Rattle.promql_tool.specs.Spending.{WordsSpend, engine_options};
ghost use Rattle.promql_tool.specs.Standing.{StandsBefore};
ghost use Rattle.promql_tool.specs.Texts.{usage};
ghost use Rattle.query_engine.specs.Engines.{DoNotRise};
ghost use Rattle.std.specs.Prelude.{◌≡◌, ◌≤◌, ◌<◌, ◌^◌, ◌⊎◌, ℕ, [], ◌∷◌, List, Contains, None, length, map, string_bytes, IfOk, IfSome, IsErrOf};
ghost use Rattle.tool_words.specs.Asked.{asked};

use crate::boxes::declare;
use crate::fault::Cut;
use crate::files::run_files;
use crate::print::{Status, end_cut, or_cut, print_usage};
use crate::printing::{run_explain, run_format};
use crate::query::{Question, run_query};
use crate::working::run_workload;
use edge_io::{Library, Sink};
use query_engine::Options;
use remote_api::{Courier, Engine};
use std::alloc::Global;
use std::sync::ledger::Ledger;
use ticks::Work;
use tool_words::{Asked, Choices, read_words};

/// How many boxes there are.
fn box_count(engines: &[Box<dyn Engine>]) -> u32
    requires { length engines.now < 2 ^ 32 }
    ensures { result ≡ length engines.now }
{
    engines.len() as u32
}

/// What is chosen for evaluations, as the engine takes it.
fn options_of(choices: Choices) -> Options
    ensures { result ≡ engine_options choices }
{
    let Choices {
        closed,
        batch,
        optimisers,
    } = choices;
    Options {
        sort: optimisers.sort,
        propagate: optimisers.propagate,
        merge: optimisers.merge,
        trim: optimisers.trim,
        avg: optimisers.avg,
        remote: optimisers.remote,
        batch,
        closed,
    }
}

/// Runs what the words ask for. What they declare is declared to the first boxes before the first fetch; of what is printed of an expression
/// no box is called. Where an engine is lost its line isn't printed yet. The other errors are a write that failed and want of memory.
fn run_words<L: Library, S: Sink, C: Courier, W: Ledger>(
    alloc: Global,
    words: &[String],
    library: &mut L,
    out: &mut S,
    engines: &mut Vec<Box<dyn Engine>>,
    courier: &mut C,
    work: &mut Work<W>,
) -> Result<Status, Cut>
    requires few { length engines.old.items < 2 ^ 32 }
    requires fresh { AreFresh (map (λ b. seen b) engines.old.items) }
    ensures fetched { FetchesFront L.fetches (files_of (length engines.old.items) (map string_bytes words.now)) library.old library.new }
    ensures told { L.told library.new ≡ L.told library.old }
    ensures library_sound { L.sound library.old → L.sound library.new }
    ensures gone { IfOk result (λ status. status.0 ≡ 3 → Rose (L.faults library.old) (L.faults library.new)) }
    ensures came { IfOk result (λ status. EndsWords (length engines.old.items) (map string_bytes words.now) (IsFound (L.told library.old) (L.sound library.old)) (work.new ≡ work.old) (S.written out.old) (S.written out.new) status.0) }
    ensures unevaluated { AsksToPrint (asked (length engines.old.items) (map string_bytes words.now)) → work.new ≡ work.old }
    ensures cause { HasCause (S.faults out.old) (S.faults out.new) (IsErrOf result Cut.Write) }
    ensures sound { S.sound out.old → S.sound out.new }
    ensures never { S.sound out.old → IsErrOf result Cut.Write → ⊥ }
    // where each declared engine tells what it holds
    ensures reached { DeclaredTell (length engines.old.items) (map string_bytes words.now) (map (λ b. seen b) engines.old.items) → Reaches L.fetches (length engines.old.items) (map string_bytes words.now) (IsFound (L.told library.old) (L.sound library.old)) library.old library.new (S.written out.old) (S.written out.new) (work.new ≡ work.old) (status_of result) }
    ensures ends { DeclaredTell (length engines.old.items) (map string_bytes words.now) (map (λ b. seen b) engines.old.items) → Ends (ReportsWords (length engines.old.items) (map string_bytes words.now) (IsFound (L.told library.old) (L.sound library.old)) (work.new ≡ work.old))
        (IsCut (length engines.old.items) (map string_bytes words.now) (IsFound (L.told library.old) (L.sound library.old)) (S.written out.old) (S.written out.new))
        (S.written out.old) (S.written out.new) result }
    ensures stopped { DeclaredTell (length engines.old.items) (map string_bytes words.now) (map (λ b. seen b) engines.old.items) → IfLost result (λ _. IsStoppedWords (length engines.old.items) (map string_bytes words.now) (IsFound (L.told library.old) (L.sound library.old)) (S.written out.old) (S.written out.new)) }
    ensures bounded { declared_of (length engines.old.items) (map string_bytes words.now) ≡ [] → WordsSpend (length engines.old.items) (map string_bytes words.now) (IsFound (L.told library.old) (L.sound library.old)) work.old work.new }
    ensures unmoved { 0 < length (declared_of (length engines.old.items) (map string_bytes words.now)) → DoNotRise work.old work.new }
    ensures boxes { LeavesBoxes result (map (λ b. seen b) engines.old.items) (map (λ b. seen b) engines.new.items) }
    ensures sure { DeclaredTell (length engines.old.items) (map string_bytes words.now) (map (λ b. seen b) engines.old.items) → DeclaredSound (length engines.old.items) (map string_bytes words.now) (map (λ b. seen b) engines.old.items) → LosesNone result }
{
    let boxes = box_count(engines.as_slice());
    match read_words(alloc, words, boxes)? {
        None => or_cut(print_usage(out)),
        Some(
            Asked::Test {
                choices,
                engines: mut declared,
                files,
            },
        ) => {
            declare(engines, declared.as_slice())?;
            let options = options_of(choices);
            let files = files.as_slice();
            run_files(
                alloc,
                files,
                &options,
                library,
                engines,
                &mut declared,
                courier,
                out,
                work,
            )
        }
        Some(
            Asked::Query {
                choices,
                engines: mut declared,
                grid,
                instant,
                file,
                expr,
            },
        ) => {
            declare(engines, declared.as_slice())?;
            let options = options_of(choices);
            let question = Question {
                expr: expr.as_str(),
                grid: &grid,
                instant,
                options: &options,
            };
            run_query(
                alloc,
                file.as_str(),
                question,
                library,
                engines,
                &mut declared,
                courier,
                out,
                work,
            )
        }
        Some(
            Asked::Workload {
                choices,
                engines: mut declared,
                count,
            },
        ) => {
            declare(engines, declared.as_slice())?;
            let options = options_of(choices);
            run_workload(
                alloc,
                count,
                &options,
                engines,
                &mut declared,
                courier,
                out,
                work,
            )
        }
        Some(Asked::Format { expr }) => or_cut(run_format(alloc, expr.as_str(), out)),
        Some(
            Asked::Explain {
                optimisers,
                engines,
                expr,
            },
        ) => or_cut(run_explain(alloc, &engines, optimisers, expr.as_str(), out)),
    }
}

/// Runs `promqltest FILE..`: fetches the files in order, judges each evaluation of a script over the samples that its file
/// loads, and prints a line for each and the totals of all; or `query FILE EXPR`: answers an expression over the samples
/// that a file loads; or `workload N`: makes a script of N series and runs it as a file; or `format EXPR`: prints an expression in
/// its canonical form; or `explain EXPR`: prints its plan. These neither fetch nor evaluate anything. With `--edges v2` windows have their left
/// edge too, as in Prometheus 2. With `--batch B` at most B instants are computed at once, which changes nothing that is printed. `--opts`
/// chooses the rewrites of plans, which change nothing but the plan that `explain` prints.
///
/// With `--engines S` samples go to engines instead, each to the one whose declared labels its series has, and evaluations ask these. The
/// k-th labels are declared to the k-th box, before the first fetch. The courier picks the engine that is pulled next, which changes nothing
/// that is printed. An engine that fails or strays is printed, counted from 1, and ends the run; its box stands behind all others then.
/// After every other status the boxes stand in their order.
///
/// Samples are read by counted calls, in `work`, whose counters rise by at most what the plans of the evaluations cost; with engines they
/// don't rise. Status 0: all pass, the query has an answer, or the expression or its plan was printed. 1: some don't pass, the query was
/// refused or failed, or the expression was refused. 2: the words are no command. 3: a file can't be fetched. 4: a write failed. 5: an engine
/// failed or strayed. 6: a file is no script, or a load of it is refused. 7: memory ran out.
///
/// There are fewer than 2^32 boxes, and each was handed as it was made: without a fault or a stray, and where it tells what it holds, empty and
/// undeclared.
pub fn run_tool<L: Library, S: Sink, C: Courier, W: Ledger>(
    alloc: Global,
    words: &[String],
    library: &mut L,
    out: &mut S,
    engines: &mut Vec<Box<dyn Engine>>,
    courier: &mut C,
    work: &mut Work<W>,
) -> Status
    requires few { length engines.old.items < 2 ^ 32 }
    requires fresh { AreFresh (map (λ b. seen b) engines.old.items) }
    ensures statuses { IsOneOf (0 ∷ 1 ∷ 2 ∷ 3 ∷ 4 ∷ 5 ∷ 6 ∷ 7 ∷ []) result.0 }

    // Where each declared engine tells what it holds, what is printed is a report of the words and of what the library was found to hold, and
    // the status is the report's; over a library that tells, a report of its files, but for a status 3, for which see `there`.
    ensures report { DeclaredTell (length engines.old.items) (map string_bytes words.now) (map (λ b. seen b) engines.old.items) → IsOneOf (0 ∷ 1 ∷ 2 ∷ 3 ∷ 6 ∷ []) result.0 →
        HasReport (length engines.old.items) (map string_bytes words.now) (IsFound (L.told library.old) (L.sound library.old)) (Reports (S.written out.old) (S.written out.new) result.0) }
    ensures report_told { DeclaredTell (length engines.old.items) (map string_bytes words.now) (map (λ b. seen b) engines.old.items) → IfSome (L.told library.old) (λ files. IsOneOf (0 ∷ 1 ∷ 2 ∷ 6 ∷ []) result.0 →
        HasReport (length engines.old.items) (map string_bytes words.now) (Have files) (Reports (S.written out.old) (S.written out.new) result.0)) }

    // Where nothing can fail, the status is a report's, unless memory runs out; it is 0 or 1 where the words are a command and what they need is
    // there.
    ensures answered { DeclaredTell (length engines.old.items) (map string_bytes words.now) (map (λ b. seen b) engines.old.items) → DeclaredSound (length engines.old.items) (map string_bytes words.now) (map (λ b. seen b) engines.old.items) → IfSome (L.told library.old) (λ files. L.sound library.old → S.sound out.old →
        HasReport (length engines.old.items) (map string_bytes words.now) (Have files) (λ report. result.0 ≡ report.status) ⊎ (result.0 ≡ 7)) }
    ensures complete { DeclaredTell (length engines.old.items) (map string_bytes words.now) (map (λ b. seen b) engines.old.items) → DeclaredSound (length engines.old.items) (map string_bytes words.now) (map (λ b. seen b) engines.old.items) → IfSome (L.told library.old) (λ files. L.sound library.old → S.sound out.old →
        HasItsFiles (asked (length engines.old.items) (map string_bytes words.now)) files → IsOneOf (0 ∷ 1 ∷ 7 ∷ []) result.0) }

    // The files of the words were fetched, from the first on, each at most once for each time that it is named, and nothing
    // else: of words that are no command nothing. What library and sink tell of themselves stays.
    ensures fetched { FetchesFront L.fetches (files_of (length engines.old.items) (map string_bytes words.now)) library.old library.new }

    // A run over files fetches them until all were judged, or up to and with the first at which it stops: one that isn't there or is
    // refused, of which nothing is evaluated, or in which an engine was lost, a write failed or memory ran out. A query fetches its one file.
    ensures reached { DeclaredTell (length engines.old.items) (map string_bytes words.now) (map (λ b. seen b) engines.old.items) → Reaches L.fetches (length engines.old.items) (map string_bytes words.now) (IsFound (L.told library.old) (L.sound library.old)) library.old library.new (S.written out.old) (S.written out.new) (work.new ≡ work.old) result.0 }
    ensures told { L.told library.new ≡ L.told library.old }
    ensures library_sound { L.sound library.old → L.sound library.new }
    ensures sink_sound { S.sound out.old → S.sound out.new }

    // 2: exactly where the words are no command; then the usage line is written.
    ensures usage { result.0 ≡ 2 → (asked (length engines.old.items) (map string_bytes words.now) ≡ None) × (S.written out.new ≡ appended (S.written out.old) usage) }
    ensures words { asked (length engines.old.items) (map string_bytes words.now) ≡ None → IsOneOf (2 ∷ 4 ∷ 7 ∷ []) result.0 }

    // 6: a file of the words is refused, or the script of a workload, and its refusal is printed last; where each declared engine tells, behind the
    // verdicts of the files before it, or how much the workload loads, and no more.
    ensures refusal_line { result.0 ≡ 6 → IsRefusedLast (length engines.old.items) (map string_bytes words.now) (IsFound (L.told library.old) (L.sound library.old)) (S.written out.new) }
    ensures refused { DeclaredTell (length engines.old.items) (map string_bytes words.now) (map (λ b. seen b) engines.old.items) → result.0 ≡ 6 →
        IsRefused (length engines.old.items) (map string_bytes words.now) (IsFound (L.told library.old) (L.sound library.old)) (S.written out.old) (S.written out.new) }
    ensures outside { IfSome (L.told library.old) (λ files. (path : List ℕ) → Contains (files_of (length engines.old.items) (map string_bytes words.now)) path →
        IsUnrun (terms_of (length engines.old.items) (map string_bytes words.now)) (files path) → IsOneOf (3 ∷ 4 ∷ 5 ∷ 6 ∷ 7 ∷ []) result.0) }
    ensures made { IfMade (asked (length engines.old.items) (map string_bytes words.now)) (λ terms text. IsNoScript terms text → IsOneOf (4 ∷ 5 ∷ 6 ∷ 7 ∷ []) result.0) }

    // Where the words are no command, or the only file isn't there or is refused, nothing was evaluated; nor where the
    // first one is so.
    ensures idle { IsOneOf (2 ∷ 3 ∷ 6 ∷ []) result.0 → length (files_of (length engines.old.items) (map string_bytes words.now)) ≤ 1 → work.new ≡ work.old }
    ensures idle_first { IfSome (L.told library.old) (λ files. IfFirst (files_of (length engines.old.items) (map string_bytes words.now)) (λ path.
        IsUnrun (terms_of (length engines.old.items) (map string_bytes words.now)) (files path) → IsOneOf (3 ∷ 6 ∷ []) result.0 → work.new ≡ work.old)) }

    // Of an expression that is printed, or its plan, nothing is evaluated.
    ensures unevaluated { AsksToPrint (asked (length engines.old.items) (map string_bytes words.now)) → work.new ≡ work.old }

    // The counters rise by at most what the plans of all evaluations cost, each over the samples that stand then; with engines they don't rise.
    ensures bounded { declared_of (length engines.old.items) (map string_bytes words.now) ≡ [] → WordsSpend (length engines.old.items) (map string_bytes words.now) (IsFound (L.told library.old) (L.sound library.old)) work.old work.new }
    ensures unmoved { 0 < length (declared_of (length engines.old.items) (map string_bytes words.now)) → DoNotRise work.old work.new }

    // 3: a fetch failed, of a file of the words, and its fault is printed last; where each declared engine tells, behind the verdicts of the
    // files before it, and no more. Over a sound library that tells, exactly where it isn't there.
    ensures fetch { result.0 ≡ 3 → Rose (L.faults library.old) (L.faults library.new) }
    ensures gone_line { result.0 ≡ 3 → IsGoneLast (length engines.old.items) (map string_bytes words.now) (IsFound (L.told library.old) (L.sound library.old)) (S.written out.new) }
    ensures fault_line { DeclaredTell (length engines.old.items) (map string_bytes words.now) (map (λ b. seen b) engines.old.items) → result.0 ≡ 3 →
        IsGone (terms_of (length engines.old.items) (map string_bytes words.now)) (files_of (length engines.old.items) (map string_bytes words.now)) (IsFound (L.told library.old) (L.sound library.old)) (S.written out.old) (S.written out.new) }
    ensures there { DeclaredTell (length engines.old.items) (map string_bytes words.now) (map (λ b. seen b) engines.old.items) → IfSome (L.told library.old) (λ files. L.sound library.old → result.0 ≡ 3 →
        IsGone (terms_of (length engines.old.items) (map string_bytes words.now)) (files_of (length engines.old.items) (map string_bytes words.now)) (Have files) (S.written out.old) (S.written out.new)) }
    ensures missing { IfSome (L.told library.old) (λ files. IfFirst (files_of (length engines.old.items) (map string_bytes words.now)) (λ path.
        files path ≡ None → IsOneOf (3 ∷ 4 ∷ 5 ∷ 7 ∷ []) result.0)) }

    // 4: a write failed. After it, or want of memory, nothing was written, or a front of what the run prints as far as it came.
    ensures write { result.0 ≡ 4 → Rose (S.faults out.old) (S.faults out.new) }
    ensures sound { S.sound out.old → result.0 ≡ 4 → ⊥ }
    ensures cut { DeclaredTell (length engines.old.items) (map string_bytes words.now) (map (λ b. seen b) engines.old.items) → IsOneOf (4 ∷ 7 ∷ []) result.0 →
        IsCut (length engines.old.items) (map string_bytes words.now) (IsFound (L.told library.old) (L.sound library.old)) (S.written out.old) (S.written out.new) }

    // 5: an engine failed or strayed, which is printed last; its box stands behind all others, which stay in their order. Where each declared
    // engine tells, what was written up to then stands before that line. It doesn't come where no engine is declared, nor where each that is
    // declared is sound and tells. After any other status the boxes stand in their order and none has strayed, but that after a write that
    // failed, or want of memory, one may have strayed or been lost as well.
    ensures engine_fault { result.0 ≡ 5 → IsLostLast (map (λ b. seen b) engines.old.items) (map (λ b. seen b) engines.new.items) (S.written out.new) }
    ensures before { DeclaredTell (length engines.old.items) (map string_bytes words.now) (map (λ b. seen b) engines.old.items) → result.0 ≡ 5 → StandsBefore (length engines.old.items) (map string_bytes words.now) (IsFound (L.told library.old) (L.sound library.old)) (map (λ b. seen b) engines.old.items) (map (λ b. seen b) engines.new.items) (S.written out.old) (S.written out.new) }
    ensures boxes { IsOneOf (0 ∷ 1 ∷ 2 ∷ 3 ∷ 6 ∷ []) result.0 → KeepsCalm (map (λ b. seen b) engines.old.items) (map (λ b. seen b) engines.new.items) }
    ensures boxes_cut { IsOneOf (4 ∷ 7 ∷ []) result.0 → KeepsBoxes (map (λ b. seen b) engines.old.items) (map (λ b. seen b) engines.new.items) ⊎ HasLostOne (map (λ b. seen b) engines.old.items) (map (λ b. seen b) engines.new.items) }
    ensures none_declared { declared_of (length engines.old.items) (map string_bytes words.now) ≡ [] → result.0 ≡ 5 → ⊥ }
    ensures sound_boxes { DeclaredTell (length engines.old.items) (map string_bytes words.now) (map (λ b. seen b) engines.old.items) → DeclaredSound (length engines.old.items) (map string_bytes words.now) (map (λ b. seen b) engines.old.items) → result.0 ≡ 5 → ⊥ }
{
    match run_words(alloc, words, library, out, engines, courier, work) {
        Ok(status) => status,
        Err(cut) => end_cut(alloc, cut, out),
    }
}
