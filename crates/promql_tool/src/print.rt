//! Printing a report, each line as one piece.
ghost use Rattle.edge_io.specs.Causes.{HasCause};
ghost use Rattle.edge_io.specs.Written.{appended, WroteFront};
ghost use Rattle.promql_tool.specs.Boxes.{EndsCut, IfWritten, LosesNone, or_cut};
ghost use Rattle.promql_tool.specs.Query.{all_series_text, answer_text, failure_text, outcome_report, series_text};
ghost use Rattle.promql_tool.specs.Runs.{bytes_of, stop_report};
ghost use Rattle.promql_tool.specs.Texts.{fault_text, lost_text, refusal_text, totals_text, usage};
ghost use Rattle.promql_tool.specs.Workload.{loaded_text};
ghost use Rattle.std.specs.List.{flat_map};
ghost use Rattle.std.specs.Prelude.{◌≡◌, ◌≤◌, ◌==◌, ◌⊎◌, List, ℕ, if◌then◌else◌, IfOk, OnOk, OnErr, IsErrOf};

use crate::fault::{Cut, Lost, Refusal, Stop};
use crate::text::{failure_line, fault_line, lost_line, refusal_line, series_line, totals_line};
use crate::workload::loaded_line;
use edge_io::{Sink, SinkFail, write_all};
use promql_meaning::{Answer, Outcome, ResultSeries};
use std::alloc::Global;

/// What is printed for words that are no command.
const USAGE: &str = "usage: promqltest [options] FILE.. or query [options] FILE EXPR\n";

/// The status of the program, as its exit code.
#[derive(Clone, Copy, Debug, PartialEq, Eq)]
pub struct Status(pub u8);

/// Prints the usage. The status is 2; after an error a front of the line stands.
pub fn print_usage<S: Sink>(out: &mut S) -> Result<Status, SinkFail>
    ensures ok { IfOk result (λ status. (status.0 ≡ 2) × (S.written out.new ≡ appended (S.written out.old) usage)) }
    ensures err { OnErr result (WroteFront (S.written out.old) (S.written out.new) usage) }
    ensures cause { HasCause (S.faults out.old) (S.faults out.new) (IsErrOf result SinkFail.Failed) }
    ensures sound { S.sound out.old → S.sound out.new }
    ensures never { S.sound out.old → IsErrOf result SinkFail.Failed → ⊥ }
{
    write_all(out, USAGE.as_bytes())?;
    Ok(Status(2))
}

/// Prints how much a workload loads.
pub fn print_loaded<S: Sink>(alloc: Global, series: u32, out: &mut S) -> Result<(), SinkFail>
    requires few { series ≤ 20000 }
    ensures ok { OnOk result (S.written out.new ≡ appended (S.written out.old) (loaded_text series)) }
    ensures err { OnErr result (WroteFront (S.written out.old) (S.written out.new) (loaded_text series)) }
    ensures cause { HasCause (S.faults out.old) (S.faults out.new) (IsErrOf result SinkFail.Failed) }
    ensures sound { S.sound out.old → S.sound out.new }
    ensures never { S.sound out.old → IsErrOf result SinkFail.Failed → ⊥ }
{
    let line = loaded_line(alloc, series)?;
    write_all(out, line.as_bytes())
}

/// 0 where all pass, else 1.
fn verdict_status(failed: u128) -> Status
    ensures { result.0 ≡ (if failed == 0 then 0 else 1) }
{
    Status(if failed == 0 { 0 } else { 1 })
}

/// Prints how many evaluations pass and fail.
pub fn print_totals<S: Sink>(
    alloc: Global,
    passed: u128,
    failed: u128,
    out: &mut S,
) -> Result<Status, SinkFail>
    ensures ok { IfOk result (λ status. (status.0 ≡ (if failed == 0 then 0 else 1)) × (S.written out.new ≡ appended (S.written out.old) (totals_text passed failed))) }
    ensures err { OnErr result (WroteFront (S.written out.old) (S.written out.new) (totals_text passed failed)) }
    ensures cause { HasCause (S.faults out.old) (S.faults out.new) (IsErrOf result SinkFail.Failed) }
    ensures sound { S.sound out.old → S.sound out.new }
    ensures never { S.sound out.old → IsErrOf result SinkFail.Failed → ⊥ }
{
    let line = totals_line(alloc, passed, failed)?;
    write_all(out, line.as_bytes())?;
    Ok(verdict_status(failed))
}

fn print_refusal<S: Sink>(
    alloc: Global,
    path: &str,
    refusal: &Refusal,
    out: &mut S,
) -> Result<Status, SinkFail>
    ensures ok { IfOk result (λ status. (status.0 ≡ 6) × (S.written out.new ≡ appended (S.written out.old) (refusal_text path.now refusal.now))) }
    ensures err { OnErr result (WroteFront (S.written out.old) (S.written out.new) (refusal_text path.now refusal.now)) }
    ensures cause { HasCause (S.faults out.old) (S.faults out.new) (IsErrOf result SinkFail.Failed) }
    ensures sound { S.sound out.old → S.sound out.new }
    ensures never { S.sound out.old → IsErrOf result SinkFail.Failed → ⊥ }
{
    let text = refusal_line(alloc, path, refusal)?;
    write_all(out, text.as_bytes())?;
    Ok(Status(6))
}

fn print_fault<S: Sink>(alloc: Global, path: &str, out: &mut S) -> Result<Status, SinkFail>
    ensures ok { IfOk result (λ status. (status.0 ≡ 3) × (S.written out.new ≡ appended (S.written out.old) (fault_text path.now))) }
    ensures err { OnErr result (WroteFront (S.written out.old) (S.written out.new) (fault_text path.now)) }
    ensures cause { HasCause (S.faults out.old) (S.faults out.new) (IsErrOf result SinkFail.Failed) }
    ensures sound { S.sound out.old → S.sound out.new }
    ensures never { S.sound out.old → IsErrOf result SinkFail.Failed → ⊥ }
{
    let text = fault_line(alloc, path)?;
    write_all(out, text.as_bytes())?;
    Ok(Status(3))
}

/// Prints a file that isn't run.
pub fn print_stop<S: Sink>(
    alloc: Global,
    path: &str,
    stop: &Stop,
    out: &mut S,
) -> Result<Status, SinkFail>
    ensures ok { IfOk result (λ status. (status.0 ≡ (stop_report path.now stop.now).status) × (S.written out.new ≡ appended (S.written out.old) (stop_report path.now stop.now).text)) }
    ensures err { OnErr result (WroteFront (S.written out.old) (S.written out.new) (stop_report path.now stop.now).text) }
    ensures cause { HasCause (S.faults out.old) (S.faults out.new) (IsErrOf result SinkFail.Failed) }
    ensures sound { S.sound out.old → S.sound out.new }
    ensures never { S.sound out.old → IsErrOf result SinkFail.Failed → ⊥ }
{
    match stop {
        Stop::Gone => print_fault(alloc, path, out),
        Stop::Refused(refusal) => print_refusal(alloc, path, refusal, out),
    }
}

/// Prints an engine that was lost.
fn print_lost<S: Sink>(alloc: Global, lost: &Lost, out: &mut S) -> Result<(), SinkFail>
    ensures ok { OnOk result (S.written out.new ≡ appended (S.written out.old) (lost_text lost.now)) }
    ensures err { OnErr result (WroteFront (S.written out.old) (S.written out.new) (lost_text lost.now)) }
    ensures cause { HasCause (S.faults out.old) (S.faults out.new) (IsErrOf result SinkFail.Failed) }
    ensures sound { S.sound out.old → S.sound out.new }
    ensures never { S.sound out.old → IsErrOf result SinkFail.Failed → ⊥ }
{
    let line = lost_line(alloc, lost)?;
    write_all(out, line.as_bytes())
}

/// 5 where the line of an engine was printed; 4 where that write failed, and 7 where memory ran out.
fn lost_status(printed: Result<(), SinkFail>) -> Status
    ensures ok { OnOk printed (result.0 ≡ 5) }
    ensures err { OnErr printed ((result.0 ≡ 4) ⊎ (result.0 ≡ 7)) }
    ensures failed { result.0 ≡ 4 → IsErrOf printed SinkFail.Failed }
{
    match printed {
        Ok(()) => Status(5),
        Err(SinkFail::Failed) => Status(4),
        Err(SinkFail::Memory) => Status(7),
    }
}

/// What was printed, where a write that fails cuts the run off.
pub fn or_cut(printed: Result<Status, SinkFail>) -> Result<Status, Cut>
    ensures is { result ≡ or_cut printed }
    ensures write { IsErrOf result Cut.Write → IsErrOf printed SinkFail.Failed }
    ensures none { LosesNone result }
{
    match printed {
        Ok(status) => Ok(status),
        Err(SinkFail::Failed) => Err(Cut::Write),
        Err(SinkFail::Memory) => Err(Cut::Memory),
    }
}

/// Ends a run that was cut off: an engine that was lost is printed, after which the status is 5. It is 4 where a write failed, and 7 where
/// memory ran out.
pub fn end_cut<S: Sink>(alloc: Global, cut: Cut, out: &mut S) -> Status
    ensures ended { EndsCut cut (S.written out.old) (S.written out.new) result.0 }
    ensures cause { HasCause (S.faults out.old) (S.faults out.new) (IfWritten cut (result.0 ≡ 4)) }
    ensures sound { S.sound out.old → S.sound out.new }
    ensures never { S.sound out.old → IfWritten cut (result.0 ≡ 4) → ⊥ }
{
    match cut {
        Cut::Write => Status(4),
        Cut::Memory => Status(7),
        Cut::Lost(lost) => lost_status(print_lost(alloc, &lost, out)),
    }
}

fn print_one<S: Sink>(
    alloc: Global,
    scalar: bool,
    series: &ResultSeries,
    out: &mut S,
) -> Result<(), SinkFail>
    ensures ok { OnOk result (S.written out.new ≡ appended (S.written out.old) (series_text scalar series.now)) }
    ensures err { OnErr result (WroteFront (S.written out.old) (S.written out.new) (series_text scalar series.now)) }
    ensures cause { HasCause (S.faults out.old) (S.faults out.new) (IsErrOf result SinkFail.Failed) }
    ensures sound { S.sound out.old → S.sound out.new }
    ensures never { S.sound out.old → IsErrOf result SinkFail.Failed → ⊥ }
{
    let line = series_line(alloc, scalar, series)?;
    write_all(out, &line)
}

/// Prints the line of each series, in their order.
fn print_each<S: Sink>(
    alloc: Global,
    scalar: bool,
    series: &[ResultSeries],
    out: &mut S,
) -> Result<(), SinkFail>
    ensures ok { OnOk result (S.written out.new ≡ appended (S.written out.old) (flat_map (series_text scalar) series.now)) }
    ensures err { OnErr result (WroteFront (S.written out.old) (S.written out.new) (flat_map (series_text scalar) series.now)) }
    ensures cause { HasCause (S.faults out.old) (S.faults out.new) (IsErrOf result SinkFail.Failed) }
    ensures sound { S.sound out.old → S.sound out.new }
    ensures never { S.sound out.old → IsErrOf result SinkFail.Failed → ⊥ }
{
    for one in series {
        print_one(alloc, scalar, one, out)?;
    }
    Ok(())
}

fn print_series<S: Sink>(
    alloc: Global,
    scalar: bool,
    series: &[ResultSeries],
    out: &mut S,
) -> Result<(), SinkFail>
    ensures ok { OnOk result (S.written out.new ≡ appended (S.written out.old) (all_series_text scalar series.now)) }
    ensures err { OnErr result (WroteFront (S.written out.old) (S.written out.new) (all_series_text scalar series.now)) }
    ensures cause { HasCause (S.faults out.old) (S.faults out.new) (IsErrOf result SinkFail.Failed) }
    ensures sound { S.sound out.old → S.sound out.new }
    ensures never { S.sound out.old → IsErrOf result SinkFail.Failed → ⊥ }
{
    if series.is_empty() {
        write_all(out, b"empty\n")
    } else {
        print_each(alloc, scalar, series, out)
    }
}

/// Prints the lines of notes.
fn print_notes<S: Sink>(notes: &[Vec<u8>], out: &mut S) -> Result<(), SinkFail>
    ensures ok { OnOk result (S.written out.new ≡ appended (S.written out.old) (flat_map (λ (line : List ℕ). line) (bytes_of notes.now))) }
    ensures err { OnErr result (WroteFront (S.written out.old) (S.written out.new) (flat_map (λ (line : List ℕ). line) (bytes_of notes.now))) }
    ensures cause { HasCause (S.faults out.old) (S.faults out.new) (IsErrOf result SinkFail.Failed) }
    ensures sound { S.sound out.old → S.sound out.new }
    ensures never { S.sound out.old → IsErrOf result SinkFail.Failed → ⊥ }
{
    for line in notes {
        write_all(out, line)?;
    }
    Ok(())
}

fn print_answer<S: Sink>(
    alloc: Global,
    answer: &Answer,
    notes: &[Vec<u8>],
    out: &mut S,
) -> Result<Status, SinkFail>
    ensures ok { IfOk result (λ status. (status.0 ≡ 0) × (S.written out.new ≡ appended (S.written out.old) (answer_text answer.now (bytes_of notes.now)))) }
    ensures err { OnErr result (WroteFront (S.written out.old) (S.written out.new) (answer_text answer.now (bytes_of notes.now))) }
    ensures cause { HasCause (S.faults out.old) (S.faults out.new) (IsErrOf result SinkFail.Failed) }
    ensures sound { S.sound out.old → S.sound out.new }
    ensures never { S.sound out.old → IsErrOf result SinkFail.Failed → ⊥ }
{
    print_series(alloc, answer.scalar, answer.series.as_slice(), out)?;
    print_notes(notes, out)?;
    Ok(Status(0))
}

/// Prints an outcome that is no answer.
fn print_failure<S: Sink>(alloc: Global, outcome: &Outcome, out: &mut S) -> Result<Status, SinkFail>
    ensures ok { IfOk result (λ status. (status.0 ≡ 1) × (S.written out.new ≡ appended (S.written out.old) (failure_text outcome.now))) }
    ensures err { OnErr result (WroteFront (S.written out.old) (S.written out.new) (failure_text outcome.now)) }
    ensures cause { HasCause (S.faults out.old) (S.faults out.new) (IsErrOf result SinkFail.Failed) }
    ensures sound { S.sound out.old → S.sound out.new }
    ensures never { S.sound out.old → IsErrOf result SinkFail.Failed → ⊥ }
{
    let line = failure_line(alloc, outcome)?;
    write_all(out, &line)?;
    Ok(Status(1))
}

/// Prints an outcome, whose notes have these lines.
pub fn print_outcome<S: Sink>(
    alloc: Global,
    outcome: &Outcome,
    notes: &[Vec<u8>],
    out: &mut S,
) -> Result<Status, SinkFail>
    ensures ok { IfOk result (λ status. (status.0 ≡ (outcome_report outcome.now (bytes_of notes.now)).status)
        × (S.written out.new ≡ appended (S.written out.old) (outcome_report outcome.now (bytes_of notes.now)).text)) }
    ensures err { OnErr result (WroteFront (S.written out.old) (S.written out.new) (outcome_report outcome.now (bytes_of notes.now)).text) }
    ensures cause { HasCause (S.faults out.old) (S.faults out.new) (IsErrOf result SinkFail.Failed) }
    ensures sound { S.sound out.old → S.sound out.new }
    ensures never { S.sound out.old → IsErrOf result SinkFail.Failed → ⊥ }
{
    match outcome {
        Outcome::Answer(answer) => print_answer(alloc, answer, notes, out),
        Outcome::Refused(_) | Outcome::Failed { .. } | Outcome::TooManyRows { .. } => {
            print_failure(alloc, outcome, out)
        }
    }
}
