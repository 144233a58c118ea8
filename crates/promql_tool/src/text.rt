//! The lines of a report.
ghost use Rattle.promql_tool.specs.Query.{AreNoteLines, failed_at, failure_text, note_kind, note_line, notes_in, outcome_head, point_text, series_name, series_text};
ghost use Rattle.promql_tool.specs.Runs.{bytes_of};
ghost use Rattle.promql_tool.specs.Texts.{cell_text, fault_text, instant_text, load_line, load_name, lost_text, refusal_name, refusal_text, refused_line, step_text, stray_text, totals_text};
ghost use Rattle.std.specs.Fmt.{signed_decimal};
ghost use Rattle.std.specs.List.{flat_map};
ghost use Rattle.std.specs.Prelude.{◌≡◌, ◌++◌, codes, map, string_bytes, IfOk, OnOk};

use crate::fault::{Lost, Refusal};
use frac_text::write_number;
use label_set::Labels;
use promql_meaning::{Outcome, Point, ResultSeries};
use remote_api::Stray;
use script_check::{append_note, append_outcome, is_warning};
use std::alloc::{AllocError, Global};
use step_table::Note;
use test_runner::LoadRefusal;
use ticks::Ms;

fn load_line(refusal: &LoadRefusal) -> u32
    ensures { result ≡ load_line refusal.now }
{
    match refusal {
        LoadRefusal::Conflict { line, .. } => *line,
        LoadRefusal::Unplaced { line } => *line,
        LoadRefusal::TooManySamples { line } => *line,
        LoadRefusal::TooManySeries { line } => *line,
    }
}

/// The line that is refused, counted from 1, or 0 where it is the whole file.
fn refused_line(refusal: &Refusal) -> u32
    ensures { result ≡ refused_line refusal.now }
{
    match refusal {
        Refusal::Script(refusal) => refusal.line(),
        Refusal::Range(line) => *line,
        Refusal::Load(refusal) => load_line(refusal),
    }
}

fn load_name(refusal: &LoadRefusal) -> &'static str
    ensures { result.now ≡ load_name refusal.now }
{
    match refusal {
        LoadRefusal::Conflict { .. } => "Conflict",
        LoadRefusal::Unplaced { .. } => "Unplaced",
        LoadRefusal::TooManySamples { .. } => "TooManySamples",
        LoadRefusal::TooManySeries { .. } => "TooManySeries",
    }
}

fn refusal_name(refusal: &Refusal) -> &'static str
    ensures { result.now ≡ refusal_name refusal.now }
{
    match refusal {
        Refusal::Script(refusal) => refusal.name(),
        Refusal::Range(_) => "NumberRange",
        Refusal::Load(refusal) => load_name(refusal),
    }
}

/// The line of a file that is refused.
pub fn refusal_line(alloc: Global, path: &str, refusal: &Refusal) -> Result<String, AllocError>
    ensures { IfOk result (λ text. string_bytes text ≡ refusal_text path.now refusal.now) }
{
    let line = refused_line(refusal);
    let name = refusal_name(refusal);
    format!(in alloc; "REFUSED {path}:{line} {name}\n")
}

/// The line of a file that can't be fetched.
pub fn fault_line(alloc: Global, path: &str) -> Result<String, AllocError>
    ensures { IfOk result (λ text. string_bytes text ≡ fault_text path.now) }
{
    format!(in alloc; "FAULT read {path}\n")
}

/// An instant in milliseconds, or that there is none.
fn instant_text(alloc: Global, at: Option<Ms>) -> Result<String, AllocError>
    ensures { IfOk result (λ text. string_bytes text ≡ instant_text at) }
{
    match at {
        None => String::from_str(alloc, "end"),
        Some(at) => {
            let time = at.0;
            format!(in alloc; "{time}")
        }
    }
}

fn step_text(alloc: Global, expected: Option<Ms>, got: Option<Ms>) -> Result<String, AllocError>
    ensures { IfOk result (λ text. string_bytes text ≡ step_text expected got) }
{
    let expected = instant_text(alloc, expected)?;
    let got = instant_text(alloc, got)?;
    let (expected, got) = (expected.as_str(), got.as_str());
    format!(in alloc; " expected {expected} got {got}")
}

fn cell_text(alloc: Global, at: Ms) -> Result<String, AllocError>
    ensures { IfOk result (λ text. string_bytes text ≡ cell_text at) }
{
    let time = at.0;
    format!(in alloc; " cell at {time}")
}

/// What is told of an engine that was lost, behind its number.
fn stray_text(alloc: Global, stray: &Option<Stray>) -> Result<String, AllocError>
    ensures { IfOk result (λ text. string_bytes text ≡ stray_text stray.now) }
{
    match stray {
        None => Ok(String::new(alloc)),
        Some(Stray::OutOfStep { expected, got }) => step_text(alloc, *expected, *got),
        Some(Stray::WrongCell { at }) => cell_text(alloc, *at),
    }
}

/// The line of an engine that was lost, counted from 1.
pub fn lost_line(alloc: Global, lost: &Lost) -> Result<String, AllocError>
    ensures { IfOk result (λ text. string_bytes text ≡ lost_text lost.now) }
{
    let number = u64::from(lost.engine) + 1;
    let behind = stray_text(alloc, &lost.stray)?;
    let behind = behind.as_str();
    format!(in alloc; "FAULT engine {number}{behind}\n")
}

/// The line of how many evaluations pass and fail.
pub fn totals_line(alloc: Global, passed: u128, failed: u128) -> Result<String, AllocError>
    ensures { IfOk result (λ text. string_bytes text ≡ totals_text passed failed) }
{
    format!(in alloc; "passed {passed} failed {failed}\n")
}

fn time_text(alloc: Global, at: Ms) -> Result<String, AllocError>
    ensures { IfOk result (λ text. string_bytes text ≡ codes "@" ++ signed_decimal at.0) }
{
    let time = at.0;
    format!(in alloc; "@{time}")
}

/// Appends a value and its time, in milliseconds.
fn append_point(alloc: Global, point: &Point, into: &mut Vec<u8>) -> Result<(), AllocError>
    ensures { OnOk result (into.new.items ≡ into.old.items ++ point_text point.now) }
{
    into.extend_from_slice(b" ")?;
    write_number(&point.value, into)?;
    let time = time_text(alloc, point.at)?;
    into.extend_from_slice(time.as_bytes())
}

fn append_points(alloc: Global, points: &[Point], into: &mut Vec<u8>) -> Result<(), AllocError>
    ensures { OnOk result (into.new.items ≡ into.old.items ++ flat_map point_text points.now) }
{
    for point in points {
        append_point(alloc, point, into)?;
    }
    Ok(())
}

fn append_name(scalar: bool, labels: &Labels, into: &mut Vec<u8>) -> Result<(), AllocError>
    ensures { OnOk result (into.new.items ≡ into.old.items ++ series_name scalar labels.now) }
{
    if scalar {
        into.extend_from_slice(b"scalar")
    } else {
        labels.write(into)
    }
}

/// The line of a series of an answer: its labels, and each value with its time.
pub fn series_line(
    alloc: Global,
    scalar: bool,
    series: &ResultSeries,
) -> Result<Vec<u8>, AllocError>
    ensures { IfOk result (λ line. line.items ≡ series_text scalar series.now) }
{
    let mut line = Vec::new(alloc);
    append_name(scalar, &series.labels, &mut line)?;
    append_points(alloc, series.points.as_slice(), &mut line)?;
    line.extend_from_slice(b"\n")?;
    Ok(line)
}

fn failed_text(alloc: Global, at: Ms) -> Result<String, AllocError>
    ensures { IfOk result (λ text. string_bytes text ≡ failed_at at) }
{
    let time = at.0;
    format!(in alloc; "FAILED at {time} ")
}

fn append_failed(alloc: Global, at: Ms, into: &mut Vec<u8>) -> Result<(), AllocError>
    ensures { OnOk result (into.new.items ≡ into.old.items ++ failed_at at) }
{
    let text = failed_text(alloc, at)?;
    into.extend_from_slice(text.as_bytes())
}

/// Appends what stands before the text of an outcome that is no answer.
fn append_head(alloc: Global, outcome: &Outcome, into: &mut Vec<u8>) -> Result<(), AllocError>
    ensures { OnOk result (into.new.items ≡ into.old.items ++ outcome_head outcome.now) }
{
    match outcome {
        Outcome::Answer(_) => Ok(()),
        Outcome::Refused(_) => into.extend_from_slice(b"REFUSED "),
        Outcome::Failed { at, .. } => append_failed(alloc, *at, into),
        Outcome::TooManyRows { at } => append_failed(alloc, *at, into),
    }
}

/// The line of an outcome that is no answer.
pub fn failure_line(alloc: Global, outcome: &Outcome) -> Result<Vec<u8>, AllocError>
    ensures { IfOk result (λ line. line.items ≡ failure_text outcome.now) }
{
    let mut line = Vec::new(alloc);
    append_head(alloc, outcome, &mut line)?;
    append_outcome(alloc, outcome, &mut line)?;
    line.extend_from_slice(b"\n")?;
    Ok(line)
}

/// The kind of a note, before its text.
fn kind_of(note: &Note) -> &'static [u8]
    ensures { result.now ≡ note_kind note.now }
{
    if is_warning(note) {
        b"warning: "
    } else {
        b"info: "
    }
}

fn note_line(alloc: Global, note: &Note) -> Result<Vec<u8>, AllocError>
    ensures { IfOk result (λ line. line.items ≡ note_line note.now) }
{
    let mut line = Vec::new(alloc);
    line.extend_from_slice(kind_of(note))?;
    append_note(note, &mut line)?;
    line.extend_from_slice(b"\n")?;
    Ok(line)
}

/// The lines of notes in the order of these.
fn each_line(alloc: Global, notes: &[Note]) -> Result<Vec<Vec<u8>>, AllocError>
    ensures { IfOk result (λ lines. bytes_of lines.items ≡ map note_line notes.now) }
{
    let mut lines = Vec::new(alloc);
    for note in notes {
        lines.push(note_line(alloc, note)?)?;
    }
    Ok(lines)
}

/// The lines of notes in the order of their bytes.
fn sorted_lines(alloc: Global, notes: &[Note]) -> Result<Vec<Vec<u8>>, AllocError>
    ensures { IfOk result (λ lines. AreNoteLines notes.now (bytes_of lines.items)) }
{
    let mut lines = each_line(alloc, notes)?;
    lines.sort_unstable();
    Ok(lines)
}

/// The lines of an outcome's notes, in the order of their bytes; only an answer has notes.
pub fn note_lines(alloc: Global, outcome: &Outcome) -> Result<Vec<Vec<u8>>, AllocError>
    ensures { IfOk result (λ lines. AreNoteLines (notes_in outcome.now) (bytes_of lines.items)) }
{
    match outcome {
        Outcome::Answer(answer) => sorted_lines(alloc, answer.notes.as_slice()),
        Outcome::Refused(_) | Outcome::Failed { .. } | Outcome::TooManyRows { .. } => {
            Ok(Vec::new(alloc))
        }
    }
}
