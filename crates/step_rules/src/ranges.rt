//! Functions of windows.
ghost use Rattle.step_rules.specs.Frames.{AreFramed};
ghost use Rattle.promql_meaning.specs.Meaning.{windowed_with};
ghost use Rattle.promql_meaning.specs.Ranges.{asks_counters as asks_for_counters, counter_note, frame_of, has_value as has_a_value, is_counter_name as is_name_of_counter, name_note, window_labels, window_notes, window_outcome, window_value, windowed};
ghost use Rattle.std.specs.List.{All, ends_with, filter_map};
ghost use Rattle.std.specs.Option.{option_to_list};
ghost use Rattle.label_set.specs.Labels.{metric_name, value_of};
ghost use Rattle.promql_meaning.specs.Outcomes.{range_notes_of as notes_of_range};
ghost use Rattle.std.specs.Prelude.{◌≡◌, ◌==◌, ◌++◌, ◌&&◌, None, IfOk, OnOk, length, map, if◌then◌else◌};
ghost use Rattle.step_table.specs.declared.marks.Note.{Note};
ghost use Rattle.window_fn.specs.Windows.{IsFrame, IsInFrame};

use crate::scalars::value_in;
use func_table::Window;
use label_set::{Items, Labels, METRIC_NAME, Text};
use promql_meaning::{Windows, barren, range_notes_of, with_notes};
use std::alloc::{AllocError, Global};
use step_table::{Note, Outcome, Step, WindowRow, settled, taken, without_name};
use ticks::Ms;
use window_fn::{WindowFault, WindowFrame, over};
use xfrac::{NumFault, XFrac};

/// What comes of windows, and the notes of their series' names.
#[derive(Drop)]
struct Made {
    outcomes: Items<Outcome>,
    notes: Items<Note>,
}

/// A function of windows and of a scalar, with the marks of both. The only error is want of memory. (Prometheus querying,
/// "Functions".)
pub fn windowed_with(
    alloc: Global,
    f: Window,
    t: Ms,
    scalar: &Step,
    windows: Windows,
) -> Result<Step, AllocError>
    // each sample lies in the windows' range
    requires { AreFramed t.0 windows }
    ensures { IfOk result (λ step. step ≡ windowed_with f t.0 scalar.now windows) }
{
    let mut windows = windows;
    windows.marks.unite(&scalar.marks)?;
    match value_in(scalar) {
        Some(value) => windowed(alloc, f, t, &value, windows),
        None => Ok(barren(alloc, windows.marks)),
    }
}

/// A function of each window; `arg` is the scalar that predict_linear and quantile_over_time take, and is read by no other. The
/// only error is want of memory.
pub fn windowed(
    alloc: Global,
    f: Window,
    t: Ms,
    arg: &XFrac,
    windows: Windows,
) -> Result<Step, AllocError>
    // each sample lies in the windows' range
    requires { AreFramed t.0 windows }
    ensures { IfOk result (λ step. step ≡ windowed f t.0 arg.now windows) }
{
    let made = made_of(alloc, f, t, arg, &windows)?;
    let notes = window_notes(alloc, f, arg, windows.rows.as_slice(), made.notes)?;
    let marks = with_notes(alloc, windows.marks, notes)?;
    settled(alloc, taken(alloc, marks, made.outcomes)?)
}

/// What comes of each window.
fn made_of(
    alloc: Global,
    f: Window,
    t: Ms,
    arg: &XFrac,
    windows: &Windows,
) -> Result<Made, AllocError>
    requires { AreFramed t.0 windows.now }
    ensures outcomes { IfOk result (λ made. made.outcomes ≡ map (window_outcome f t.0 arg.now windows.now) windows.now.rows) }
    ensures notes { IfOk result (λ made. made.notes ≡ filter_map (counter_note f t.0 arg.now windows.now) windows.now.rows) }
{
    let frame = WindowFrame {
        eval: t,
        moment: windows.moment,
        range: windows.range,
    };
    let mut made = Made {
        outcomes: Items::new(alloc),
        notes: Items::new(alloc),
    };
    for row in windows.rows.as_slice() {
        let value = window_value(
            alloc,
            f,
            &frame,
            arg,
            row.times.as_slice(),
            row.values.as_slice(),
        )?;
        add_note(&mut made.notes, counter_note(alloc, f, &row.labels, value)?)?;
        let labels = window_labels(alloc, f, &row.labels)?;
        made.outcomes.push(Outcome { labels, value })?;
    }
    Ok(made)
}

fn add_note(notes: &mut Items<Note>, note: Option<Note>) -> Result<(), AllocError>
    ensures { OnOk result (notes.new ≡ notes.old ++ option_to_list note) }
{
    match note {
        Some(note) => notes.push(note),
        None => Ok(()),
    }
}

/// What a function gives of the times and values of a window; of none, nothing. The only error is want of memory.
pub fn window_value(
    alloc: Global,
    f: Window,
    frame: &WindowFrame,
    arg: &XFrac,
    times: &[Ms],
    values: &[XFrac],
) -> Result<Result<Option<XFrac>, NumFault>, AllocError>
    requires same { length times.now ≡ length values.now }
    requires frame { IsFrame frame.now }
    requires times { All (IsInFrame frame.now) times.now }
    ensures { IfOk result (λ v. v ≡ window_value f frame.now arg.now times.now values.now) }
{
    if values.is_empty() {
        return Ok(Ok(None));
    }
    match over(alloc, f, times, values, frame, arg) {
        Ok(value) => Ok(Ok(value)),
        Err(WindowFault::Overflow) => Ok(Err(NumFault::Overflow)),
        Err(WindowFault::Memory) => Err(AllocError),
    }
}

/// The labels that a function of windows leaves: all but last_over_time drop the name. The only error is want of memory.
pub fn window_labels(alloc: Global, f: Window, labels: &Labels) -> Result<Labels, AllocError>
    ensures { IfOk result (λ l. l ≡ window_labels f labels.now) }
{
    match f {
        Window::LastOver => labels.copy(),
        _ => without_name(alloc, labels),
    }
}

/// The notes of a function of windows: of its quantile, or else of the series' names.
fn window_notes(
    alloc: Global,
    f: Window,
    arg: &XFrac,
    rows: &[WindowRow],
    named: Items<Note>,
) -> Result<Items<Note>, AllocError>
    ensures quantile { f ≡ Window.QuantileOver → IfOk result (λ notes. notes ≡ notes_of_range arg.now rows.now) }
    ensures others { (f ≡ Window.QuantileOver → ⊥) → IfOk result (λ notes. notes ≡ named) }
{
    match f {
        Window::QuantileOver => range_notes_of(alloc, arg, rows),
        _ => Ok(named),
    }
}

/// The note of a series' name, where a function that is asked of counters gave a row.
fn counter_note(
    alloc: Global,
    f: Window,
    labels: &Labels,
    value: Result<Option<XFrac>, NumFault>,
) -> Result<Option<Note>, AllocError>
    ensures { IfOk result (λ note. note ≡ (if asks_for_counters f && has_a_value value then name_note (value_of labels.now metric_name) else None)) }
{
    if !asks_counters(f) {
        return Ok(None);
    }
    if !has_value(value) {
        return Ok(None);
    }
    name_note(alloc, labels.get(METRIC_NAME))
}

/// The note of a name that isn't empty and isn't that of a counter. The only error is want of memory.
#[tactic(auto, using(crate::proofs::Noted::none_of_empty, crate::proofs::Noted::none_of_counter, crate::proofs::Noted::one_of_others))]
pub fn name_note(alloc: Global, name: &str) -> Result<Option<Note>, AllocError>
    ensures { IfOk result (λ note. note ≡ name_note name.now) }
{
    if name.is_empty() {
        return Ok(None);
    }
    if is_counter_name(name) {
        return Ok(None);
    }
    Ok(Some(Note::NotCounter(Text::of(alloc, name)?)))
}

fn asks_counters(f: Window) -> bool
    ensures { result ≡ asks_for_counters f }
{
    matches!(f, Window::Rate | Window::Increase)
}

fn has_value(value: Result<Option<XFrac>, NumFault>) -> bool
    ensures { result ≡ has_a_value value }
{
    matches!(value, Ok(Some(_)))
}

/// Whether a name has the ending of a counter's.
fn is_counter_name(name: &str) -> bool
    ensures { result ≡ is_name_of_counter name.now }
{
    let total = has_ending(name, "_total");
    let sum = has_ending(name, "_sum");
    let count = has_ending(name, "_count");
    let bucket = has_ending(name, "_bucket");
    total || sum || count || bucket
}

fn has_ending(name: &str, ending: &str) -> bool
    ensures { result ≡ ends_with (λ a b. a == b) name.now ending.now }
{
    name.ends_with(ending)
}
