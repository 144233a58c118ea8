//! What comes of the windows of an instant.
ghost use Rattle.label_set.specs.Labels.{metric_name, value_of};
ghost use Rattle.op_window.specs.NoteSets.{AreOneSet, IsTold};
ghost use Rattle.op_window.specs.Rules.{AreFramed, names_in, names_of, note_in, outcome_in, outcomes_given, rows_of_series};
ghost use Rattle.op_window.specs.Sliding.{all_walked};
ghost use Rattle.series_marks.specs.Reaches.{AreThere};
ghost use Rattle.std.specs.List.{filter_map};
ghost use Rattle.std.specs.Option.{option_to_list};
ghost use Rattle.std.specs.Prelude.{◌≡◌, ◌++◌, ◌&&◌, None, Some, length, map, IfOk, OnOk, if◌then◌else◌};
ghost use Rattle.step_put.specs.Placed.{PlacesRise};
ghost use Rattle.promql_meaning.specs.Ranges.{asks_counters as asks_for_counters, has_value as has_a_value, name_note as note_of_name};
ghost use Rattle.ticks.specs.declared.moment.Ms.{Ms};
ghost use Rattle.window_fn.specs.Windows.{IsFrame};

use crate::renew::SeriesWindow;
use func_table::Window;
use holders::Items;
use label_set::{Labels, METRIC_NAME};
use sample_store::Store;
use std::alloc::{AllocError, Global};
use step_batch::Windows;
use step_put::PlacedOutcome;
use step_rules::{name_note, window_value};
use step_table::Note;
use window_fn::WindowFrame;
use xfrac::{NumFault, XFrac};

fn asks_counters(f: Window) -> bool
    ensures { result ≡ asks_for_counters f }
{
    matches!(f, Window::Rate | Window::Increase)
}

fn has_value(value: &Result<Option<XFrac>, NumFault>) -> bool
    ensures { result ≡ has_a_value value.now }
{
    matches!(value, Ok(Some(_)))
}

/// Whether a function that is asked of counters gave a row.
fn gives_row(f: Window, value: &Result<Option<XFrac>, NumFault>) -> bool
    ensures { result ≡ (asks_for_counters f && has_a_value value.now) }
{
    asks_counters(f) && has_value(value)
}

fn add_note(notes: &mut Items<Note>, note: Option<Note>) -> Result<(), AllocError>
    ensures { OnOk result (notes.new ≡ notes.old ++ option_to_list note) }
{
    match note {
        Some(note) => notes.push(note),
        None => Ok(()),
    }
}

/// Adds the note of a series' name, where a function that is asked of counters gave a row, and answers the name that was told last.
/// Series that follow each other mostly have one name, so that its note isn't made again.
fn tell<'a>(
    alloc: Global,
    f: Window,
    labels: &'a Labels,
    value: &Result<Option<XFrac>, NumFault>,
    told: &'a str,
    notes: &mut Items<Note>,
) -> Result<&'a str, AllocError>
    requires told { IsTold told.now notes.old }
    ensures told { IfOk result (λ name. IsTold name.now notes.new) }
    ensures notes { OnOk result (AreOneSet notes.new (notes.old ++ option_to_list (if asks_for_counters f && has_a_value value.now then note_of_name (value_of labels.now metric_name) else None))) }
{
    if !gives_row(f, value) {
        return Ok(told);
    }
    let name = labels.get(METRIC_NAME);
    if name == told {
        return Ok(told);
    }
    add_note(notes, name_note(alloc, name)?)?;
    Ok(name)
}

/// What comes of the windows of series, by the places of these in their list, in place of what was there, and a list that has the
/// notes of their names. The only error is want of memory.
pub(crate) fn made_of_series(
    alloc: Global,
    f: Window,
    frame: &WindowFrame,
    arg: &XFrac,
    closed: bool,
    store: &Store,
    series: &[u32],
    walked: &[SeriesWindow],
    placed: &mut Vec<PlacedOutcome>,
) -> Result<Items<Note>, AllocError>
    requires there { AreThere store.now series.now }
    requires frame { IsFrame frame.now }
    requires walked { (edge : Ms) × (walked.now ≡ all_walked closed frame.now.range.0 (Some (edge, frame.now.moment)) store.now series.now) }
    ensures rising { OnOk result (PlacesRise 0 (length series.now) placed.new.items) }
    ensures outcomes { OnOk result (outcomes_given f (names_of store.now series.now) placed.new.items ≡ map (outcome_in f frame.now arg.now) (rows_of_series closed frame.now store.now series.now)) }
    ensures notes { IfOk result (λ notes. AreOneSet notes (filter_map (note_in f frame.now arg.now) (rows_of_series closed frame.now store.now series.now))) }
{
    placed.clear();
    let mut notes = Items::new(alloc);
    let mut told = "";
    for i in 0..series.len() {
        let samples = &walked[i].samples;
        if !samples.has_some() {
            continue;
        }
        let value = samples.over(alloc, f, frame, arg)?;
        told = tell(alloc, f, store.labels(series[i]), &value, told, &mut notes)?;
        placed.push(PlacedOutcome { place: i, value })?;
    }
    Ok(notes)
}

/// What comes of windows that are lent, by their places, in place of what was there, and a list that has the notes of their names. The
/// only error is want of memory.
pub(crate) fn made_of_lent(
    alloc: Global,
    f: Window,
    frame: &WindowFrame,
    arg: &XFrac,
    windows: &Windows<'_>,
    placed: &mut Vec<PlacedOutcome>,
) -> Result<Items<Note>, AllocError>
    requires frame { IsFrame frame.now }
    requires within { AreFramed frame.now windows.now.rows }
    ensures rising { OnOk result (PlacesRise 0 (length windows.now.rows) placed.new.items) }
    ensures outcomes { OnOk result (outcomes_given f (names_in windows.now.rows) placed.new.items ≡ map (outcome_in f frame.now arg.now) windows.now.rows) }
    ensures notes { IfOk result (λ notes. AreOneSet notes (filter_map (note_in f frame.now arg.now) windows.now.rows)) }
{
    placed.clear();
    let mut notes = Items::new(alloc);
    let mut told = "";
    for i in 0..windows.len() {
        let labels = windows.labels(i);
        let times = windows.times(i);
        let values = windows.values(i);
        let value = window_value(alloc, f, frame, arg, times, values)?;
        told = tell(alloc, f, labels, &value, told, &mut notes)?;
        placed.push(PlacedOutcome { place: i, value })?;
    }
    Ok(notes)
}
