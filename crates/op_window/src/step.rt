//! The step of an instant, of windows and of a scalar, is put behind those before.
ghost use Rattle.op_window.specs.Rules.{AreFramed, by_scalar, left_for as left_by, names_in, names_of, notes_given, rows_of_series};
ghost use Rattle.op_window.specs.Sliding.{all_walked};
ghost use Rattle.promql_meaning.specs.Givens.{barren};
ghost use Rattle.promql_meaning.specs.Outcomes.{with_notes as marks_with_notes};
ghost use Rattle.series_marks.specs.Reaches.{AreThere};
ghost use Rattle.std.specs.Prelude.{◌≡◌, ◌<ℤ◌, ◌++◌, ◌∷◌, [], Some, length, IfOk, OnOk};
ghost use Rattle.step_batch.specs.Lent.{IsLater, stages};
ghost use Rattle.step_put.specs.Placed.{PlacesRise, made_step};
ghost use Rattle.step_table.specs.Unions.{united};
ghost use Rattle.window_fn.specs.Windows.{IsFrame};

use crate::made::{made_of_lent, made_of_series};
use crate::renew::SeriesWindow;
use crate::scalar::Scalar;
use func_table::Window;
use holders::Items;
use promql_meaning::{range_notes_of, with_notes};
use sample_store::Store;
use std::alloc::{AllocError, Global};
use step_batch::Windows;
use step_put::{Left, OutcomeBuffer, PlacedOutcome};
use step_table::{Marks, Note};
use ticks::Ms;
use window_fn::WindowFrame;
use xfrac::XFrac;

/// What a function leaves of labels: last_over_time leaves all.
pub(crate) fn left_for(f: Window) -> Left
    ensures { result ≡ left_by f }
{
    match f {
        Window::LastOver => Left::All,
        _ => Left::Nameless,
    }
}

/// The notes: of a quantile outside 0 to 1 where there is a window, or else of the series' names.
fn notes_of(
    alloc: Global,
    f: Window,
    arg: &XFrac,
    placed: &[PlacedOutcome],
    notes: Items<Note>,
) -> Result<Items<Note>, AllocError>
    ensures { IfOk result (λ all. all ≡ notes_given f arg.now placed.now notes) }
{
    match f {
        Window::QuantileOver => range_notes_of(alloc, arg, placed),
        _ => Ok(notes),
    }
}

/// Puts a step without rows.
fn put_none(rows: &mut OutcomeBuffer, at: Ms, marks: &Marks) -> Result<(), AllocError>
    requires later { IsLater rows.old.lent at }
    ensures left { rows.new.left ≡ rows.old.left }
    ensures fed { rows.new.fed ≡ rows.old.fed }
    ensures later { OnOk result ((u : _) → at.0 <ℤ u.0 → IsLater rows.new.lent u) }
    ensures lent { OnOk result (stages rows.new.lent ≡ stages rows.old.lent ++ record { at = at; step = barren marks.now } ∷ []) }
{
    rows.put(at, marks, &[])?;
    Ok(())
}

/// Puts the step of what comes of windows.
fn put_made(
    alloc: Global,
    f: Window,
    arg: &XFrac,
    marks: Marks,
    notes: Items<Note>,
    at: Ms,
    placed: &[PlacedOutcome],
    rows: &mut OutcomeBuffer,
) -> Result<(), AllocError>
    requires later { IsLater rows.old.lent at }
    requires rising { PlacesRise 0 (length rows.old.fed) placed.now }
    ensures left { rows.new.left ≡ rows.old.left }
    ensures fed { rows.new.fed ≡ rows.old.fed }
    ensures later { OnOk result ((u : _) → at.0 <ℤ u.0 → IsLater rows.new.lent u) }
    ensures lent { OnOk result (stages rows.new.lent ≡ stages rows.old.lent ++ record { at = at; step = made_step rows.old.left rows.old.fed (marks_with_notes marks (notes_given f arg.now placed.now notes)) placed.now } ∷ []) }
{
    let notes = notes_of(alloc, f, arg, placed, notes)?;
    let marks = with_notes(alloc, marks, notes)?;
    rows.put(at, &marks, placed)?;
    Ok(())
}

/// Puts the step of the windows of series. The only error is want of memory.
pub(crate) fn put_series(
    alloc: Global,
    f: Window,
    frame: &WindowFrame,
    scalar: Scalar,
    closed: bool,
    store: &Store,
    series: &[u32],
    walked: &[SeriesWindow],
    placed: &mut Vec<PlacedOutcome>,
    rows: &mut OutcomeBuffer,
) -> Result<(), AllocError>
    requires there { AreThere store.now series.now }
    requires frame { IsFrame frame.now }
    requires walked { (edge : Ms) × (walked.now ≡ all_walked closed frame.now.range.0 (Some (edge, frame.now.moment)) store.now series.now) }
    requires left { rows.old.left ≡ left_by f }
    requires named { rows.old.fed ≡ names_of store.now series.now }
    requires later { IsLater rows.old.lent frame.now.eval }
    ensures left { rows.new.left ≡ rows.old.left }
    ensures fed { rows.new.fed ≡ rows.old.fed }
    ensures later { OnOk result ((u : _) → frame.now.eval.0 <ℤ u.0 → IsLater rows.new.lent u) }
    ensures lent { OnOk result (stages rows.new.lent ≡ stages rows.old.lent ++ record { at = frame.now.eval; step = by_scalar f frame.now scalar (rows_of_series closed frame.now store.now series.now) } ∷ []) }
{
    let Scalar { value, marks } = scalar;
    let at = frame.eval;
    match value {
        None => put_none(rows, at, &marks),
        Some(arg) => {
            let notes = made_of_series(
                alloc, f, frame, &arg, closed, store, series, walked, placed,
            )?;
            put_made(alloc, f, &arg, marks, notes, at, placed.as_slice(), rows)
        }
    }
}

/// The scalar with the marks of windows too. The only error is want of memory.
fn with_marks_of(windows: &Windows<'_>, scalar: Scalar) -> Result<Scalar, AllocError>
    ensures { IfOk result (λ both. both ≡ record { value = scalar.value; marks = united windows.now.marks scalar.marks }) }
{
    let Scalar { value, marks: more } = scalar;
    let mut marks = windows.marks().copy()?;
    marks.unite(&more)?;
    Ok(Scalar { value, marks })
}

/// Puts the step of windows that are lent. The only error is want of memory.
pub(crate) fn put_lent(
    alloc: Global,
    f: Window,
    frame: &WindowFrame,
    scalar: Scalar,
    windows: &Windows<'_>,
    placed: &mut Vec<PlacedOutcome>,
    rows: &mut OutcomeBuffer,
) -> Result<(), AllocError>
    requires frame { IsFrame frame.now }
    requires within { AreFramed frame.now windows.now.rows }
    requires left { rows.old.left ≡ left_by f }
    requires named { rows.old.fed ≡ names_in windows.now.rows }
    requires later { IsLater rows.old.lent frame.now.eval }
    ensures left { rows.new.left ≡ rows.old.left }
    ensures fed { rows.new.fed ≡ rows.old.fed }
    ensures lent { OnOk result (stages rows.new.lent ≡ stages rows.old.lent ++ record { at = frame.now.eval; step = by_scalar f frame.now (record { value = scalar.value; marks = united windows.now.marks scalar.marks }) windows.now.rows } ∷ []) }
{
    let Scalar { value, marks } = with_marks_of(windows, scalar)?;
    let at = frame.eval;
    match value {
        None => put_none(rows, at, &marks),
        Some(arg) => {
            let notes = made_of_lent(alloc, f, frame, &arg, windows, placed)?;
            put_made(alloc, f, &arg, marks, notes, at, placed.as_slice(), rows)
        }
    }
}
