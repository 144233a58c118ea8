//! Steps are taken one after another, each row at the own place of its labels.
ghost use Rattle.label_set.specs.LabelEquality.{labels_eq};
ghost use Rattle.promql_meaning.specs.Results.{first_stop, most_rows, stop_at as stop_of};
ghost use Rattle.result_rows.specs.Taken.{HasTaken, kept_of, names_of, points_of, points_under};
ghost use Rattle.std.specs.List.{AllByRecursion, IsDistinct};
ghost use Rattle.std.specs.Prelude.{◌≡◌, ◌<◌, ◌≤◌, ◌+◌, ◌++◌, ◌∷◌, [], List, None, Some, length, slice_get, slice_index_or, IfOk, IsTrue, OnErr, OnOk};
ghost use Rattle.step_batch.specs.Lent.{SlotsRise, entries_of, no_marks, stages};
ghost use Rattle.step_put.specs.Puts.{AreAt};
ghost use Rattle.step_table.specs.Groups.{Names, items_of};
ghost use Rattle.step_table.specs.Timed.{StepAt};
ghost use Rattle.step_table.specs.Unions.{united};
ghost use Rattle.step_table.specs.declared.step.Step.{Step};

use promql_meaning::{Outcome, Point, ResultSeries, no_marks};
use std::alloc::{AllocError, Global};
use step_batch::laws::lent_steps_are_tables;
use step_batch::{Batch, Slot};
use step_table::Marks;
use ticks::Ms;
use xfrac::XFrac;

/// The most rows of a result, over all its instants.
const MOST_ROWS: usize = 4_000_000;

/// The series by the places of their labels, the marks and notes, and how many rows there are.
#[derive(Drop)]
pub(crate) struct Found {
    pub series: Vec<ResultSeries>,
    pub marks: Marks,
    pub rows: usize,
}

impl Found {
    /// Nothing. It takes no memory.
    pub(crate) fn none(alloc: Global) -> Found
        ensures series { result.series.items ≡ [] }
        ensures marks { result.marks ≡ no_marks }
        ensures rows { result.rows ≡ 0 }
    {
        Found {
            series: Vec::new(alloc),
            marks: no_marks(alloc),
            rows: 0,
        }
    }
}

/// Takes the steps of a batch up to the first instant that ends the evaluation, if there is one; its outcome is answered.
/// `places` has the own place of each labels of the batch.
pub(crate) fn take_each(
    found: &mut Found,
    places: &[usize],
    batch: &Batch<'_>,
) -> Result<Option<Outcome>, AllocError>
    requires few { found.old.rows ≤ most_rows }
    requires distinct { IsDistinct labels_eq (names_of found.old.series.items) }
    requires placed { AreAt (names_of found.old.series.items) batch.now.labels places.now }
    ensures few { found.new.rows ≤ most_rows }
    ensures names { names_of found.new.series.items ≡ names_of found.old.series.items }
    ensures stop { IfOk result (λ stop. (steps : List StepAt) → HasTaken (kept_of found.old) steps → first_stop 0 (steps ++ stages batch.now) ≡ stop) }
    ensures taken { IfOk result (λ stop. stop ≡ None → (steps : List StepAt) → HasTaken (kept_of found.old) steps → HasTaken (kept_of found.new) (steps ++ stages batch.now)) }
{
    lent_steps_are_tables();
    for i in 0..batch.len() {
        let at = batch.at(i);
        let marks = batch.marks(i);
        let slots = batch.slots(i);
        if let Some(outcome) = stop_at(found.rows, at, marks, slots.len())? {
            return Ok(Some(outcome));
        }
        take_step(found, places, at, marks, slots)?;
    }
    Ok(None)
}

/// The outcome of an instant at which the evaluation ends, where so many rows were counted at earlier ones and so many are
/// there now.
fn stop_at(
    earlier: usize,
    at: Ms,
    marks: &Marks,
    rows: usize,
) -> Result<Option<Outcome>, AllocError>
    requires { earlier ≤ most_rows }
    ensures { IfOk result (λ stop. (step : Step) → step.marks ≡ marks.now → length step.table.rows ≡ rows → stop_of earlier (record { at = at; step = step }) ≡ stop) }
{
    match marks.fatal.as_slice() {
        [mark, ..] => Ok(Some(Outcome::Failed {
            at,
            mark: mark.copy()?,
        })),
        [] => {
            if rows > MOST_ROWS - earlier {
                Ok(Some(Outcome::TooManyRows { at }))
            } else {
                Ok(None)
            }
        }
    }
}

/// Takes the rows, marks and notes of an instant.
fn take_step(
    found: &mut Found,
    places: &[usize],
    at: Ms,
    marks: &Marks,
    slots: &[Slot],
) -> Result<(), AllocError>
    requires few { found.old.rows + length slots.now ≤ most_rows }
    requires within { SlotsRise 0 (length places.now) slots.now }
    requires distinct { IsDistinct labels_eq (names_of found.old.series.items) }
    requires there { AllByRecursion (λ place. place < length found.old.series.items) places.now }
    ensures few { found.new.rows ≤ most_rows }
    ensures names { names_of found.new.series.items ≡ names_of found.old.series.items }
    ensures rows { OnOk result (found.new.rows ≡ found.old.rows + length slots.now) }
    ensures marks { OnOk result (found.new.marks ≡ united found.old.marks marks.now) }
    ensures points { OnOk result ((fed : List Names) → AreAt (names_of found.old.series.items) fed places.now → (names : Names)
        → points_under names found.new.series.items ≡ points_under names found.old.series.items ++ items_of (points_of at (entries_of fed slots.now)) names) }
{
    put_rows(&mut found.series, places, at, slots)?;
    unite(&mut found.marks, marks)?;
    found.rows += slots.len();
    Ok(())
}

/// Adds marks and notes to others; none cost nothing.
fn unite(marks: &mut Marks, more: &Marks) -> Result<(), AllocError>
    ensures { OnOk result (marks.new ≡ united marks.old more.now) }
{
    if has_none(more) {
        return Ok(());
    }
    marks.unite(more)
}

/// Whether there are no marks and no notes.
fn has_none(marks: &Marks) -> bool
    ensures { IsTrue result → marks.now ≡ no_marks }
{
    marks.fatal.as_slice().is_empty() && marks.notes.as_slice().is_empty()
}

/// Puts the rows of an instant behind the points at their own places.
fn put_rows(
    series: &mut Vec<ResultSeries>,
    places: &[usize],
    at: Ms,
    slots: &[Slot],
) -> Result<(), AllocError>
    requires within { SlotsRise 0 (length places.now) slots.now }
    requires distinct { IsDistinct labels_eq (names_of series.old.items) }
    requires there { AllByRecursion (λ place. place < length series.old.items) places.now }
    ensures names { names_of series.new.items ≡ names_of series.old.items }
    ensures points { OnOk result ((fed : List Names) → AreAt (names_of series.old.items) fed places.now → (names : Names)
        → points_under names series.new.items ≡ points_under names series.old.items ++ items_of (points_of at (entries_of fed slots.now)) names) }
{
    for slot in slots {
        push_point(series, place_at(places, slot.place), at, slot.value)?;
    }
    Ok(())
}

fn place_at(places: &[usize], place: usize) -> usize
    requires { place < length places.now }
    ensures { result ≡ slice_index_or places.now place 0 }
{
    places[place]
}

/// Puts a value at an instant behind the points of the series at a place.
fn push_point(
    series: &mut Vec<ResultSeries>,
    place: usize,
    at: Ms,
    value: XFrac,
) -> Result<(), AllocError>
    requires { place < length series.old.items }
    ensures names { names_of series.new.items ≡ names_of series.old.items }
    ensures point { OnOk result (IsDistinct labels_eq (names_of series.old.items) → (own : Names) → slice_get (names_of series.old.items) place ≡ Some own → (names : Names)
        → points_under names series.new.items ≡ points_under names series.old.items ++ items_of (points_of at ((own, value) ∷ [])) names) }
{
    let point = Point { at, value };
    series[place].points.push(point)
}
