ghost use Rattle.label_set.specs.LabelEquality.{labels_eq};
ghost use Rattle.std.specs.List.{IsDistinct, list_any};
ghost use Rattle.std.specs.Map.{keys_of};
ghost use Rattle.std.specs.Option.{option_map};
ghost use Rattle.std.specs.Prelude.{◌≡◌, ◌<◌, ◌++◌, ◌∷◌, false, [], Some, filter, length, map, slice_get, IfOk, OnOk, OnErr};
ghost use Rattle.step_batch.specs.Columns.{has_some};
ghost use Rattle.step_batch.specs.Lent.{no_marks};
ghost use Rattle.step_batch.specs.LentWindows.{EndsBefore, TimesRise, behind, changed_at, columns_in, left_behind, lengthened, names_of, window_with, windows_of, with_more_marks, with_sample, with_window};

use crate::slices::Slices;
use crate::steps::{join, no_marks};
use crate::windows::Windows;
use indexmap::IndexMap;
use label_set::Labels;
use std::alloc::{AllocError, Global};
use std::marker::Model;
use step_table::Marks;
use ticks::Ms;
use xfrac::XFrac;

/// The windows of one instant, which it lends. Contracts see what it lends.
#[derive(Drop)]
pub struct WindowBuffer {
    alloc: Global,
    at: Ms,
    rows: IndexMap<Labels, Slices>,
    marks: Marks,
}

impl Model for WindowBuffer {
    ghost use Rattle.step_batch.specs.LentWindows.{AreWindows, WindowsAt, windows_of};

    ghost Value = { WindowsAt };

    ghost view = { λ b. record { at = b.at; rows = windows_of b.rows.entries; marks = b.marks } };

    ghost invariant = { λ b. AreWindows (windows_of b.rows.entries) };
}

impl WindowBuffer {
    /// An instant without windows and marks. It takes no memory.
    pub fn new(alloc: Global, at: Ms) -> WindowBuffer
        ensures { result ≡ record { at = at; rows = []; marks = no_marks } }
    {
        WindowBuffer {
            alloc,
            at,
            rows: IndexMap::new(alloc),
            marks: no_marks(alloc),
        }
    }

    /// Another instant, without windows and marks. It takes no memory.
    pub fn begin(&mut self, at: Ms)
        ensures { self.new ≡ record { at = at; rows = []; marks = no_marks } }
    {
        self.at = at;
        self.rows.clear();
        self.marks = no_marks(self.alloc);
    }

    /// Another instant, without marks; the windows stay at their places. It takes no memory.
    pub fn renew(&mut self, at: Ms)
        ensures { self.new ≡ record { at = at; rows = self.old.rows; marks = no_marks } }
    {
        self.at = at;
        self.marks = no_marks(self.alloc);
    }

    /// Adds a window, which is copied. The only error is want of memory; then nothing is changed.
    pub fn put(&mut self, labels: &Labels, times: &[Ms], values: &[XFrac]) -> Result<(), AllocError>
        requires same { length times.now ≡ length values.now }
        requires some { 0 < length times.now }
        requires rising { TimesRise times.now }
        requires fresh { list_any (labels_eq labels.now) (names_of self.old.rows) ≡ false }
        ensures ok { OnOk result (self.new ≡ with_window self.old labels.now times.now values.now) }
        ensures err { OnErr result (self.new ≡ self.old) }
    {
        put_in(&mut self.rows, self.alloc, labels, times, values)?;
        Ok(())
    }

    /// Adds a sample at the end of the window with these labels, which begins with it where there is none, and answers the
    /// window's place. The only error is want of memory; then nothing is changed.
    pub fn add(&mut self, labels: &Labels, at: Ms, value: XFrac) -> Result<usize, AllocError>
        requires { (i : _) (w : _) → slice_get self.old.rows i ≡ Some w → w.labels ≡ labels.now → EndsBefore at w }
        ensures ok { OnOk result (self.new ≡ record { at = self.old.at; rows = with_sample self.old.rows labels.now at value; marks = self.old.marks }) }
        ensures place { IfOk result (λ i. option_map (λ w. w.labels) (slice_get self.new.rows i) ≡ Some labels.now) }
        ensures err { OnErr result (self.new ≡ self.old) }
    {
        let place = add_in(&mut self.rows, self.alloc, labels, at, value)?;
        Ok(place)
    }

    /// Adds a sample at the end of the window at a place. The only error is want of memory; then nothing is changed.
    pub fn lengthen(&mut self, place: usize, at: Ms, value: XFrac) -> Result<(), AllocError>
        requires there { place < length self.old.rows }
        requires later { (w : _) → slice_get self.old.rows place ≡ Some w → EndsBefore at w }
        ensures ok { OnOk result (self.new ≡ record { at = self.old.at; rows = changed_at (lengthened at value) self.old.rows place; marks = self.old.marks }) }
        ensures err { OnErr result (self.new ≡ self.old) }
    {
        lengthen_at(&mut self.rows, place, at, value)?;
        Ok(())
    }

    /// Lets the samples go that are no later than an edge, and the windows of which none is left; those behind move up.
    /// It takes no memory.
    pub fn forget(&mut self, edge: Ms)
        ensures { self.new ≡ record { at = self.old.at; rows = behind edge.0 self.old.rows; marks = self.old.marks } }
    {
        forget_each(&mut self.rows, edge);
        drop_empty(&mut self.rows);
    }

    /// Adds marks and notes; none cost nothing. The only error is want of memory; then nothing is changed.
    pub fn unite(&mut self, marks: &Marks) -> Result<(), AllocError>
        ensures ok { OnOk result (self.new ≡ with_more_marks self.old marks.now) }
        ensures err { OnErr result (self.new ≡ self.old) }
    {
        join(&mut self.marks, marks)
    }

    /// Lends the windows. It takes no memory.
    pub fn lend(&self) -> Windows<'_>
        ensures { result ≡ self.now }
    {
        Windows::of(self.at, &self.rows, &self.marks)
    }
}

/// Puts in a window whose labels aren't there.
fn put_in(
    rows: &mut IndexMap<Labels, Slices>,
    alloc: Global,
    labels: &Labels,
    times: &[Ms],
    values: &[XFrac],
) -> Result<usize, AllocError>
    requires same { length times.now ≡ length values.now }
    requires fresh { list_any (labels_eq labels.now) (names_of (windows_of rows.old.entries)) ≡ false }
    ensures ok { OnOk result (windows_of rows.new.entries ≡ windows_of rows.old.entries ++ window_with labels.now times.now values.now ∷ []) }
    ensures place { IfOk result (λ i. i ≡ length (windows_of rows.old.entries)) }
    ensures err { OnErr result (rows.new.entries ≡ rows.old.entries) }
{
    let window = Slices::of(alloc, times, values)?;
    let (place, _) = rows.insert_full(labels.copy()?, window)?;
    Ok(place)
}

/// Puts a sample into the window with these labels, or into a new one.
fn add_in(
    rows: &mut IndexMap<Labels, Slices>,
    alloc: Global,
    labels: &Labels,
    at: Ms,
    value: XFrac,
) -> Result<usize, AllocError>
    ensures ok { OnOk result (windows_of rows.new.entries ≡ with_sample (windows_of rows.old.entries) labels.now at value) }
    ensures place { IfOk result (λ i. option_map (λ w. w.labels) (slice_get (windows_of rows.new.entries) i) ≡ Some labels.now) }
    ensures err { OnErr result (rows.new.entries ≡ rows.old.entries) }
{
    match rows.get_index_of(labels) {
        Some(place) => {
            lengthen_at(rows, place, at, value)?;
            Ok(place)
        }
        None => {
            let place = put_in(rows, alloc, labels, &[at], &[value])?;
            Ok(place)
        }
    }
}

/// Puts a sample behind those of the window at a place.
fn lengthen_at(
    rows: &mut IndexMap<Labels, Slices>,
    place: usize,
    at: Ms,
    value: XFrac,
) -> Result<(), AllocError>
    requires { place < length (windows_of rows.old.entries) }
    ensures ok { OnOk result (windows_of rows.new.entries ≡ changed_at (lengthened at value) (windows_of rows.old.entries) place) }
    ensures err { OnErr result (rows.new.entries ≡ rows.old.entries) }
{
    let (_, window) = rows.pair_mut(place);
    window.push(at, value)?;
    Ok(())
}

/// Lets early samples go of each window.
fn forget_each(rows: &mut IndexMap<Labels, Slices>, edge: Ms)
    ensures { windows_of rows.new.entries ≡ map (left_behind edge.0) (windows_of rows.old.entries) }
{
    for place in 0..rows.len() {
        forget_at(rows, place, edge);
    }
}

/// Lets early samples go of the window at a place.
fn forget_at(rows: &mut IndexMap<Labels, Slices>, place: usize, edge: Ms)
    requires { place < length (windows_of rows.old.entries) }
    ensures { windows_of rows.new.entries ≡ changed_at (left_behind edge.0) (windows_of rows.old.entries) place }
{
    let (_, window) = rows.pair_mut(place);
    window.forget(edge);
}

/// Takes out the windows without samples.
fn drop_empty(rows: &mut IndexMap<Labels, Slices>)
    ensures windows { windows_of rows.new.entries ≡ filter (λ w. has_some (columns_in w)) (windows_of rows.old.entries) }
    ensures distinct { IsDistinct labels_eq (keys_of rows.new.entries) }
{
    rows.retain(
        |_labels: &Labels, window: &mut Slices| -> bool
            ensures { (result ≡ has_some window.old) × (window.new ≡ window.old) }
        { window.has_some() },
    );
}
