ghost use Rattle.std.specs.Option.{option_map};
ghost use Rattle.std.specs.Prelude.{◌≡◌, ◌<◌, Some, length, slice_get};
ghost use Rattle.step_batch.specs.LentWindows.{AreWindows, TimesRise, windows_of};

use crate::slices::Slices;
use indexmap::IndexMap;
use label_set::Labels;
use std::marker::Model;
use step_table::Marks;
use ticks::Ms;
use xfrac::XFrac;

/// The windows of one instant, which are lent.
#[derive(Drop)]
pub struct Windows<'a> {
    at: Ms,
    rows: &'a IndexMap<Labels, Slices>,
    marks: &'a Marks,
}

impl<'a> Model for Windows<'a> {
    ghost use Rattle.step_batch.specs.LentWindows.{AreWindows, WindowsAt, windows_of};

    ghost Value = { WindowsAt };

    ghost view = { λ w. record { at = w.at; rows = windows_of w.rows.now.entries; marks = w.marks.now } };

    ghost invariant = { λ w. AreWindows (windows_of w.rows.now.entries) };
}

impl<'a> Windows<'a> {
    pub(crate) fn of(at: Ms, rows: &'a IndexMap<Labels, Slices>, marks: &'a Marks) -> Windows<'a>
        requires { AreWindows (windows_of rows.now.entries) }
        ensures { result ≡ record { at = at; rows = windows_of rows.now.entries; marks = marks.now } }
    {
        Windows { at, rows, marks }
    }

    /// The instant. It takes no memory.
    pub fn at(&self) -> Ms
        ensures { result ≡ self.now.at }
    {
        self.at
    }

    /// How many windows there are. It takes no memory.
    pub fn len(&self) -> usize
        ensures len { result ≡ length self.now.rows }
        ensures lent { AreWindows self.now.rows }
    {
        self.rows.len()
    }

    /// The labels of a window. It takes no memory.
    pub fn labels(&self, i: usize) -> &Labels
        requires { i < length self.now.rows }
        ensures { option_map (λ w. w.labels) (slice_get self.now.rows i) ≡ Some result.now }
    {
        labels_at(self.rows, i)
    }

    /// The times of a window, which rise. It takes no memory.
    pub fn times(&self, i: usize) -> &[Ms]
        requires { i < length self.now.rows }
        ensures times { option_map (λ w. w.times) (slice_get self.now.rows i) ≡ Some result.now }
        ensures rising { TimesRise result.now }
        ensures some { 0 < length result.now }
    {
        times_at(self.rows, i)
    }

    /// The values of a window, as many as its times. It takes no memory.
    pub fn values(&self, i: usize) -> &[XFrac]
        requires { i < length self.now.rows }
        ensures { option_map (λ w. w.values) (slice_get self.now.rows i) ≡ Some result.now }
    {
        values_at(self.rows, i)
    }

    /// The marks and notes. It takes no memory.
    pub fn marks(&self) -> &Marks
        ensures { result.now ≡ self.now.marks }
    {
        self.marks
    }
}

fn labels_at(rows: &IndexMap<Labels, Slices>, i: usize) -> &Labels
    requires { i < length (windows_of rows.now.entries) }
    ensures { option_map (λ w. w.labels) (slice_get (windows_of rows.now.entries) i) ≡ Some result.now }
{
    rows.get_index(i).unwrap().0
}

fn samples_at(rows: &IndexMap<Labels, Slices>, i: usize) -> &Slices
    requires { i < length (windows_of rows.now.entries) }
    ensures times { option_map (λ w. w.times) (slice_get (windows_of rows.now.entries) i) ≡ Some result.now.times }
    ensures values { option_map (λ w. w.values) (slice_get (windows_of rows.now.entries) i) ≡ Some result.now.values }
{
    rows.get_index(i).unwrap().1
}

fn times_at(rows: &IndexMap<Labels, Slices>, i: usize) -> &[Ms]
    requires { i < length (windows_of rows.now.entries) }
    ensures { option_map (λ w. w.times) (slice_get (windows_of rows.now.entries) i) ≡ Some result.now }
{
    samples_at(rows, i).times()
}

fn values_at(rows: &IndexMap<Labels, Slices>, i: usize) -> &[XFrac]
    requires { i < length (windows_of rows.now.entries) }
    ensures { option_map (λ w. w.values) (slice_get (windows_of rows.now.entries) i) ≡ Some result.now }
{
    samples_at(rows, i).values()
}
