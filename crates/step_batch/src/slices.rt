ghost use Rattle.std.specs.Prelude.{◌≡◌, ◌≤◌, ◌++◌, ◌∷◌, [], List, drop, length, IfOk, OnOk, OnErr};
ghost use Rattle.step_batch.specs.Columns.{column_more, columns_behind, columns_from, has_some};
ghost use Rattle.xfrac.specs.declared.value.XFrac.{XFrac};

use std::alloc::{AllocError, Global};
use std::marker::Model;
use ticks::Ms;
use xfrac::XFrac;

/// The samples of a window in two columns, their times in milliseconds and their values: later ones are put behind, and earlier
/// ones are let go. Contracts see those that are left.
#[derive(Drop)]
pub struct Slices {
    times: Vec<Ms>,
    values: Vec<XFrac>,
    start: usize,
}

impl Model for Slices {
    ghost use Rattle.step_batch.specs.Columns.{AreColumns, Columns, columns_from};

    ghost Value = { Columns };

    ghost view = { λ s. columns_from s.start s.times.items s.values.items };

    ghost invariant = { λ s. AreColumns s.start s.times.items s.values.items };
}

impl Slices {
    /// No samples. It takes no memory.
    pub fn new(alloc: Global) -> Slices
        ensures { result ≡ record { times = []; values = [] } }
    {
        Slices {
            times: Vec::new(alloc),
            values: Vec::new(alloc),
            start: 0,
        }
    }

    /// These samples, which are copied. The only error is want of memory.
    pub fn of(alloc: Global, times: &[Ms], values: &[XFrac]) -> Result<Slices, AllocError>
        requires { length times.now ≡ length values.now }
        ensures { IfOk result (λ s. s ≡ record { times = times.now; values = values.now }) }
    {
        let times = copy_of(alloc, times)?;
        let values = copy_of(alloc, values)?;
        Ok(Slices {
            times,
            values,
            start: 0,
        })
    }

    /// The times of the samples. It takes no memory.
    pub fn times(&self) -> &[Ms]
        ensures { result.now ≡ self.now.times }
    {
        self.times.as_slice().split_at(self.start).1
    }

    /// The values of the samples, as many as their times. It takes no memory.
    pub fn values(&self) -> &[XFrac]
        ensures { result.now ≡ self.now.values }
    {
        self.values.as_slice().split_at(self.start).1
    }

    /// Whether a sample is left. It takes no memory.
    pub fn has_some(&self) -> bool
        ensures { result ≡ has_some self.now }
    {
        match self.times() {
            [] => false,
            [_, ..] => true,
        }
    }

    /// Puts a sample behind the others. The only error is want of memory; then nothing is changed.
    pub fn push(&mut self, at: Ms, value: XFrac) -> Result<(), AllocError>
        ensures ok { OnOk result (self.new ≡ column_more self.old at value) }
        ensures err { OnErr result (self.new ≡ self.old) }
    {
        push_both(&mut self.times, &mut self.values, at, value)?;
        Ok(())
    }

    /// Lets the samples in front go that are no later than an edge. It takes no memory, and all such calls together move
    /// each sample once on the average.
    pub fn forget(&mut self, edge: Ms)
        ensures { self.new ≡ columns_behind edge.0 self.old }
    {
        self.start = first_behind(self.times.as_slice(), self.start, edge);
        if self.start > self.times.len() / 2 {
            self.start = pack(&mut self.times, &mut self.values, self.start);
        }
    }
}

fn copy_of<T: Copy>(alloc: Global, items: &[T]) -> Result<Vec<T>, AllocError>
    ensures { IfOk result (λ copy. copy.items ≡ items.now) }
{
    let mut copy = Vec::with_capacity(alloc, items.len())?;
    copy.extend_from_slice(items)?;
    Ok(copy)
}

/// How many samples there is room for from the first one on: five minutes have as many at a sample each half minute.
const FIRST: usize = 10;

/// Room is made in both columns first, so that they stay of one length.
fn push_both(
    times: &mut Vec<Ms>,
    values: &mut Vec<XFrac>,
    at: Ms,
    value: XFrac,
) -> Result<(), AllocError>
    ensures times { OnOk result (times.new.items ≡ times.old.items ++ at ∷ []) }
    ensures values { OnOk result (values.new.items ≡ values.old.items ++ value ∷ []) }
    ensures same_times { OnErr result (times.new.items ≡ times.old.items) }
    ensures same_values { OnErr result (values.new.items ≡ values.old.items) }
{
    let more = if times.is_empty() { FIRST } else { 1 };
    times.reserve(more)?;
    values.reserve(more)?;
    times.push(at)?;
    values.push(value)?;
    Ok(())
}

/// The first place from one on whose time is later than an edge.
fn first_behind(times: &[Ms], start: usize, edge: Ms) -> usize
    requires { start ≤ length times.now }
    ensures within { result ≤ length times.now }
    ensures left { (values : List XFrac) → columns_from result times.now values ≡ columns_behind edge.0 (columns_from start times.now values) }
{
    let mut i = start;
    while i < times.len() {
        if times[i].0 > edge.0 {
            return i;
        }
        i += 1;
    }
    i
}

/// Moves what is left to the front; it answers the new start.
fn pack(times: &mut Vec<Ms>, values: &mut Vec<XFrac>, start: usize) -> usize
    requires same { length times.old.items ≡ length values.old.items }
    requires within { start ≤ length times.old.items }
    ensures start { result ≡ 0 }
    ensures times { times.new.items ≡ drop start times.old.items }
    ensures values { values.new.items ≡ drop start values.old.items }
{
    keep_from(times, start);
    keep_from(values, start);
    0
}

/// Moves the items from a place on to the front, and lets those before go.
fn keep_from<T: Copy>(items: &mut Vec<T>, start: usize)
    requires { start ≤ length items.old.items }
    ensures { items.new.items ≡ drop start items.old.items }
{
    let left = items.len() - start;
    items.copy_within(start.., 0);
    items.truncate(left);
}
