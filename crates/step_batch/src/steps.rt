ghost use Rattle.std.specs.Prelude.{◌≡◌, ◌↔◌, ◌<◌, ◌<ℤ◌, ◌≤◌, ◌++◌, insert, [], ◌∷◌, ℕ, length, nat_lt, take, IfOk, IsTrue, OnOk, OnErr};
ghost use Rattle.step_batch.specs.Lent.{ArePlaced, LaterThanLast, SlotsRise, blank, count_of_slots, has_slot, insert_slot, last_slots, no_marks, on_last, with_marks, with_slot};
ghost use Rattle.step_table.specs.Unions.{united};

use label_set::Items;
use std::alloc::{AllocError, Global};
use std::marker::Model;
use std::mem;
use step_table::Marks;
use ticks::Ms;
use xfrac::XFrac;

/// A row of a step: the place of its labels, and its value.
#[derive(Clone, Copy, Debug)]
pub struct Slot {
    pub place: usize,
    pub value: XFrac,
}

/// What holds at an instant: slots in rising place, with marks and notes.
#[derive(Drop)]
pub struct PlacedStep {
    pub at: Ms,
    pub slots: Items<Slot>,
    pub marks: Marks,
}

/// Steps, and behind them some that were taken out and keep their memory. Contracts see the steps alone.
#[derive(Drop)]
pub(crate) struct Steps {
    all: Vec<PlacedStep>,
    count: usize,
}

impl Model for Steps {
    ghost use Rattle.std.specs.Prelude.{◌≤◌, List, length, take};
    ghost use Rattle.step_batch.specs.declared.steps.PlacedStep.{PlacedStep};

    ghost Value = { List PlacedStep };

    ghost view = { λ s. take s.count s.all.items };

    ghost invariant = { λ s. s.count ≤ length s.all.items };
}

impl Steps {
    pub(crate) fn new(alloc: Global) -> Steps
        ensures { result ≡ [] }
    {
        Steps {
            all: Vec::new(alloc),
            count: 0,
        }
    }

    pub(crate) fn clear(&mut self)
        ensures { self.new ≡ [] }
    {
        self.count = 0;
    }

    pub(crate) fn as_slice(&self) -> &[PlacedStep]
        ensures { result.now ≡ self.now }
    {
        self.all.as_slice().split_at(self.count).0
    }

    pub(crate) fn begin(&mut self, alloc: Global, at: Ms) -> Result<(), AllocError>
        ensures ok { OnOk result (self.new ≡ self.old ++ blank at ∷ []) }
        ensures err { OnErr result (self.new ≡ self.old) }
    {
        self.count = begin_at(&mut self.all, self.count, alloc, at)?;
        Ok(())
    }

    pub(crate) fn put(&mut self, place: usize, value: XFrac) -> Result<(), AllocError>
        requires begun { 0 < length self.old }
        requires rising { (high : ℕ) × ArePlaced high self.old }
        ensures ok { OnOk result (self.new ≡ on_last (with_slot place value) self.old) }
        ensures err { OnErr result (self.new ≡ self.old) }
    {
        put_at(&mut self.all, self.count, place, value)?;
        Ok(())
    }

    pub(crate) fn unite(&mut self, marks: &Marks) -> Result<(), AllocError>
        requires { 0 < length self.old }
        ensures ok { OnOk result (self.new ≡ on_last (with_marks marks.now) self.old) }
        ensures err { OnErr result (self.new ≡ self.old) }
    {
        unite_at(&mut self.all, self.count, marks)?;
        Ok(())
    }
}

/// Whether the steps have fewer slots together than so many.
pub(crate) fn has_fewer_slots(steps: &[PlacedStep], most: usize) -> bool
    ensures { result ≡ nat_lt (count_of_slots steps.now) most }
{
    let mut left = most;
    for step in steps {
        let count = step.slots.as_slice().len();
        if count >= left {
            return false;
        }
        left -= count;
    }
    left > 0
}

/// Whether an instant is later than the last step's.
pub(crate) fn is_after_last(steps: &[PlacedStep], at: Ms) -> bool
    ensures { IsTrue result ↔ LaterThanLast steps.now at }
{
    if steps.is_empty() {
        return true;
    }
    is_before(steps[steps.len() - 1].at, at)
}

fn is_before(a: Ms, b: Ms) -> bool
    ensures { IsTrue result ↔ (a.0 <ℤ b.0) }
{
    a.0 < b.0
}

/// Whether the last step has a slot at a place.
pub(crate) fn has_last_slot(steps: &[PlacedStep], place: usize) -> bool
    requires { 0 < length steps.now }
    ensures { result ≡ has_slot place (last_slots steps.now) }
{
    has_slot(steps[steps.len() - 1].slots.as_slice(), place)
}

fn has_slot(slots: &[Slot], place: usize) -> bool
    ensures { result ≡ has_slot place slots.now }
{
    for slot in slots {
        if slot.place == place {
            return true;
        }
    }
    false
}

/// No marks and no notes. It takes no memory.
pub(crate) fn no_marks(alloc: Global) -> Marks
    ensures { result ≡ no_marks }
{
    Marks {
        fatal: Items::new(alloc),
        notes: Items::new(alloc),
    }
}

/// A step without slots and marks, with room for so many slots. The only error is want of memory.
fn blank(alloc: Global, at: Ms, room: usize) -> Result<PlacedStep, AllocError>
    ensures { IfOk result (λ step. step ≡ blank at) }
{
    Ok(PlacedStep {
        at,
        slots: Items::with_capacity(alloc, room)?,
        marks: no_marks(alloc),
    })
}

/// How many slots the last step has.
fn slots_of_last(steps: &[PlacedStep]) -> usize {
    match steps.last() {
        Some(step) => step.slots.as_slice().len(),
        None => 0,
    }
}

/// The list without its items, in its own memory.
fn emptied(slots: Items<Slot>) -> Items<Slot>
    ensures { result ≡ [] }
{
    let mut slots = slots.into_vec();
    slots.clear();
    Items::from_vec(slots)
}

/// Makes a step blank; the memory of its slots is kept.
fn make_blank(step: &mut PlacedStep, alloc: Global, at: Ms)
    ensures { step.new ≡ blank at }
{
    let slots = mem::replace(&mut step.slots, Items::new(alloc));
    step.at = at;
    step.slots = emptied(slots);
    step.marks = no_marks(alloc);
}

/// One more step behind so many of them, in the memory of an old one where there is one. It answers how many there are.
fn begin_at(
    all: &mut Vec<PlacedStep>,
    count: usize,
    alloc: Global,
    at: Ms,
) -> Result<usize, AllocError>
    requires { count ≤ length all.old.items }
    ensures ok { IfOk result (λ more. take more all.new.items ≡ take count all.old.items ++ blank at ∷ []) }
    ensures within { IfOk result (λ more. more ≤ length all.new.items) }
    ensures err { OnErr result (all.new.items ≡ all.old.items) }
{
    if count < all.len() {
        make_blank(&mut all[count], alloc, at);
        return Ok(count + 1);
    }
    // Steps mostly have as many slots as the one before.
    let step = blank(alloc, at, slots_of_last(all.as_slice()))?;
    all.push(step)?;
    Ok(all.len())
}

/// Puts a slot into the last one of so many steps.
fn put_at(
    all: &mut Vec<PlacedStep>,
    count: usize,
    place: usize,
    value: XFrac,
) -> Result<(), AllocError>
    requires some { 0 < count }
    requires within { count ≤ length all.old.items }
    requires rising { (high : ℕ) × ArePlaced high (take count all.old.items) }
    ensures ok { OnOk result (take count all.new.items ≡ on_last (with_slot place value) (take count all.old.items)) }
    ensures err { OnErr result (take count all.new.items ≡ take count all.old.items) }
    ensures len { length all.new.items ≡ length all.old.items }
{
    put_slot(&mut all[count - 1].slots, place, value)?;
    Ok(())
}

/// Puts a slot in its place among slots in rising place.
fn put_slot(slots: &mut Items<Slot>, place: usize, value: XFrac) -> Result<(), AllocError>
    requires { (high : ℕ) × SlotsRise 0 high slots.old }
    ensures ok { OnOk result (slots.new ≡ insert_slot slots.old place value) }
    ensures err { OnErr result (slots.new ≡ slots.old) }
{
    let i = place_among(slots.as_slice(), place);
    slots.insert(i, Slot { place, value })
}

/// How many slots stand before a place. It is looked for from the end, so that rising places cost nothing.
fn place_among(slots: &[Slot], place: usize) -> usize
    requires rising { (high : ℕ) × SlotsRise 0 high slots.now }
    ensures within { result ≤ length slots.now }
    ensures there { (value : _) → insert slots.now result (record { place = place; value = value }) ≡ insert_slot slots.now place value }
{
    let mut i = slots.len();
    while i > 0 {
        if slots[i - 1].place < place {
            return i;
        }
        i -= 1;
    }
    i
}

/// Adds marks and notes to the last one of so many steps.
fn unite_at(all: &mut Vec<PlacedStep>, count: usize, marks: &Marks) -> Result<(), AllocError>
    requires some { 0 < count }
    requires within { count ≤ length all.old.items }
    ensures ok { OnOk result (take count all.new.items ≡ on_last (with_marks marks.now) (take count all.old.items)) }
    ensures err { OnErr result (take count all.new.items ≡ take count all.old.items) }
    ensures len { length all.new.items ≡ length all.old.items }
{
    join(&mut all[count - 1].marks, marks)?;
    Ok(())
}

/// Adds marks and notes to others; none cost nothing.
pub(crate) fn join(marks: &mut Marks, more: &Marks) -> Result<(), AllocError>
    ensures ok { OnOk result (marks.new ≡ united marks.old more.now) }
    ensures err { OnErr result (marks.new ≡ marks.old) }
{
    if has_none(more) {
        return Ok(());
    }
    marks.unite(more)
}

/// Whether there are no marks and no notes.
fn has_none(marks: &Marks) -> bool
    ensures { IsTrue result → marks.now ≡ no_marks }
{
    marks.fatal.as_slice().is_empty() && marks.notes.as_slice().is_empty()
}
