//! The order of a step's slots.
ghost use Rattle.op_buckets.specs.SlotOrders.{IsOrder, slots_in};
ghost use Rattle.std.specs.Prelude.{◌≡◌, ◌<◌, Some, length, slice_get, slice_index_or, OnOk};
ghost use Rattle.step_batch.specs.Lent.{SlotsRise};

use std::alloc::{AllocError, Global};
use std::cmp::Ordering;
use step_batch::Slot;
use xfrac::{XFrac, cmp_total};

/// A slot's number among those of a step, and what it is sorted by.
#[derive(Clone, Copy)]
pub(crate) struct SlotKey {
    pub slot: usize,
    pub group: usize,
    pub bound: Option<XFrac>,
}

/// The slots of a step by their histograms, and by their bounds within these. They are sorted once while the places of slots
/// stay; `places` are those of the slots that were sorted.
#[derive(Drop)]
pub(crate) struct Order {
    pub keys: Vec<SlotKey>,
    places: Vec<usize>,
    ghost all: { IsOrder (slots_in keys.items) },
}

impl Order {
    /// The order of no slots. It takes no memory.
    pub(crate) fn new(alloc: Global) -> Order {
        Order {
            keys: Vec::new(alloc),
            places: Vec::new(alloc),
        }
    }

    /// Has the next slots sorted at any places, as other histograms or bounds may stand there. It takes no memory.
    pub(crate) fn forget(&mut self) {
        self.places.clear();
    }

    /// Takes the slots of a step. The only error is want of memory; then the next ones may be taken all the same.
    pub(crate) fn renew(
        &mut self,
        groups: &[usize],
        bounds: &[Option<XFrac>],
        slots: &[Slot],
    ) -> Result<(), AllocError>
        requires groups { SlotsRise 0 (length groups.now) slots.now }
        requires bounds { SlotsRise 0 (length bounds.now) slots.now }
        ensures { OnOk result (length self.new.keys.items ≡ length slots.now) }
    {
        if self.keys.len() == slots.len() && stand_at(slots, self.places.as_slice()) {
            return Ok(());
        }
        sort(&mut self.keys, groups, bounds, slots)?;
        note_places(&mut self.places, slots)
    }
}

/// Whether slots stand at these places.
fn stand_at(slots: &[Slot], places: &[usize]) -> bool {
    if slots.len() != places.len() {
        return false;
    }
    for i in 0..slots.len() {
        if slots[i].place != places[i] {
            return false;
        }
    }
    true
}

fn note_places(places: &mut Vec<usize>, slots: &[Slot]) -> Result<(), AllocError> {
    places.clear();
    for slot in slots {
        places.push(slot.place)?;
    }
    Ok(())
}

/// Sorts slots, from the order in which as many were left before: most often they stand so already.
fn sort(
    keys: &mut Vec<SlotKey>,
    groups: &[usize],
    bounds: &[Option<XFrac>],
    slots: &[Slot],
) -> Result<(), AllocError>
    requires groups { SlotsRise 0 (length groups.now) slots.now }
    requires bounds { SlotsRise 0 (length bounds.now) slots.now }
    requires all { IsOrder (slots_in keys.old.items) }
    ensures all { IsOrder (slots_in keys.new.items) }
    ensures count { OnOk result (length keys.new.items ≡ length slots.now) }
{
    if keys.len() != slots.len() {
        number(keys, slots.len())?;
    }
    read(keys, groups, bounds, slots);
    put_in_order(keys);
    Ok(())
}

/// So many slots as they come.
fn number(keys: &mut Vec<SlotKey>, count: usize) -> Result<(), AllocError>
    ensures all { IsOrder (slots_in keys.new.items) }
    ensures count { OnOk result (length keys.new.items ≡ count) }
{
    keys.clear();
    for slot in 0..count {
        keys.push(SlotKey {
            slot,
            group: 0,
            bound: None,
        })?;
    }
    Ok(())
}

/// Reads the histograms and bounds of slots.
fn read(keys: &mut Vec<SlotKey>, groups: &[usize], bounds: &[Option<XFrac>], slots: &[Slot])
    requires groups { SlotsRise 0 (length groups.now) slots.now }
    requires bounds { SlotsRise 0 (length bounds.now) slots.now }
    requires all { IsOrder (slots_in keys.old.items) }
    requires count { length keys.old.items ≡ length slots.now }
    ensures { slots_in keys.new.items ≡ slots_in keys.old.items }
{
    for i in 0..keys.len() {
        let key = key_of(keys[i].slot, groups, bounds, slots);
        keys[i] = key;
    }
}

fn key_of(slot: usize, groups: &[usize], bounds: &[Option<XFrac>], slots: &[Slot]) -> SlotKey
    requires here { slot < length slots.now }
    requires groups { SlotsRise 0 (length groups.now) slots.now }
    requires bounds { SlotsRise 0 (length bounds.now) slots.now }
    ensures { result.slot ≡ slot }
{
    let place = slot_there(slots, slot).place;
    SlotKey {
        slot,
        group: group_there(groups, place),
        bound: bound_there(bounds, place),
    }
}

pub(crate) fn slot_there(slots: &[Slot], slot: usize) -> &Slot
    requires { slot < length slots.now }
    ensures { slice_get slots.now slot ≡ Some result.now }
{
    &slots[slot]
}

pub(crate) fn group_there(groups: &[usize], place: usize) -> usize
    requires { place < length groups.now }
    ensures { result ≡ slice_index_or groups.now place 0 }
{
    groups[place]
}

pub(crate) fn bound_there(bounds: &[Option<XFrac>], place: usize) -> Option<XFrac>
    requires { place < length bounds.now }
    ensures { slice_get bounds.now place ≡ Some result }
{
    bounds[place]
}

fn put_in_order(keys: &mut Vec<SlotKey>)
    requires { IsOrder (slots_in keys.old.items) }
    ensures all { IsOrder (slots_in keys.new.items) }
    ensures count { length keys.new.items ≡ length keys.old.items }
{
    keys.sort_unstable_by(|a, b| key_order(a, b));
}

fn key_order(a: &SlotKey, b: &SlotKey) -> Ordering {
    match a.group.cmp(&b.group) {
        Ordering::Equal => bound_order(&a.bound, &b.bound),
        order => order,
    }
}

/// A slot without a bound is no bucket: it may stand anywhere.
fn bound_order(a: &Option<XFrac>, b: &Option<XFrac>) -> Ordering {
    match (a, b) {
        (Some(a), Some(b)) => cmp_total(a, b),
        (None, Some(_)) => Ordering::Less,
        (Some(_), None) => Ordering::Greater,
        (None, None) => Ordering::Equal,
    }
}
