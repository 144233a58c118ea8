//! The groups of the rows of a step, by the places of their labels.
ghost use Rattle.op_aggregate.specs.Places.{AreTallied, has_place, items_at};
ghost use Rattle.op_aggregate.specs.Tallies.{group_of};
ghost use Rattle.std.specs.List.{AllByRecursion};
ghost use Rattle.std.specs.Prelude.{◌≡◌, ◌+◌, ◌<◌, ◌^◌, ◌++◌, ◌∷◌, [], Some, true, false, length, slice_get, slice_index_or, if◌then◌else◌, OnOk};
ghost use Rattle.step_batch.specs.Lent.{SlotsRise};

use crate::tally::Group;
use func_table::Aggregate;
use std::alloc::{AllocError, Global};
use step_batch::Slot;
use xfrac::XFrac;
use xfrac::laws::is_number;

/// A group for each place, and the places of those that have rows.
#[derive(Drop)]
pub(crate) struct Groups {
    pub alloc: Global,
    pub f: Aggregate,
    pub all: Vec<Group>,
    pub filled: Vec<usize>,
}

impl Groups {
    /// No places. It takes no memory.
    pub(crate) fn new(alloc: Global, f: Aggregate) -> Groups
        ensures { result.f ≡ f }
    {
        Groups {
            alloc,
            f,
            all: Vec::new(alloc),
            filled: Vec::new(alloc),
        }
    }

    /// Makes as many groups as places, without rows. The only error is want of memory.
    pub(crate) fn renew(&mut self, count: usize) -> Result<(), AllocError>
        ensures f { self.new.f ≡ self.old.f }
        ensures many { OnOk result (length self.new.all.items ≡ count) }
        ensures empty { OnOk result (AreTallied [] self.new) }
    {
        self.filled.clear();
        self.all.clear();
        for _place in 0..count {
            let group = Group::new(self.alloc, self.f);
            self.all.push(group)?;
        }
        Ok(())
    }

    /// Takes the rows of a step, each into the group of its labels, whose places stand in a list by the places of the labels.
    /// The only error is want of memory.
    pub(crate) fn take(&mut self, places: &[usize], slots: &[Slot]) -> Result<(), AllocError>
        requires slots { SlotsRise 0 (length places.now) slots.now }
        requires places { AllByRecursion (λ p. p < length self.old.all.items) places.now }
        requires empty { AreTallied [] self.old }
        ensures f { self.new.f ≡ self.old.f }
        ensures many { length self.new.all.items ≡ length self.old.all.items }
        ensures tallied { OnOk result (AreTallied (items_at places.now slots.now) self.new) }
    {
        for slot in slots {
            let place = place_at(places, slot.place);
            self.add(place, &slot.value)?;
        }
        Ok(())
    }

    fn add(&mut self, place: usize, value: &XFrac) -> Result<(), AllocError>
        requires there { place < length self.old.all.items }
        requires tallied { (items : _) × AreTallied items self.old × (length items + 1 < 2 ^ 64) }
        ensures f { self.new.f ≡ self.old.f }
        ensures many { length self.new.all.items ≡ length self.old.all.items }
        ensures tallied { OnOk result ((items : _) → AreTallied items self.old → AreTallied (items ++ (place, value.now) ∷ []) self.new) }
    {
        is_number(value);
        let group = &mut self.all[place];
        push_if(&mut self.filled, group.rows == 0, place)?;
        group.add(value)
    }

    /// Puts the places of groups with rows into rising order, in which most of them stand already.
    pub(crate) fn sort(&mut self)
        ensures f { self.new.f ≡ self.old.f }
        ensures many { length self.new.all.items ≡ length self.old.all.items }
        ensures tallied { (items : _) → AreTallied items self.old → AreTallied items self.new }
    {
        if !do_rise(self.filled.as_slice()) {
            self.filled.sort_unstable();
        }
    }

    /// Takes all rows out. It takes no memory.
    pub(crate) fn empty(&mut self)
        requires { (items : _) × AreTallied items self.old }
        ensures f { self.new.f ≡ self.old.f }
        ensures many { length self.new.all.items ≡ length self.old.all.items }
        ensures empty { AreTallied [] self.new }
    {
        empty_at(self.alloc, self.f, &mut self.all, self.filled.as_slice());
        self.filled.clear();
    }
}

/// Takes all rows out of the groups at some places.
fn empty_at(alloc: Global, f: Aggregate, all: &mut Vec<Group>, places: &[usize])
    requires { AllByRecursion (λ p. p < length all.old.items) places.now }
    ensures many { length all.new.items ≡ length all.old.items }
    ensures emptied { (q : _) → has_place q places.now ≡ true → slice_get all.new.items q ≡ Some (group_of f []) }
    ensures others { (q : _) → has_place q places.now ≡ false → slice_get all.new.items q ≡ slice_get all.old.items q }
{
    for place in places {
        all[*place] = Group::new(alloc, f);
    }
}

fn push_if(places: &mut Vec<usize>, wanted: bool, place: usize) -> Result<(), AllocError>
    ensures { OnOk result (places.new.items ≡ (if wanted then places.old.items ++ place ∷ [] else places.old.items)) }
{
    if wanted {
        places.push(place)?;
    }
    Ok(())
}

fn place_at(places: &[usize], place: usize) -> usize
    requires { place < length places.now }
    ensures { result ≡ slice_index_or places.now place 0 }
{
    places[place]
}

/// Whether places rise.
fn do_rise(places: &[usize]) -> bool {
    for i in 1..places.len() {
        if places[i] <= places[i - 1] {
            return false;
        }
    }
    true
}
